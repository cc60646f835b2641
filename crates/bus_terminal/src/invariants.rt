//! What each state of a terminal is known to be, in ticks (MIL-STD-1553B 4.4.3.1). Laws alone, each the contract of an empty function. In each
//! of them a state stands after the ticks `past`, and `s` is what stands then by the definition: the last order is of a burst on `s.channel`
//! that ended at `s.end`.
ghost use Rattle.std.specs.Prelude.{◌≡◌, ◌⊎◌, ◌<◌, ◌≤◌, ◌+◌, ℕ, List, length, true, false};
ghost use Rattle.bus_base.specs.declared.samples.Channel.{Channel};
ghost use Rattle.bus_line.specs.Bursts.{IsHeardAt};
ghost use Rattle.bus_line.specs.declared.cutter.TheConstants.{LAG};
ghost use Rattle.bus_formats.specs.Plans.{TerminalData};
ghost use Rattle.bus_formats.specs.Times.{dead_ticks};
ghost use Rattle.bus_model.specs.Memory.{TimedLoad};
ghost use Rattle.bus_model.specs.Hearing.{Moment, heard_on};
ghost use Rattle.bus_model.specs.Standing.{Standing, is_owed, promised_on};
ghost use Rattle.bus_model.specs.Terminal.{given_up, is_over};
ghost use Rattle.bus_terminal.specs.Stands.{ListeningStands, PromisedStands, OwingStands, AnsweringStands, IsAwaited};
ghost use Rattle.bus_terminal.specs.declared.listening.Listening.{Listening};
ghost use Rattle.bus_terminal.specs.declared.promised.Promised.{Promised};
ghost use Rattle.bus_terminal.specs.declared.owing.Owing.{Owing};
ghost use Rattle.bus_terminal.specs.declared.answering.Answering.{Answering};

/// A terminal that listens owes nothing: an answer that was owed was given up or is over, and no promise stands.
pub fn listening_owes_nothing()
    ensures answers { (terminal : TerminalData) (loads : List TimedLoad) (state : Listening) (past : List Moment) (s : Standing) →
        ListeningStands LAG terminal loads state past s →
        is_owed s.duty ≡ true → (given_up LAG terminal (heard_on s.channel past) s ≡ true) ⊎ (is_over LAG terminal (heard_on s.channel past) s ≡ true) }
    ensures promises { (terminal : TerminalData) (loads : List TimedLoad) (state : Listening) (past : List Moment) (s : Standing) →
        ListeningStands LAG terminal loads state past s →
        (c : Channel) → promised_on LAG s c ≡ false }
{}

/// A promise stands on the channel of the relay's command burst. At most 30 dead ticks passed since that burst, or the awaited burst, which began
/// after at most 30, runs.
pub fn a_promise_waits_thirty_dead_ticks()
    ensures promises { (terminal : TerminalData) (loads : List TimedLoad) (state : Promised) (past : List Moment) (s : Standing) →
        PromisedStands LAG terminal loads state past s →
        promised_on LAG s s.channel ≡ true }
    ensures waits { (terminal : TerminalData) (loads : List TimedLoad) (state : Promised) (past : List Moment) (s : Standing) →
        PromisedStands LAG terminal loads state past s →
        (length past ≤ s.end + 30) ⊎ IsAwaited LAG (heard_on s.channel past) s.end }
{}

/// A terminal that owes an answer: fewer than its own dead ticks passed since the end of the burst that it answers (response time, MIL-STD-1553B
/// 4.3.3.8), and the answer wasn't given up.
pub fn an_owed_answer_is_not_due()
    ensures owes { (terminal : TerminalData) (loads : List TimedLoad) (state : Owing) (past : List Moment) (s : Standing) →
        OwingStands LAG terminal loads state past s →
        (is_owed s.duty ≡ true) × (given_up LAG terminal (heard_on s.channel past) s ≡ false) }
    ensures waits { (terminal : TerminalData) (loads : List TimedLoad) (state : Owing) (past : List Moment) (s : Standing) →
        OwingStands LAG terminal loads state past s →
        length past < s.end + dead_ticks terminal.delay }
{}

/// A terminal that answers: its own dead ticks passed, so that the answer has begun or begins in the tick to come; it wasn't given up; and in any
/// four ticks in a row from its first one on, one wasn't quiet on its channel.
pub fn an_answer_runs_from_its_due_tick()
    ensures owes { (terminal : TerminalData) (loads : List TimedLoad) (state : Answering) (past : List Moment) (s : Standing) →
        AnsweringStands LAG terminal loads state past s →
        (is_owed s.duty ≡ true) × (given_up LAG terminal (heard_on s.channel past) s ≡ false) }
    ensures due { (terminal : TerminalData) (loads : List TimedLoad) (state : Answering) (past : List Moment) (s : Standing) →
        AnsweringStands LAG terminal loads state past s →
        s.end + dead_ticks terminal.delay ≤ length past }
    ensures runs { (terminal : TerminalData) (loads : List TimedLoad) (state : Answering) (past : List Moment) (s : Standing) →
        AnsweringStands LAG terminal loads state past s →
        (u : ℕ) → s.end + dead_ticks terminal.delay ≤ u → u + LAG < length past →
        (t : ℕ) × (u ≤ t) × (t ≤ u + LAG) × IsHeardAt (heard_on s.channel past) t }
{}
