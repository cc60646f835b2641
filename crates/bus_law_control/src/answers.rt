//! An answer of which nothing is shown. Laws alone, each the contract of an empty function.

ghost use Rattle.std.specs.Prelude.{◌≡◌, ℕ, ◌<◌, ◌≤◌, Bool, true, false, List, ◌∷◌, ◌++◌, length, Some, None};
ghost use Rattle.bus_base.specs.declared.samples.Channel.{Channel};
ghost use Rattle.bus_base.specs.declared.samples.Drive.TheVariants.{Silent};
ghost use Rattle.bus_words.specs.declared.word.Word.{Word};
ghost use Rattle.bus_formats.specs.Plans.{TerminalData};
ghost use Rattle.bus_model.specs.Memory.{Memory, TimedLoad};
ghost use Rattle.bus_model.specs.Orders.{owes};
ghost use Rattle.bus_model.specs.Hearing.{Moment, heard_on};
ghost use Rattle.bus_model.specs.Sending.{drive_sample};
ghost use Rattle.bus_model.specs.Standing.{ignored_from};
ghost use Rattle.bus_model.specs.Terminal.{is_over, standing, drives, took_now, accepted_now};
ghost use Rattle.bus_law_stations.specs.Legs.{BeginsAnswer, with_sent};
ghost use Rattle.bus_law_control.specs.Answers.{HearsQuiet};

/// An answer of which nothing is shown is over after k + 1 quiet ticks: until then its terminal sends, and ignores its channel, and from then on
/// it sends nothing more and hears the channel again. Nothing else comes of it but that the transmission is marked: no block is taken, no
/// control accepted. At every lag.
pub fn a_mute_answer_is_over()
    ensures sends { (k : ℕ) (terminal : TerminalData) (loads : List TimedLoad) (memory : Memory) (c : Channel) (heard ticks : List Moment)
        (words : List Word) (acceptance : Bool) → let s = standing k terminal loads memory heard in
        BeginsAnswer k terminal s c heard → HearsQuiet k terminal s c heard ticks → s.duty ≡ owes words acceptance → length ticks ≤ k →
        drives k terminal loads record { memory = memory; ticks = ticks ++ heard } ≡ drive_sample c s.part words (length ticks) }
    ensures silent { (k : ℕ) (terminal : TerminalData) (loads : List TimedLoad) (memory : Memory) (c : Channel) (heard ticks : List Moment) →
        let s = standing k terminal loads memory heard in
        BeginsAnswer k terminal s c heard → HearsQuiet k terminal s c heard ticks → k < length ticks →
        drives k terminal loads record { memory = memory; ticks = ticks ++ heard } ≡ Silent }
    ensures stands { (k : ℕ) (terminal : TerminalData) (loads : List TimedLoad) (memory : Memory) (c : Channel) (heard ticks : List Moment) (first : Moment) →
        let s = standing k terminal loads memory heard in BeginsAnswer k terminal s c heard → HearsQuiet k terminal s c heard (first ∷ ticks) →
        standing k terminal loads memory ((first ∷ ticks) ++ heard) ≡ with_sent s c (Some (length heard)) }
    ensures ignores { (k : ℕ) (terminal : TerminalData) (loads : List TimedLoad) (memory : Memory) (c : Channel) (heard ticks : List Moment) →
        let s = standing k terminal loads memory heard in HearsQuiet k terminal s c heard ticks → length ticks ≤ k →
        ignored_from k (heard_on c (ticks ++ heard)) (Some (length heard)) ≡ true }
    ensures over { (k : ℕ) (terminal : TerminalData) (loads : List TimedLoad) (memory : Memory) (c : Channel) (heard ticks : List Moment) →
        let s = standing k terminal loads memory heard in BeginsAnswer k terminal s c heard → HearsQuiet k terminal s c heard ticks → k < length ticks →
        (is_over k terminal (heard_on c (ticks ++ heard)) s ≡ true) × (ignored_from k (heard_on c (ticks ++ heard)) (Some (length heard)) ≡ false) }
    ensures takes { (k : ℕ) (terminal : TerminalData) (loads : List TimedLoad) (memory : Memory) (c : Channel) (heard ticks : List Moment) (now : Moment) →
        let s = standing k terminal loads memory heard in BeginsAnswer k terminal s c heard → HearsQuiet k terminal s c heard (now ∷ ticks) →
        (took_now k terminal loads record { memory = memory; ticks = (now ∷ ticks) ++ heard } ≡ None)
        × (accepted_now k terminal loads record { memory = memory; ticks = (now ∷ ticks) ++ heard } ≡ None) }
{}
