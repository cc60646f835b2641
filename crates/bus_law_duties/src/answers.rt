//! What a burst leaves of a station, and what terminals owe after an answer, which may be struck by any hits.

ghost use Rattle.std.specs.Prelude.{◌≡◌, ◌≢◌, ◌≤◌, ℕ, Bool, true, false, List, map, All, Contains, Option, Some, None};
ghost use Rattle.bus_base.specs.declared.samples.Channel.{Channel};
ghost use Rattle.bus_words.specs.Fields.{address_of};
ghost use Rattle.bus_words.specs.declared.word.Word.{Word};
ghost use Rattle.bus_formats.specs.Accepted.{HasKindRanges};
ghost use Rattle.bus_formats.specs.Forms.{answers_of};
ghost use Rattle.bus_formats.specs.Plans.{ItemData};
ghost use Rattle.bus_formats.specs.declared.fault.Hit.{Hit};
ghost use Rattle.bus_model.specs.Memory.{TimedLoad};
ghost use Rattle.bus_model.specs.Message.{Present, address_of_station, After, unmoved, after_command, after_answer, after_silence, answer_for, answer_to, command_burst};
ghost use Rattle.bus_model.specs.Orders.{owes, last_order};
ghost use Rattle.bus_model.specs.Standing.{is_owed, is_promise};
ghost use Rattle.bus_model.specs.Strikes.{struck, ShownBurst, Answer};
ghost use Rattle.bus_law_duties.specs.Words.{with_data, AreLeftOf};
ghost use Rattle.bus_law_duties.specs.Duties.{AreApart, AtMostOneOwes, AreFree, OwesToAnswer};

/// A command, the answer to it and silence after it change nothing of a station but what its terminal keeps.
pub fn only_the_memory_of_a_station_changes()
    ensures command { (k : ℕ) (loads : List TimedLoad) (burst : ShownBurst) (station : Present) →
        let after : After = after_command k loads burst station in after.station ≡ record station { memory = after.station.memory } }
    ensures answer { (k : ℕ) (loads : List TimedLoad) (burst : ShownBurst) (before : After) →
        let after : After = after_answer k loads burst before in after.station ≡ record before.station { memory = after.station.memory } }
    ensures silence { (k : ℕ) (loads : List TimedLoad) (burst : ShownBurst) (before : After) →
        let after : After = after_silence k loads burst before in after.station ≡ record before.station { memory = after.station.memory } }
{}

/// After any burst that answers a command only the one receiver of a relay owes something, its status alone; so at most one terminal owes an answer, and
/// nobody where no second answer is expected. No promise stands any longer, and a station without one stays as it is.
pub fn who_owes_after_an_answer()
    ensures each { (k : ℕ) (loads : List TimedLoad) (c : Channel) (start : ℕ) (hits : List Hit) (item : ItemData) (station : Present)
        (answer : ShownBurst) (words : List Word) (acceptance : Bool) →
        let after : After = after_answer k loads answer (after_command k loads (command_burst c start hits item) station) in
        HasKindRanges item.kind → address_of_station station ≤ 31 → after.duty ≡ owes words acceptance →
        OwesToAnswer item.kind after acceptance words }
    ensures one { (k : ℕ) (loads : List TimedLoad) (c : Channel) (start : ℕ) (hits : List Hit) (item : ItemData) (stations : List Present)
        (answer : ShownBurst) → HasKindRanges item.kind → AreApart stations →
        AtMostOneOwes (map (after_answer k loads answer) (map (after_command k loads (command_burst c start hits item)) stations)) }
    ensures none { (k : ℕ) (loads : List TimedLoad) (c : Channel) (start : ℕ) (hits : List Hit) (item : ItemData) (stations : List Present)
        (answer : ShownBurst) → HasKindRanges item.kind → (answers_of item.kind).second ≡ None →
        AreFree (map (after_answer k loads answer) (map (after_command k loads (command_burst c start hits item)) stations)) }
    ensures settled { (k : ℕ) (loads : List TimedLoad) (answer : ShownBurst) (after : After) →
        is_promise (after_answer k loads answer after).duty ≡ false }
    ensures others { (k : ℕ) (loads : List TimedLoad) (answer : ShownBurst) (after : After) → is_promise after.duty ≡ false →
        after_answer k loads answer after ≡ unmoved after.station }
{}

/// Where no answer to a command is shown, nobody owes or promises anything any longer.
pub fn nobody_owes_after_silence()
    ensures { (k : ℕ) (loads : List TimedLoad) (command : ShownBurst) (afters : List After) → AreFree (map (after_silence k loads command) afters) }
{}

/// The answer to a burst is what a terminal owes to it, and none where nobody owes one; and where at most one owes an answer, it is that of the one
/// that does.
pub fn the_answer_is_what_is_owed()
    ensures found { (burst : ShownBurst) (afters : List After) (answer : Answer) → answer_to burst afters ≡ Some answer →
        (after : After) × Contains afters after × (answer_for burst after after.duty ≡ Some answer) }
    ensures none { (burst : ShownBurst) (afters : List After) → answer_to burst afters ≡ None → All (λ after. is_owed after.duty ≡ false) afters }
    ensures only { (burst : ShownBurst) (afters : List After) (after : After) → AtMostOneOwes afters → Contains afters after →
        is_owed after.duty ≡ true → answer_to burst afters ≡ answer_for burst after after.duty }
{}

/// An answer, a status with data words, is a command for no terminal but its own, whatever faults leave of it.
pub fn an_answer_is_no_command()
    ensures left { (status own : ℕ) (data_words : List ℕ) (slots : List (Option Word)) → address_of status ≢ own → address_of status ≢ 31 →
        AreLeftOf (with_data status data_words) slots → last_order own slots ≡ None }
    ensures struck { (hits : List Hit) (status own : ℕ) (data_words : List ℕ) → address_of status ≢ own → address_of status ≢ 31 →
        last_order own (struck hits (with_data status data_words)) ≡ None }
{}
