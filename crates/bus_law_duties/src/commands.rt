//! What terminals owe and promise after a command, which may be struck by any hits.

ghost use Rattle.std.specs.Prelude.{◌≡◌, ◌≤◌, ◌%◌, ℕ, Bool, true, false, List, [], ◌∷◌, map, All, Option, Some, None};
ghost use Rattle.bus_base.specs.declared.samples.Channel.{Channel};
ghost use Rattle.bus_words.specs.Fields.{command_bits};
ghost use Rattle.bus_words.specs.declared.word.Word.{Word};
ghost use Rattle.bus_formats.specs.Accepted.{HasKindRanges, addresses_named};
ghost use Rattle.bus_formats.specs.Forms.{answers_of, command_words};
ghost use Rattle.bus_formats.specs.Plans.{ItemData};
ghost use Rattle.bus_formats.specs.declared.fault.Hit.{Hit};
ghost use Rattle.bus_formats.specs.declared.plan.Kind.TheVariants.{Relay};
ghost use Rattle.bus_model.specs.Memory.{TimedLoad};
ghost use Rattle.bus_model.specs.Message.{Present, address_of_station, After, unmoved, after_command, command_burst};
ghost use Rattle.bus_model.specs.Orders.{owes, promises};
ghost use Rattle.bus_model.specs.Strikes.{struck};
ghost use Rattle.bus_law_duties.specs.Words.{whole_slots};
ghost use Rattle.bus_law_duties.specs.Ranges.{HasPresentRanges, HasTimedLoadRanges};
ghost use Rattle.bus_law_duties.specs.Duties.{AreApart, AtMostOneOwes, AreFree, OwesToCommand, IsReceiver, PromisesToCommand};

/// A terminal that owes an answer to a command serves and is named by it, and owes its status with data words; at most one owes an answer; and where
/// no answer is expected, nobody owes or promises anything.
pub fn who_owes_after_a_command()
    ensures each { (k : ℕ) (loads : List TimedLoad) (c : Channel) (start : ℕ) (hits : List Hit) (item : ItemData) (station : Present)
        (words : List Word) (acceptance : Bool) → let after : After = after_command k loads (command_burst c start hits item) station in
        HasKindRanges item.kind → All HasTimedLoadRanges loads → HasPresentRanges station → after.duty ≡ owes words acceptance →
        (data_words : List ℕ) × OwesToCommand item.kind after acceptance data_words words }
    ensures one { (k : ℕ) (loads : List TimedLoad) (c : Channel) (start : ℕ) (hits : List Hit) (item : ItemData) (stations : List Present) →
        HasKindRanges item.kind → AreApart stations →
        AtMostOneOwes (map (after_command k loads (command_burst c start hits item)) stations) }
    ensures none { (k : ℕ) (loads : List TimedLoad) (c : Channel) (start : ℕ) (hits : List Hit) (item : ItemData) (stations : List Present) →
        HasKindRanges item.kind → (answers_of item.kind).first ≡ None →
        AreFree (map (after_command k loads (command_burst c start hits item)) stations) }
{}

/// Nobody promises anything to a command but a receiver of a relay, to its transmitter, where both command words are shown whole; and there each
/// receiver that serves does.
pub fn who_promises_after_a_command()
    ensures only { (k : ℕ) (loads : List TimedLoad) (c : Channel) (start : ℕ) (hits : List Hit) (item : ItemData) (station : Present)
        (command transmitter : ℕ) → HasKindRanges item.kind →
        (after_command k loads (command_burst c start hits item) station).duty ≡ promises command transmitter →
        PromisesToCommand item.kind (address_of_station station) command transmitter (struck hits (command_words item.kind)) }
    ensures receivers { (k : ℕ) (loads : List TimedLoad) (c : Channel) (start : ℕ) (hits : List Hit) (item : ItemData) (station : Present)
        (from from_sub to to_sub count : ℕ) → item.kind ≡ Relay from from_sub to to_sub count → HasKindRanges item.kind →
        IsReceiver (address_of_station station) from to → station.serves ≡ true →
        struck hits (command_words item.kind) ≡ whole_slots (command_words item.kind) →
        (after_command k loads (command_burst c start hits item) station).duty ≡ promises (command_bits to false to_sub (count % 32)) from }
{}

/// A message to one address whose command word is struck leaves every station as it was, and nobody owes or promises anything.
pub fn a_struck_command_is_for_nobody()
    ensures { (k : ℕ) (loads : List TimedLoad) (c : Channel) (start : ℕ) (hits : List Hit) (item : ItemData) (stations : List Present) (address : ℕ)
        (slots : List (Option Word)) → addresses_named item.kind ≡ address ∷ [] → struck hits (command_words item.kind) ≡ None ∷ slots →
        map (after_command k loads (command_burst c start hits item)) stations ≡ map unmoved stations }
{}
