//! How a monitor reads what is sent whole. Laws alone, each the contract of an empty function.

ghost use Rattle.std.specs.Prelude.{◌≡◌, ◌≢◌, ◌≤◌, ℕ, false, Bool, List, [], AllPairs, IsSome, Some};
ghost use Rattle.bus_base.specs.declared.samples.Channel.{Channel};
ghost use Rattle.bus_base.specs.declared.samples.Part.TheVariants.{First};
ghost use Rattle.bus_words.specs.declared.word.Word.{Word};
ghost use Rattle.bus_formats.specs.Accepted.{HasKindRanges, addresses_named};
ghost use Rattle.bus_formats.specs.Forms.{form_of, command_words};
ghost use Rattle.bus_formats.specs.Plans.{ItemData};
ghost use Rattle.bus_formats.specs.Readings.{read_answer};
ghost use Rattle.bus_formats.specs.declared.plan.Kind.{Kind};
ghost use Rattle.bus_law_duties.specs.Words.{whole_slots};
ghost use Rattle.bus_model.specs.Memory.{TimedLoad};
ghost use Rattle.bus_model.specs.Message.{Present, address_of_station, after_command, command_burst};
ghost use Rattle.bus_model.specs.Orders.{owes};
ghost use Rattle.bus_monitor.specs.Messages.{message_of};
ghost use Rattle.bus_rules.specs.Breaches.{is_bad_reply};

/// The words of a command, sent whole and without a rest, open the very message of which they are the command.
pub fn a_command_opens_its_message()
    ensures { (kind : Kind) → HasKindRanges kind → IsSome (form_of kind) → AllPairs (λ a b. a ≢ b) (addresses_named kind) →
        message_of (whole_slots (command_words kind)) 0 ≡ Some kind }
{}

/// Whatever a station owes to a command that no fault strikes is, sent whole, one of the answers that are due, and never a bad reply: it names the terminal that
/// was asked, and has all the data words of the message, or none where its status says why.
pub fn the_answer_to_a_whole_command_is_due()
    ensures { (k : ℕ) (loads : List TimedLoad) (c : Channel) (start : ℕ) (item : ItemData) (station : Present) (words : List Word) (acceptance : Bool) →
        address_of_station station ≤ 31 → HasKindRanges item.kind →
        (after_command k loads (command_burst c start [] item) station).duty ≡ owes words acceptance →
        is_bad_reply (read_answer item.kind First (whole_slots words) 0) ≡ false }
{}
