//! How the answer to an offer of control is read.

ghost use Rattle.std.specs.Prelude.{◌≡◌, ◌≤◌, ℕ, Bool, true, List, []};
ghost use Rattle.bus_base.specs.declared.samples.Channel.{Channel};
ghost use Rattle.bus_base.specs.declared.samples.Part.TheVariants.{First};
ghost use Rattle.bus_words.specs.declared.word.Word.{Word};
ghost use Rattle.bus_formats.specs.Accepted.{HasKindRanges};
ghost use Rattle.bus_formats.specs.Plans.{ItemData};
ghost use Rattle.bus_formats.specs.Readings.{read_answer};
ghost use Rattle.bus_formats.specs.declared.fault.Hit.{Hit};
ghost use Rattle.bus_model.specs.Attempts.{is_offer};
ghost use Rattle.bus_model.specs.Memory.{TimedLoad};
ghost use Rattle.bus_model.specs.Message.{Present, address_of_station, After, after_command, command_burst};
ghost use Rattle.bus_model.specs.Orders.{owes};
ghost use Rattle.bus_model.specs.Strikes.{struck};
ghost use Rattle.bus_law_duties.specs.Words.{with_data};
ghost use Rattle.bus_law_duties.specs.Duties.{status_after};
ghost use Rattle.bus_law_duties.specs.Offers.{IsReadAsMeant};

/// The answer to an offer of control is a status, and whatever hits strike it: where it stands alone, it is read as it was meant, so control passes
/// exactly where it accepts; otherwise it is read as a bad reply, and never as a good answer.
pub fn an_offer_is_read_as_it_was_meant()
    ensures { (k : ℕ) (loads : List TimedLoad) (c : Channel) (start : ℕ) (hits strikes : List Hit) (item : ItemData) (station : Present)
        (words : List Word) (acceptance : Bool) → let after : After = after_command k loads (command_burst c start hits item) station in
        HasKindRanges item.kind → is_offer item.kind ≡ true → address_of_station station ≤ 31 → after.duty ≡ owes words acceptance →
        (words ≡ with_data (status_after after acceptance) [])
        × IsReadAsMeant (status_after after acceptance) acceptance (struck strikes words) (read_answer item.kind First (struck strikes words) 0) }
{}
