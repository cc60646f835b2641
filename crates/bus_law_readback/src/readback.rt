//! What a capture of a run is read as, and what is listed of it. Laws alone, each the contract of an empty function.

ghost use Rattle.std.specs.Prelude.{◌≡◌, ◌≤◌, ℕ, List, [], ◌++◌, flat_map, length, Option, Ok};
ghost use Rattle.std.specs.Io.KnownBytes.{Appends};
ghost use Rattle.bus_capture.specs.Readings.{text_limit, capture_ticks};
ghost use Rattle.bus_capture.specs.declared.refusal.CaptureRefusal.{CaptureRefusal};
ghost use Rattle.bus_formats.specs.Accepted.{IsAccepted};
ghost use Rattle.bus_formats.specs.Plans.{PlanData};
ghost use Rattle.bus_line.specs.declared.cutter.TheConstants.{LAG};
ghost use Rattle.bus_law_run.specs.WorldIsRun.{plan_end};
ghost use Rattle.bus_model.specs.Log.{run_log};
ghost use Rattle.bus_model.specs.World.{world};
ghost use Rattle.bus_monitor.specs.Listings.{word_listing};
ghost use Rattle.bus_monitor.specs.Progress.{word_lines, end_text};
ghost use Rattle.bus_monitor.specs.Scribes.{IsListed};
ghost use Rattle.bus_monitor.specs.declared.listing.Listing.TheVariants.{Done, Refused};
ghost use Rattle.bus_text.specs.Texts.{word_line};
ghost use Rattle.bus_tool.specs.Texts.{plan_run, text_of};
ghost use Rattle.bus_tool.specs.declared.text.Text.TheVariants.{Capture};

/// For every accepted plan, the text that `capture` writes of its run is not too long to be read; it is read as exactly the ticks of that run; and
/// the listing of its words is, line by line, the word lines of the report that `run` writes of the same plan, and then the number of ticks.
pub fn a_capture_of_a_run_is_decoded_to_its_words()
    ensures fits { (plan : PlanData) (said : List (List ℕ)) → IsAccepted plan →
        length (text_of Capture (plan_run Capture plan) said) ≤ text_limit }
    ensures read { (plan : PlanData) (said : List (List ℕ)) → IsAccepted plan →
        capture_ticks (text_of Capture (plan_run Capture plan) said) ≡ record { ticks = world LAG plan [] [] [] (plan_end plan); ended = Ok (plan_end plan) } }
    ensures words { (plan : PlanData) (said : List (List ℕ)) → IsAccepted plan →
        word_listing LAG (capture_ticks (text_of Capture (plan_run Capture plan) said)).ticks ≡
        flat_map word_line (run_log LAG plan).words ++ end_text (plan_end plan) }
{}

/// So, where `decode` read the whole text that `capture` wrote of an accepted plan's run, it refuses nothing; and if it is done, it told the number of ticks
/// of that run, and wrote those word lines and that number.
pub fn the_capture_of_a_run_is_listed()
    ensures done { (plan : PlanData) (n : ℕ) (said : List (List ℕ)) (left0 left1 held0 held1 : Option (List ℕ)) → IsAccepted plan →
        (listed : IsListed (word_lines LAG) (word_listing LAG) left0 left1 held0 held1 (Done n)) →
        listed.input ≡ text_of Capture (plan_run Capture plan) said →
        (n ≡ plan_end plan) × Appends held0 held1 (flat_map word_line (run_log LAG plan).words ++ end_text (plan_end plan)) }
    ensures accepted { (plan : PlanData) (said : List (List ℕ)) (left0 left1 held0 held1 : Option (List ℕ)) (refusal : CaptureRefusal) →
        IsAccepted plan →
        (listed : IsListed (word_lines LAG) (word_listing LAG) left0 left1 held0 held1 (Refused refusal)) →
        listed.input ≡ text_of Capture (plan_run Capture plan) said → ⊥ }
{}
