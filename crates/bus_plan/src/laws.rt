//! Laws of reading plans, each a function with nothing to do.
ghost use Rattle.std.specs.Prelude.{◌≡◌, ◌≢◌, ◌↔◌, ℕ, Bool, true, List, None, Ok, All, AllPairs, Contains};
ghost use Rattle.std.specs.Str.{is_utf8};
ghost use Rattle.toml.specs.Data.{Members};
ghost use Rattle.toml.specs.Text.{IsDocumentText};
ghost use Rattle.bus_formats.specs.Accepted.{IsAccepted, HasStationRanges, HasFaultRanges, IsController, addresses, IsFrameSendable, StrikesTheSame, IsWithinLimits};
ghost use Rattle.bus_formats.specs.Plans.{PlanData};
ghost use Rattle.bus_plan.specs.DecodeFaults.{plan_of};
ghost use Rattle.bus_plan.specs.Described.{document_with};
ghost use Rattle.bus_plan.specs.FaultRules.{undetectable, same_fault};
ghost use Rattle.bus_plan.specs.ItemRules.{same_address, start_missing, in_stations};
ghost use Rattle.bus_plan.specs.Limits.{too_many};
ghost use Rattle.bus_plan.specs.PlanOf.{head_of, in_document, plan_of_bytes};
ghost use Rattle.bus_plan.specs.PlanRules.{NamesStations, NamesOthers, HasForms, IsSuperseding, HasDetectableFlips, HasFewFrames, IsReadAs, AreReadAs};
ghost use Rattle.bus_plan.specs.Tables.{KeepsRule};
ghost use Rattle.bus_plan.specs.declared.item_rules.ItemRule.TheVariants.{NoSuchStation, SelfAddressed, BadForm, BadAbandon};
ghost use Rattle.bus_plan.specs.declared.rows.Head.{Head};
ghost use Rattle.bus_plan.specs.declared.rules.Rule.{Rule};

/// A rule on keys, kinds and ranges is broken exactly where a table of the document breaks it: the walk's search finds nothing exactly where each
/// member of each table keeps the rule.
pub fn rules_on_documents_are_exact()
    ensures { (rule : Rule) (head : Head) (doc : Members) → (in_document rule head doc ≡ None) ↔ KeepsRule rule head doc }
{}

/// The ranges of an accepted plan, and its rules on the address 31, hold of what every document describes: a value outside its range is refused
/// for itself, and decoded as one within.
pub fn what_a_document_describes_has_its_ranges()
    ensures ranges { (doc : Members) → All HasStationRanges (plan_of (head_of doc) doc).stations }
    ensures hits { (doc : Members) → All HasFaultRanges (plan_of (head_of doc) doc).faults }
    ensures controllers { (doc : Members) → let p : PlanData = plan_of (head_of doc) doc in
        All (λ s. s.terminal.address ≡ 31 → IsController p s.terminal) p.stations }
{}

/// The rules on stations are broken exactly where their fields of what an accepted plan keeps fail.
pub fn rules_on_stations_are_exact()
    ensures same_address { (p : PlanData) → (same_address p.stations 0 p.stations ≡ None) ↔ AllPairs (λ a b. a ≢ b) (addresses p) }
    ensures start { (p : PlanData) → (start_missing p ≡ None) ↔ Contains (addresses p) p.start }
{}

/// The rules on items are broken exactly where the plan's frames aren't accepted: the search for each finds nothing exactly where its part of
/// that field holds.
pub fn rules_on_items_are_exact()
    ensures no_such_station { (p : PlanData) → (in_stations NoSuchStation p.stations 1 p.stations ≡ None) ↔ NamesStations p }
    ensures self_addressed { (p : PlanData) → (in_stations SelfAddressed p.stations 1 p.stations ≡ None) ↔ NamesOthers p }
    ensures bad_form { (p : PlanData) → (in_stations BadForm p.stations 1 p.stations ≡ None) ↔ HasForms p }
    ensures bad_abandon { (p : PlanData) → (in_stations BadAbandon p.stations 1 p.stations ≡ None) ↔ IsSuperseding p }
    ensures frames { (p : PlanData) → (All (λ s. All (IsFrameSendable p s.terminal.address) s.frames) p.stations)
        ↔ (NamesStations p × NamesOthers p × HasForms p × IsSuperseding p) }
{}

/// The rules on faults and amounts are broken exactly where their fields of what an accepted plan keeps fail: the limit on frames is the version's,
/// and the flips are those of the document, since only positions of flips that can be detected are read as such.
pub fn rules_on_faults_and_amounts_are_exact()
    ensures undetectable { (doc : Members) → (undetectable doc ≡ None) ↔ HasDetectableFlips doc }
    ensures same_fault { (p : PlanData) → (same_fault p.faults 0 p.faults ≡ None) ↔ AllPairs (λ a b. StrikesTheSame a b → ⊥) p.faults }
    ensures too_many { (head : Head) (p : PlanData) → (too_many head p ≡ None) ↔ (IsWithinLimits p × HasFewFrames head p) }
{}

/// A text is read exactly where it is a document that breaks no rule on keys, kinds and ranges, its flips can be detected, and the plan that it
/// describes is accepted, with no more frames than its version allows.
pub fn what_is_accepted_is_read()
    ensures { (bytes : List ℕ) (p : PlanData) → (plan_of_bytes bytes ≡ Ok p) ↔ AreReadAs bytes p }
{}

/// Each accepted plan is read: from the document that describes it, and from each text that writes this document.
pub fn each_accepted_plan_is_read()
    ensures document { (p : PlanData) → IsAccepted p → IsReadAs (document_with p) p }
    ensures text { (p : PlanData) (pretty : Bool) (text : List ℕ) → IsAccepted p → is_utf8 text ≡ true → IsDocumentText pretty (document_with p) text →
        plan_of_bytes text ≡ Ok p }
{}
