//! Laws of what a survey runs and prints, each the contract of a function that does nothing.
ghost use Rattle.std.specs.Prelude.{◌≡◌, ℕ, List, ◌++◌, All};
ghost use Rattle.bus_formats.specs.Accepted.{IsAccepted};
ghost use Rattle.bus_formats.specs.Plans.{PlanData};
ghost use Rattle.bus_formats.specs.declared.form.Outcome.{Outcome};
ghost use Rattle.bus_text.specs.Texts.{outcome_text, spaced};
ghost use Rattle.bus_survey.specs.Alone.{with_fault_alone};
ghost use Rattle.bus_survey.specs.Lines.{outcome_name};

/// An accepted plan with one of its faults alone is accepted.
pub fn a_plan_with_one_fault_alone_is_accepted()
    ensures { (plan : PlanData) → IsAccepted plan → All (λ fault. IsAccepted (with_fault_alone plan fault)) plan.faults }
{}

/// The name under which a survey counts an outcome is the one that a report prints, with the part of the message left out.
pub fn items_are_counted_by_the_names_of_reports()
    ensures { (outcome : Outcome) → (part : List ℕ) × (outcome_text outcome ≡ spaced (outcome_name outcome) ++ part) }
{}
