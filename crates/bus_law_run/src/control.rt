//! Control where no message offers it. Laws alone, each the contract of an empty function.

ghost use Rattle.std.specs.Prelude.{◌≡◌, ℕ, Bool, true, false, List, ◌∷◌};
ghost use Rattle.bus_base.specs.declared.samples.Pair.{Pair};
ghost use Rattle.bus_formats.specs.Plans.{StationData};
ghost use Rattle.bus_model.specs.Control.{OutsideTake, doubts, holds_control};
ghost use Rattle.bus_model.specs.Memory.{TimedLoad};
ghost use Rattle.bus_law_told.specs.Plain.{IsPlainStation};

/// A station of which no message offers control, nor may be abandoned, keeps control once it has it, and never doubts whether it has. At every lag, for
/// any loads, whatever is shown.
pub fn control_is_kept_where_none_is_offered()
    ensures keeps { (k : ℕ) (station : StationData) (starts : Bool) (loads : List TimedLoad) (outside : List OutsideTake) (shown : Pair)
        (past : List Pair) → IsPlainStation station → holds_control k station starts loads outside past ≡ true →
        holds_control k station starts loads outside (shown ∷ past) ≡ true }
    ensures doubts { (k : ℕ) (station : StationData) (starts : Bool) (loads : List TimedLoad) (outside : List OutsideTake) (past : List Pair) →
        IsPlainStation station → doubts k station starts loads outside past ≡ false }
{}
