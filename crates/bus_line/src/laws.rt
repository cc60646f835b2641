//! Laws of bursts and slots, each the contract of a function without a body.

ghost use Rattle.std.specs.Prelude.{◌≡◌, ◌↔◌, ℕ, suc, ◌+◌, ◌-◌, ◌<◌, ◌≤◌, ◌⊎◌, true, false, List, ◌∷◌, ◌++◌, length, Some, None};
ghost use Rattle.bus_base.specs.declared.samples.Sample.{Sample};
ghost use Rattle.bus_base.specs.declared.samples.Pair.{Pair};
ghost use Rattle.bus_line.specs.declared.cutter.Cutter.{Cutter};
ghost use Rattle.bus_line.specs.Bursts.{EndsAgree, SlotsAgree, IsEndSince, IsBurst, IsLongest, IsHeardAt, IsQuietAt, IsFirstHeard, ValidAgree, BurstsAgree};
ghost use Rattle.bus_line.specs.Past.{Burst, Slot, InLeg, burst_from, quiet_ticks, quiet, stopped, runs, first_tick, ended_now, slot_now, end_of, heard_within, first_heard, end_since};
ghost use Rattle.bus_line.specs.Cutting.{CutterStands, cut_now, running_slots, Tells, Collects, Closes, Fills};

/// A burst is a longest stretch of ticks that begins and ends with one that isn't quiet and holds no k + 1 quiet ones in a row, and no tick
/// is in two bursts. At every lag.
pub fn a_burst_is_a_longest_stretch()
    ensures longest { (k : ℕ) (past : List Sample) (p n : ℕ) → IsBurst k past p n ↔ IsLongest k past p n }
    ensures alone { (k : ℕ) (past : List Sample) (p n q m t : ℕ) → IsBurst k past p n → IsBurst k past q m →
        p ≤ t → t < p + n → q ≤ t → t < q + m → (p ≡ q) × (n ≡ m) }
{}

/// The newest burst is found, up to its last tick that wasn't quiet, and a burst runs exactly where the end of one isn't known. At every lag.
pub fn the_newest_burst_is_found()
    ensures newest { (k : ℕ) (past : List Sample) → 0 < stopped past → IsBurst k past (first_tick k past) (stopped past - first_tick k past) }
    ensures runs { (k : ℕ) (past : List Sample) → (runs k past ≡ true) ↔ ((p n : ℕ) × IsBurst k past p n × (length past ≤ p + n + k)) }
{}

/// The slot that is looked up in a past is the slot of a burst by tick numbers that ended in its newest tick, and no other, at every lag
/// below a slot's forty ticks. (At a longer lag two slots may end in one tick.)
pub fn slots_are_found()
    ensures { (k : ℕ) (past : List Sample) → k ≤ 39 → SlotsAgree k past }
{}

/// The end that is looked up in a past is the end of a burst by tick numbers that became known in its newest tick, and no other, at every lag.
pub fn ends_are_found()
    ensures { (k : ℕ) (past : List Sample) → EndsAgree k past }
{}

/// A leg is the ticks of one burst after a past in which none runs. With k + 1 quiet ticks after it, it is the burst that ended, and its
/// slots are those of the leg alone, whatever came before and after. At every lag.
pub fn a_leg_is_the_burst_that_ended()
    ensures ended { (k : ℕ) (x : Sample) (leg past : List Sample) → runs k past ≡ false → InLeg k (x ∷ leg) → quiet (x ∷ leg) ≡ 0 →
        let whole : List Sample = quiet_ticks (suc k) ++ ((x ∷ leg) ++ past) in
        ended_now k whole ≡ Some (burst_from whole (length past) (suc (length leg))) }
    ensures slots { (later leg past : List Sample) (n : ℕ) → n ≤ length leg →
        (burst_from (later ++ (leg ++ past)) (length past) n).slots ≡ (burst_from leg 0 n).slots }
{}

/// A cut tells what ended: the burst or the slot that is looked up.
pub fn a_cut_tells_what_ended()
    ensures { (k : ℕ) (past : List Sample) → Tells k past (cut_now k past) }
{}

/// The cuts add up to the words of the whole slots of the burst that runs: each slot that ended is its next, and an end tells of all.
pub fn cuts_add_up()
    ensures collects { (k : ℕ) (x : Sample) (past : List Sample) → k ≤ 39 → Collects (cut_now k (x ∷ past)) (running_slots k past) (running_slots k (x ∷ past)) }
    ensures closes { (k : ℕ) (x : Sample) (past : List Sample) (burst : Burst) → ended_now k (x ∷ past) ≡ Some burst → Closes k x past burst }
    ensures fills { (k : ℕ) (x : Sample) (past : List Sample) (slot : Slot) → k ≤ 39 → slot_now k (x ∷ past) ≡ Some slot → Fills k x past slot }
{}

/// What was heard between two ticks, and from a tick on: the answers that are looked up are those by tick numbers.
pub fn heard_ticks_are_found()
    ensures within { (past : List Sample) (a b : ℕ) → (heard_within past a b ≡ true) ↔ ((t : ℕ) × (a ≤ t) × (t < b) × IsHeardAt past t) }
    ensures first { (past : List Sample) (a t : ℕ) → (first_heard past a ≡ Some t) ↔ IsFirstHeard past a t }
    ensures none { (past : List Sample) (a : ℕ) → (first_heard past a ≡ None) ↔ ((t : ℕ) → a ≤ t → IsQuietAt past t) }
{}

/// Where what began at a tick has its end: the end that is looked up is the one by tick numbers. It is found once and stays; for what began
/// with a burst it is the burst's own, known when that is.
pub fn ends_since_a_tick_are_found()
    ensures found { (k : ℕ) (past : List Sample) (a e : ℕ) → end_since k past a ≡ Some e → IsEndSince k past a e }
    ensures all { (k : ℕ) (past : List Sample) (a e : ℕ) → IsEndSince k past a e → end_since k past a ≡ Some e }
    ensures stays { (k : ℕ) (x : Sample) (past : List Sample) (a e : ℕ) → end_since k past a ≡ Some e → end_since k (x ∷ past) a ≡ Some e }
    ensures runs { (k : ℕ) (past : List Sample) → runs k past ≡ true → end_since k past (first_tick k past) ≡ None }
    ensures ended { (k : ℕ) (past : List Sample) (burst : Burst) → ended_now k past ≡ Some burst → end_since k past burst.first ≡ Some (end_of burst) }
{}

/// The list of valid words has the words that whole slots of bursts spell and no others, in the order of their last ticks, A before B.
/// At every lag below a slot's forty ticks.
pub fn valid_words_are_found()
    ensures { (k : ℕ) (past : List Pair) → k ≤ 39 → ValidAgree k past }
{}

/// The list of ended bursts has the bursts whose ends are known and no others, in the order of their ends, A before B. At every lag.
pub fn ended_bursts_are_found()
    ensures { (k : ℕ) (past : List Pair) → BurstsAgree k past }
{}

/// A cutter for a past whose last k + 1 ticks were quiet, or that was quiet altogether, stands for it with any number of further quiet ticks.
pub fn quiet_ticks_change_nothing()
    ensures { (k : ℕ) (cutter : Cutter) (past : List Sample) (n : ℕ) → CutterStands k cutter past →
        (k < quiet past) ⊎ (quiet past ≡ length past) → CutterStands k cutter (quiet_ticks n ++ past) }
{}
