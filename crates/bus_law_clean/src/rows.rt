//! How a message follows the bursts before it. Laws alone, each the contract of an empty function.

ghost use Rattle.std.specs.Prelude.{◌≡◌, ◌≢◌, ◌≤◌, ◌+◌, ℕ, false, List, [], ◌∷◌, AllPairs, IsSome, Some, None};
ghost use Rattle.std.specs.List.{AllByRecursion as Each};
ghost use Rattle.bus_base.specs.declared.samples.Channel.{Channel};
ghost use Rattle.bus_words.specs.declared.word.Word.{Word};
ghost use Rattle.bus_line.specs.Channels.{WholeBurst};
ghost use Rattle.bus_formats.specs.Accepted.{HasItemRanges, addresses_named};
ghost use Rattle.bus_formats.specs.Forms.{form_of};
ghost use Rattle.bus_formats.specs.Plans.{ItemData};
ghost use Rattle.bus_formats.specs.Readings.{read_answer};
ghost use Rattle.bus_formats.specs.declared.plan.Kind.{Kind};
ghost use Rattle.bus_law_clean.specs.Bursts.{word_ticks, whole_burst};
ghost use Rattle.bus_law_clean.specs.Messages.{IsPrompt, LeavesInOrder};
ghost use Rattle.bus_law_duties.specs.Words.{whole_slots};
ghost use Rattle.bus_law_judge.specs.Rows.{waits_on, IsApart, FollowsInOrder, AreInOrder};
ghost use Rattle.bus_law_plans.specs.Bounds.{IsShort};
ghost use Rattle.bus_model.specs.Memory.{TimedLoad};
ghost use Rattle.bus_model.specs.Message.{Present, message};
ghost use Rattle.bus_monitor.specs.Messages.{Waiting, message_of, opens, waits_after};
ghost use Rattle.bus_rules.specs.Breaches.{answered, is_bad_reply};

/// A command that was sent whole, apart from the bursts before it and when no message waits on its channel any longer, follows them in order, and its message waits
/// then, if an answer is expected.
pub fn a_command_follows_in_order()
    ensures follows { (k : ℕ) (c : Channel) (row : List WholeBurst) (start : ℕ) (words : List Word) (kind : Kind) →
        message_of (whole_slots words) 0 ≡ Some kind → word_ticks words ≤ 1600 → IsApart k row start → answered k (waits_on k c row) start ≡ None →
        FollowsInOrder k row (whole_burst c start words) }
    ensures waits { (k : ℕ) (c : Channel) (row : List WholeBurst) (start : ℕ) (words : List Word) (kind : Kind) →
        message_of (whole_slots words) 0 ≡ Some kind → word_ticks words ≤ 1600 → IsApart k row start → answered k (waits_on k c row) start ≡ None →
        waits_on k c (whole_burst c start words ∷ row) ≡ opens k (whole_burst c start words).burst (Some kind) }
{}

/// An answer that is due to the message that waits, sent whole within the longest response time, follows in order, and its message waits on or is closed by it.
pub fn an_answer_follows_in_order()
    ensures follows { (k : ℕ) (c : Channel) (row : List WholeBurst) (w : Waiting) (start : ℕ) (words : List Word) → waits_on k c row ≡ Some w → start ≤ w.from + 20 →
        is_bad_reply (read_answer w.kind w.part (whole_slots words) 0) ≡ false → word_ticks words ≤ 1600 → IsApart k row start →
        FollowsInOrder k row (whole_burst c start words) }
    ensures waits { (k : ℕ) (c : Channel) (row : List WholeBurst) (w : Waiting) (start : ℕ) (words : List Word) → waits_on k c row ≡ Some w → start ≤ w.from + 20 →
        is_bad_reply (read_answer w.kind w.part (whole_slots words) 0) ≡ false → word_ticks words ≤ 1600 → IsApart k row start →
        waits_on k c (whole_burst c start words ∷ row) ≡ waits_after k w (start + word_ticks words) (read_answer w.kind w.part (whole_slots words) 0) }
{}

/// A message of the table that no fault strikes and that is not abandoned, sent to prompt terminals, apart from the bursts before it and when no message waits on
/// its channel any longer, keeps all of them in order, and leaves them so for the next. At every lag up to 3, for any loads.
pub fn a_message_keeps_the_bursts_in_order()
    ensures { (k : ℕ) (loads : List TimedLoad) (n : ℕ) (item : ItemData) (c : Channel) (start : ℕ) (stations : List Present) (row : List WholeBurst) → k ≤ 3 →
        HasItemRanges item → IsSome (form_of item.kind) → AllPairs (λ a b. a ≢ b) (addresses_named item.kind) → item.abandon ≡ None → Each IsPrompt stations →
        AreInOrder k row → IsApart k row start → answered k (waits_on k c row) start ≡ None →
        Each IsShort (message k loads [] n item None c start stations).bursts → LeavesInOrder k row c start (message k loads [] n item None c start stations) }
{}
