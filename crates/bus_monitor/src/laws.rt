//! Laws of the listings, each a function with nothing to do.
ghost use Rattle.std.specs.Prelude.{◌≡◌, ◌<◌, ℕ, List, ◌∷◌, ◌++◌, length, take, map, flat_map, Option, Some, None};
ghost use Rattle.bus_base.specs.declared.samples.Channel.TheVariants.{A, B};
ghost use Rattle.bus_base.specs.declared.samples.Pair.{Pair};
ghost use Rattle.bus_base.specs.declared.samples.Sample.{Sample};
ghost use Rattle.bus_line.specs.Past.{Burst, runs, ended_now};
ghost use Rattle.bus_line.specs.Channels.{valid_now};
ghost use Rattle.bus_formats.specs.Times.{no_response};
ghost use Rattle.bus_words.specs.declared.word.Word.{Word};
ghost use Rattle.bus_text.specs.Texts.{word_line};
ghost use Rattle.bus_monitor.specs.Listings.{heard_word};
ghost use Rattle.bus_monitor.specs.Messages.{message_of};
ghost use Rattle.bus_monitor.specs.Progress.{
  words_now,
  word_lines,
  messages_now,
  message_lines,
  closed_now,
  closed_in_time,
};
ghost use Rattle.bus_monitor.specs.Awaited.{awaited, closes_of, waits_of, kept_in_time};

/// A tick adds the lines of the valid words that end in it to the listing of words, A before B.
pub fn words_grow_by_those_that_end()
    ensures words { (k : ℕ) (past : List Pair) → map heard_word (valid_now k A past ++ valid_now k B past) ≡ words_now k past }
    ensures lines { (k : ℕ) (shown : Pair) (past : List Pair) →
        word_lines k (shown ∷ past) ≡ word_lines k past ++ flat_map word_line (words_now k (shown ∷ past)) }
{}

/// A tick adds the lines of the messages that close in it to the listing of messages, A before B, at every lag below the
/// time-out of an answer.
pub fn messages_grow_by_those_that_close()
    ensures { (k : ℕ) (shown : Pair) (past : List Pair) → k < no_response →
        message_lines k (shown ∷ past) ≡ message_lines k past ++ (messages_now k A (shown ∷ past) ++ messages_now k B (shown ∷ past)) }
{}

/// Of all messages before, a monitor keeps one a channel: the one that waits, until the time for its answer is over. It tells what a
/// tick closes, and is told by the tick which message waits then.
pub fn one_message_a_channel_is_kept()
    ensures ends { (k : ℕ) (x : Sample) (past : List Sample) (burst : Burst) → ended_now k (x ∷ past) ≡ Some burst →
        closed_now k (x ∷ past) ≡ closes_of k (awaited k past) burst }
    ensures waits { (k : ℕ) (x : Sample) (past : List Sample) (burst : Burst) → k < no_response → ended_now k (x ∷ past) ≡ Some burst →
        awaited k (x ∷ past) ≡ waits_of k (awaited k past) burst }
    ensures time { (k : ℕ) (x : Sample) (past : List Sample) → ended_now k (x ∷ past) ≡ None →
        closed_now k (x ∷ past) ≡ closed_in_time (length past) (runs k (x ∷ past)) (awaited k past) }
    ensures keeps { (k : ℕ) (x : Sample) (past : List Sample) → ended_now k (x ∷ past) ≡ None →
        awaited k (x ∷ past) ≡ kept_in_time (length past) (runs k (x ∷ past)) (awaited k past) }
{}

/// The first 34 slots of a burst tell which message it opens, so no more are kept.
pub fn long_bursts_open_no_message()
    ensures { (slots : List (Option Word)) (rest : ℕ) → message_of (take 34 slots) rest ≡ message_of slots rest }
{}
