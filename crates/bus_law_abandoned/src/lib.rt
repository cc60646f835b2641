//! Messages whose answer is abandoned (superseding valid commands, MIL-STD-1553B 4.4.3.2; that a controller abandons answers is the project's own). Laws
//! alone, each the contract of an empty function. Proved at lag 3: a message that began, whatever was shown beside its command, and whose first answer the
//! message table abandons, ends in that tick of the world; its blocks, its bursts, its attempt and the stations after it are the table's; each of its ticks is
//! in order; the answer runs on; and the next message of the station in control starts in the tick after, on the other channel.
#![tactic(auto)]

pub mod abandoning;

pub use abandoning::{an_answer_is_abandoned, an_answer_is_abandoned_or_not};
