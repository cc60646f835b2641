//! What is told of a schedule.

/// In which reckoning each next frame starts in time.
#[derive(Clone, Copy, Debug, PartialEq, Eq)]
pub enum Verdict {
    /// In the long one: whatever faults a plan may name.
    Long,
    /// In the short one alone: whatever faults but those that add words.
    Short,
    /// In neither.
    Over,
}

/// The place of an item, counted from 1.
#[derive(Clone, Copy, Debug, PartialEq, Eq)]
pub struct OfferPlace {
    /// Its station in the plan, 1 to 32.
    pub station: u32,
    /// Its frame, 1 to 1,024.
    pub frame: u32,
    /// The item in its frame, 1 to 4,096.
    pub item: u32,
}
