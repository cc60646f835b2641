//! What a monitor hears of the bus.
ghost use Rattle.std.specs.Prelude.{◌≡◌, ◌≤◌, ◌<◌, ◌^◌, ◌+◌, suc, ℕ, List, [], ◌∷◌, ◌++◌, length, option_to_list, vec_len, vec_capacity, if◌then◌else◌};
ghost use Rattle.bus_base.specs.declared.samples.Channel.TheVariants.{A, B};
ghost use Rattle.bus_base.specs.declared.samples.Pair.{Pair};
ghost use Rattle.bus_line.specs.declared.cutter.TheConstants.{LAG};
ghost use Rattle.bus_monitor.specs.Progress.{heard_now};
ghost use Rattle.bus_receiver.specs.Moments.{moment_of};
ghost use Rattle.bus_run.specs.BurstListers.{BurstListerStands, burst_on};
ghost use Rattle.bus_run.specs.Monitors.{MonitorStands, ListsStand};

use crate::burst_lister::BurstLister;
use crate::room::push_found;
use bus_base::Channel;
use bus_formats::{Heard, HeardBurst};
use bus_monitor::word_in;
use bus_receiver::Moment;

/// A monitor (MIL-STD-1553B 4.4.4): the valid words and the bursts of both channels so far, and for how many ticks both have been quiet.
#[derive(Drop)]
pub struct Monitor {
    burst_lister: BurstLister,
    words: Vec<Heard>,
    bursts: Vec<HeardBurst>,
    quiet: u64,
}

impl Monitor {
    /// A monitor that heard nothing, with room for words and bursts.
    pub fn new(words: Vec<Heard>, bursts: Vec<HeardBurst>) -> Monitor
        requires words { words.items ≡ [] }
        requires bursts { bursts.items ≡ [] }
        ensures { (most_words most_bursts : ℕ) → most_words + 2 ≤ vec_capacity words → most_bursts + 2 ≤ vec_capacity bursts →
            MonitorStands most_words most_bursts result [] }
    {
        Monitor {
            burst_lister: BurstLister::new(),
            words,
            bursts,
            quiet: 0,
        }
    }

    /// Hears the newest tick by what a receiver tells of it. There is room for what it may find.
    #[inline(always)]
    pub fn hear(&mut self, moment: &Moment)
        requires { (most_words : ℕ) × (most_bursts : ℕ) × (past : List Pair) × MonitorStands most_words most_bursts self.old past
            × (moment.now ≡ moment_of LAG moment.now.shown past) × (length past < 2 ^ 32) × (vec_len self.old.words ≤ most_words)
            × (vec_len self.old.bursts ≤ most_bursts) }
        ensures { (most_words most_bursts : ℕ) (past : List Pair) → MonitorStands most_words most_bursts self.old past →
            moment.now ≡ moment_of LAG moment.now.shown past → MonitorStands most_words most_bursts self.new (moment.now.shown ∷ past) }
    {
        self.quiet = moment.quiet();
        if !moment.cuts().are_nothing() {
            self.list(moment);
        }
    }

    // Keeps the words and the bursts that ended.
    fn list(&mut self, moment: &Moment)
        requires { (most_words : ℕ) × (most_bursts : ℕ) × (past : List Pair) × ListsStand most_words most_bursts self.old past
            × (moment.now ≡ moment_of LAG moment.now.shown past) × (length past < 2 ^ 32) × (vec_len self.old.words ≤ most_words)
            × (vec_len self.old.bursts ≤ most_bursts) }
        ensures stands { (most_words most_bursts : ℕ) (past : List Pair) → ListsStand most_words most_bursts self.old past →
            moment.now ≡ moment_of LAG moment.now.shown past → ListsStand most_words most_bursts self.new (moment.now.shown ∷ past) }
        ensures quiet { self.new.quiet ≡ self.old.quiet }
    {
        self.list_words(moment);
        self.list_bursts(moment);
    }

    fn list_words(&mut self, moment: &Moment)
        requires room { vec_len self.old.words + 2 ≤ vec_capacity self.old.words }
        ensures words { (past : List Pair) → moment.now ≡ moment_of LAG moment.now.shown past →
            self.new.words.items
            ≡ (self.old.words.items ++ option_to_list (heard_now LAG A (moment.now.shown ∷ past))) ++ option_to_list (heard_now LAG B (moment.now.shown ∷ past)) }
        ensures room { vec_capacity self.new.words ≡ vec_capacity self.old.words }
        ensures burst_lister { self.new.burst_lister ≡ self.old.burst_lister }
        ensures bursts { self.new.bursts ≡ self.old.bursts }
        ensures quiet { self.new.quiet ≡ self.old.quiet }
    {
        let tick = moment.tick();
        push_found(
            &mut self.words,
            word_in(moment.cut(Channel::A), Channel::A, tick.0),
        );
        push_found(
            &mut self.words,
            word_in(moment.cut(Channel::B), Channel::B, tick.0),
        );
    }

    fn list_bursts(&mut self, moment: &Moment)
        requires stands { (past : List Pair) × BurstListerStands LAG self.old.burst_lister past × (moment.now ≡ moment_of LAG moment.now.shown past)
            × (length past < 2 ^ 32) }
        requires room { vec_len self.old.bursts + 2 ≤ vec_capacity self.old.bursts }
        ensures stands { (past : List Pair) → BurstListerStands LAG self.old.burst_lister past → moment.now ≡ moment_of LAG moment.now.shown past →
            BurstListerStands LAG self.new.burst_lister (moment.now.shown ∷ past) }
        ensures bursts { (past : List Pair) → BurstListerStands LAG self.old.burst_lister past → moment.now ≡ moment_of LAG moment.now.shown past →
            self.new.bursts.items
            ≡ (self.old.bursts.items ++ option_to_list (burst_on LAG A (moment.now.shown ∷ past))) ++ option_to_list (burst_on LAG B (moment.now.shown ∷ past)) }
        ensures room { vec_capacity self.new.bursts ≡ vec_capacity self.old.bursts }
        ensures words { self.new.words ≡ self.old.words }
        ensures quiet { self.new.quiet ≡ self.old.quiet }
    {
        let [a, b] = self.burst_lister.hear(moment);
        push_found(&mut self.bursts, a);
        push_found(&mut self.bursts, b);
    }

    /// The lists of the valid words and of the bursts.
    pub fn into_lists(self) -> (Vec<Heard>, Vec<HeardBurst>)
        ensures words { result.0.items ≡ self.words.items }
        ensures bursts { result.1.items ≡ self.bursts.items }
    {
        (self.words, self.bursts)
    }

    /// For how many ticks up to now both channels have been quiet.
    pub fn quiet(&self) -> u64
        ensures { result ≡ self.now.quiet }
    {
        self.quiet
    }

    /// The valid words so far, in the order of their last ticks, A before B.
    pub fn words(&self) -> &[Heard]
        ensures { result.now ≡ self.now.words.items }
    {
        &self.words
    }

    /// The bursts so far, in the order of their last ticks, A before B.
    pub fn bursts(&self) -> &[HeardBurst]
        ensures { result.now ≡ self.now.bursts.items }
    {
        &self.bursts
    }
}
