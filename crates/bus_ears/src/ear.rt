//! One channel of a terminal.
//!
//! An ear keeps at most `MOST_SLOTS` words of the burst that runs, however long it runs: the longest tail that any command wants, or the
//! longest answer of a relay's transmitter, has 33 words, so that more of them mean nothing but too many.
ghost use Rattle.std.specs.Prelude.{◌≡◌, ◌≤◌, ◌<◌, ◌+◌, ◌-◌, ◌*◌, ◌^◌, ℕ, List, [], ◌∷◌, ◌++◌, length, take, Option, Some, None, is_some, Bool, true, false, if◌then◌else◌};
ghost use Rattle.bus_base.specs.declared.samples.Sample.{Sample};
ghost use Rattle.bus_line.specs.Past.{quiet_ticks, slot_now};
ghost use Rattle.bus_line.specs.Cutting.{cut_now};
ghost use Rattle.bus_line.specs.declared.cutter.TheConstants.{LAG};
ghost use Rattle.bus_model.specs.Orders as orders;
ghost use Rattle.bus_model.specs.Standing.{ignored_from};
ghost use Rattle.bus_ears.specs.Ears.{EarStands, IsHeard, heard_of, sent_by, addressed_by};
ghost use Rattle.bus_ears.specs.Steps.{EndFits, after_cut, with_slot, is_end, without_last, still_sending, sending_from};

use arrayvec::ArrayVec;
use bus_base::Sample;
use bus_formats::command_in;
use bus_line::{Cut, LAG};
use bus_words::{Command, Word};

/// The most slots that an ear keeps.
pub const MOST_SLOTS: usize = 34;

/// A terminal's ear for one channel.
#[derive(Drop)]
pub struct Ear {
    // the last command for the terminal in the burst that runs, and the slots after it, or all slots where there is none
    command: Option<Command>,
    slots: ArrayVec<Option<Word>, 34>,
    // the tick in which the last addressed slot ended
    addressed: Option<u64>,
    // the quiet ticks in a row of the terminal's own transmission, while the channel is ignored
    sending: Option<u8>,
    // the burst that ended last
    last: HeardBurst,
}

/// A burst whose end became known: its first tick, the tick after its last one, the ticks after its last whole slot, the last command for
/// the terminal in it, and the slots after that one, or all where there is none, but at most `MOST_SLOTS`.
#[derive(Drop)]
pub struct HeardBurst {
    pub first: u64,
    pub end: u64,
    pub rest: u8,
    pub command: Option<Command>,
    pub slots: ArrayVec<Option<Word>, 34>,
}

/// What a tick brought on one channel: whether a burst's end became known, and whether the channel was ignored in it.
#[derive(Clone, Copy, Debug)]
pub struct HeardTick {
    pub ended: bool,
    pub ignored: bool,
}

/// What a tick brought on one channel, with the burst whose end became known.
#[derive(Drop)]
pub struct Heard {
    pub burst: Option<HeardBurst>,
    pub ignored: bool,
}

impl Ear {
    /// An ear that heard quiet ticks alone.
    pub fn new() -> Ear
        ensures { (own n : ℕ) → EarStands LAG MOST_SLOTS own result (quiet_ticks n) None None }
    {
        Ear {
            command: None,
            slots: ArrayVec::new(),
            addressed: None,
            sending: None,
            last: HeardBurst {
                first: 0,
                end: 0,
                rest: 0,
                command: None,
                slots: ArrayVec::new(),
            },
        }
    }

    /// Hears tick `now` of the channel, what it shows and what became known with it, for the terminal with the address `own`. `begins` says
    /// that the terminal's own transmission begins on it in this tick.
    #[inline(always)]
    pub fn hear(&mut self, own: u8, now: u64, cut: Cut, sample: Sample, begins: bool) -> HeardTick
        requires { (heard : List Sample) × (sent : Option ℕ) × (addressed : Option ℕ) × EarStands LAG MOST_SLOTS own self.old heard sent addressed
            × (cut ≡ cut_now LAG (sample ∷ heard)) × (length heard ≡ now) × (now < 2 ^ 60) }
        ensures stands { (heard : List Sample) (sent addressed : Option ℕ) → EarStands LAG MOST_SLOTS own self.old heard sent addressed →
            cut ≡ cut_now LAG (sample ∷ heard) → length heard ≡ now →
            EarStands LAG MOST_SLOTS own self.new (sample ∷ heard) (sent_by now begins sent)
            (addressed_by own now (slot_now LAG (sample ∷ heard)) (ignored_from LAG heard sent) addressed) }
        ensures tells { (heard : List Sample) (sent addressed : Option ℕ) → EarStands LAG MOST_SLOTS own self.old heard sent addressed →
            cut ≡ cut_now LAG (sample ∷ heard) → length heard ≡ now →
            IsHeard LAG MOST_SLOTS own (heard_of self.new result) (sample ∷ heard) (ignored_from LAG heard sent) }
    {
        let ignored = self.sending.is_some();
        let ended = self.follow(own, now, cut, ignored);
        self.sending = sending_after(self.sending, sample, begins);
        HeardTick { ended, ignored }
    }

    /// The burst that ended last.
    pub fn last(&self) -> &HeardBurst
        ensures { result.now ≡ self.now.last }
    {
        &self.last
    }

    /// What the last tick brought, with the burst, which is moved out.
    pub fn tell(&mut self, tick: HeardTick) -> Heard
        ensures told { result ≡ heard_of self.old tick }
        ensures stands { (own : ℕ) (heard : List Sample) (sent addressed : Option ℕ) → EarStands LAG MOST_SLOTS own self.old heard sent addressed →
            EarStands LAG MOST_SLOTS own self.new heard sent addressed }
    {
        let burst = if tick.ended {
            Some(self.take_last())
        } else {
            None
        };
        Heard {
            burst,
            ignored: tick.ignored,
        }
    }

    fn take_last(&mut self) -> HeardBurst
        ensures after { self.new ≡ without_last self.old }
        ensures told { result ≡ self.old.last }
    {
        HeardBurst {
            first: self.last.first,
            end: self.last.end,
            rest: self.last.rest,
            command: self.last.command.take(),
            slots: self.last.slots.take(),
        }
    }
}

impl Ear {
    // Follows a cut in the tick `now`, and tells whether a burst's end became known by it.
    #[inline(always)]
    fn follow(&mut self, own: u8, now: u64, cut: Cut, ignored: bool) -> bool
        requires { EndFits LAG now cut }
        ensures after { self.new ≡ after_cut LAG MOST_SLOTS own now cut ignored self.old }
        ensures told { result ≡ is_end cut }
    {
        match cut {
            Cut::Nothing => false,
            Cut::Slot { word, .. } => {
                self.collect(own, now, word, ignored);
                false
            }
            Cut::Ended { slots, rest } => {
                self.finish(now, slots, rest);
                true
            }
        }
    }

    // A slot with this word ended.
    fn collect(&mut self, own: u8, now: u64, word: Option<Word>, ignored: bool)
        ensures { self.new ≡ with_slot MOST_SLOTS now ignored self.old word (orders.command_for own word) }
    {
        match command_for(own, word) {
            Some(command) => {
                self.command = Some(command);
                self.slots.clear();
                if !ignored {
                    self.addressed = Some(now);
                }
            }
            None => {
                let _kept = self.slots.try_push(word);
            }
        }
    }

    // The burst that ran has ended, with so many slots and so many ticks after them.
    fn finish(&mut self, now: u64, slots: u64, rest: u8)
        requires { EndFits LAG now (Cut.Ended slots rest) }
        ensures { self.new ≡ after_cut LAG MOST_SLOTS 0 now (Cut.Ended slots rest) false self.old }
    {
        let end = now - u64::from(LAG);
        self.last = HeardBurst {
            first: end - (40 * slots + u64::from(rest)),
            end,
            rest,
            command: self.command.take(),
            slots: self.slots.take(),
        };
    }

    /// The tick in which the last addressed slot ended, that wasn't ignored.
    #[inline(always)]
    pub fn addressed(&self) -> Option<u64>
        ensures { (own : ℕ) (heard : List Sample) (sent addressed : Option ℕ) → EarStands LAG MOST_SLOTS own self.now heard sent addressed → result ≡ addressed }
    {
        self.addressed
    }

    /// Whether the channel is ignored in the next tick.
    #[inline(always)]
    pub fn is_ignored(&self) -> bool
        ensures counts { result ≡ is_some self.now.sending }
        ensures ignores { (own : ℕ) (heard : List Sample) (sent addressed : Option ℕ) → EarStands LAG MOST_SLOTS own self.now heard sent addressed →
            result ≡ ignored_from LAG heard sent }
    {
        self.sending.is_some()
    }
}

// The command in a slot that is for the terminal.
fn command_for(own: u8, slot: Option<Word>) -> Option<Command>
    ensures { result ≡ orders.command_for own slot }
{
    let command = Command::of(command_in(slot)?);
    if is_for(own, command) {
        Some(command)
    } else {
        None
    }
}

fn is_for(own: u8, command: Command) -> bool
    ensures { result ≡ orders.is_for own command }
{
    own != 31 && (command.address() == own || command.address() == 31)
}

// The quiet ticks of the terminal's own transmission with one tick more, until it has ended.
#[inline(always)]
fn sending_after(sending: Option<u8>, sample: Sample, begins: bool) -> Option<u8>
    ensures { result ≡ still_sending LAG (sending_from begins sending) sample }
{
    let quiet = if begins { 0 } else { sending? };
    match sample {
        Sample::Quiet if quiet >= LAG => None,
        Sample::Quiet => Some(quiet + 1),
        Sample::Plus | Sample::Minus => Some(0),
    }
}
