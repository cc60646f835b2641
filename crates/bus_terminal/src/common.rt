//! What every state of a terminal has: its description, what it keeps, and an ear for each channel.
ghost use Rattle.std.specs.Prelude.{◌≡◌, ◌≤◌, ◌<◌, ◌+◌, ◌-◌, ◌∷◌, ◌^◌, ℕ, List, Option, Some, None, length, suc, ◌&&◌, ◌||◌, not};
ghost use Rattle.bus_base.specs.declared.samples.Channel.{Channel};
ghost use Rattle.bus_base.specs.declared.samples.Pair.{Pair};
ghost use Rattle.bus_base.specs.Samples.{same_channel, other_of, is_quiet, sample_on};
ghost use Rattle.bus_line.specs.declared.cutter.TheConstants.{LAG};
ghost use Rattle.bus_formats.specs.Plans.{TerminalData};
ghost use Rattle.bus_model.specs.Orders as orders;
ghost use Rattle.bus_model.specs.Standing as spec;
ghost use Rattle.bus_model.specs.Hearing.{Moment, heard_on};
ghost use Rattle.bus_model.specs.Terminal.{marked_by};
ghost use Rattle.bus_terminal.specs.Holding as holding;
ghost use Rattle.bus_model.specs.Memory.{TimedLoad, Memory as Kept};
ghost use Rattle.bus_terminal.specs.Quiet.{quiet_moments};
ghost use Rattle.bus_terminal.specs.declared.common.Common.{Common as CommonData};
ghost use Rattle.bus_terminal.specs.Stands.{CommonStands};
ghost use Rattle.bus_terminal.specs.Holding.{Listens, EarsStand, AreCuts, AreListened, listened_of};
ghost use Rattle.bus_terminal.specs.Hearing.{HasListened};
ghost use Rattle.bus_terminal.specs.Needs.{they_count};

use bus_base::{Channel, Pair, Sample};
use bus_ears::{Ear, Heard, HeardTick};
use bus_formats::TerminalPlan;
use bus_line::LAG;
use bus_orders::Memory;
use bus_receiver::Cuts;

/// A terminal's description, its memory and its two ears.
#[derive(Drop)]
pub struct Common {
    pub(crate) plan: TerminalPlan,
    pub(crate) memory: Memory,
    pub(crate) ears: Ears,
}

/// An ear for each channel.
#[derive(Drop)]
pub struct Ears {
    pub(crate) a: Ear,
    pub(crate) b: Ear,
}

/// What both ears told of a tick, and for each channel whether an order on it would be older than a command on the other.
#[derive(Clone, Copy, Debug)]
pub struct BothHeard {
    pub(crate) a: HeardTick,
    pub(crate) b: HeardTick,
    pub(crate) a_outrun: bool,
    pub(crate) b_outrun: bool,
}

/// The same, with the bursts whose ends became known.
#[derive(Drop)]
pub struct Listened {
    pub(crate) a: Heard,
    pub(crate) b: Heard,
    pub(crate) a_outrun: bool,
    pub(crate) b_outrun: bool,
}

impl Ears {
    /// Hears both channels in tick `now`, for the terminal with the address `own`, whose own transmission begins on a channel, or on none.
    #[inline(always)]
    pub(crate) fn listen(
        &mut self,
        own: u8,
        now: u64,
        heard: Pair,
        cuts: &Cuts,
        begins: Option<Channel>,
    ) -> BothHeard
        requires { (past : List Moment) × (s : spec.Standing) × EarsStand LAG own self.old past s × AreCuts LAG cuts.now heard past
            × (length past ≡ now) × (now < 2 ^ 60) }
        ensures stands { (terminal : TerminalData) (past : List Moment) (s after : spec.Standing) (moment : Moment) → terminal.address ≡ own →
            EarsStand LAG own self.old past s → AreCuts LAG cuts.now heard past → length past ≡ now → moment.shown ≡ heard → Listens LAG terminal begins past s →
            EarsStand LAG own self.new (moment ∷ past) (marked_by LAG terminal moment past s after) }
        ensures tells { (past : List Moment) (s : spec.Standing) (moment : Moment) → EarsStand LAG own self.old past s →
            AreCuts LAG cuts.now heard past → length past ≡ now → moment.shown ≡ heard →
            AreListened LAG own (listened_of self.new result) (moment ∷ past) past s }
    {
        let a_outrun = is_newer(Channel::B, self.b.addressed(), self.a.addressed());
        let b_outrun = is_newer(Channel::A, self.a.addressed(), self.b.addressed());
        let begins_a = begins_on(begins, Channel::A);
        let begins_b = begins_on(begins, Channel::B);
        let a = self.a.hear(own, now, cuts.a, heard.a, begins_a);
        let b = self.b.hear(own, now, cuts.b, heard.b, begins_b);
        BothHeard {
            a,
            b,
            a_outrun,
            b_outrun,
        }
    }

    /// What the last tick brought, with the bursts, which are moved out.
    pub(crate) fn tell(&mut self, both: BothHeard) -> Listened
        ensures told { result ≡ listened_of self.old both }
        ensures stands { (own : ℕ) (past : List Moment) (s : spec.Standing) → EarsStand LAG own self.old past s → EarsStand LAG own self.new past s }
    {
        Listened {
            a: self.a.tell(both.a),
            b: self.b.tell(both.b),
            a_outrun: both.a_outrun,
            b_outrun: both.b_outrun,
        }
    }

    /// Whether a valid command came on the other channel after an order was handled whose burst ended at `end`.
    #[inline(always)]
    pub(crate) fn supersede(&self, channel: Channel, end: u64) -> bool
        requires { end < 2 ^ 60 }
        ensures { (own : ℕ) (past : List Moment) (s : spec.Standing) → EarsStand LAG own self.now past s →
            s.channel ≡ channel → s.end ≡ end → result ≡ spec.superseded LAG s }
    {
        let other = match channel {
            Channel::A => &self.b,
            Channel::B => &self.a,
        };
        is_from(end + u64::from(LAG), other.addressed())
    }

    /// Whether a channel is ignored in the next tick.
    #[inline(always)]
    pub(crate) fn ignore(&self, channel: Channel) -> bool
        ensures { (own : ℕ) (past : List Moment) (s : spec.Standing) → EarsStand LAG own self.now past s →
            result ≡ spec.ignored_from LAG (heard_on channel past) (spec.mark_on s.sent channel) }
    {
        match channel {
            Channel::A => self.a.is_ignored(),
            Channel::B => self.b.is_ignored(),
        }
    }

    /// Whether the terminal's own transmission on a channel isn't known to be over, so that its quiet ticks are counted.
    #[inline(always)]
    pub(crate) fn count(&self) -> bool
        ensures { result ≡ they_count self.now }
    {
        either(self.a.is_ignored(), self.b.is_ignored())
    }
}

#[inline(always)]
fn begins_on(begins: Option<Channel>, channel: Channel) -> bool
    ensures { result ≡ holding.begins_on begins channel }
{
    match begins {
        Some(begun) => begun == channel,
        None => false,
    }
}

// A mark is from this tick on.
#[inline(always)]
fn is_from(tick: u64, mark: Option<u64>) -> bool
    ensures { result ≡ spec.is_from tick mark }
{
    match mark {
        Some(marked) => tick <= marked,
        None => false,
    }
}

// A mark on the other channel is newer than the one on this.
#[inline(always)]
fn is_newer(other: Channel, theirs: Option<u64>, own: Option<u64>) -> bool
    ensures { result ≡ spec.is_newer other theirs own }
{
    match (theirs, own) {
        (None, _) => false,
        (Some(_), None) => true,
        (Some(tick), Some(last)) => last < tick || (last == tick && other == Channel::A),
    }
}

impl Common {
    /// Hears both channels in tick `now`. The terminal's own transmission begins on a channel, or on none.
    #[inline(always)]
    pub(crate) fn listen(
        &mut self,
        now: u64,
        heard: Pair,
        cuts: &Cuts,
        begins: Option<Channel>,
    ) -> BothHeard
        requires { (terminal : TerminalData) × (loads : List TimedLoad) × (past : List Moment) × (s : spec.Standing)
            × CommonStands LAG terminal loads self.old past s × AreCuts LAG cuts.now heard past × (length past ≡ now) × (now < 2 ^ 60) }
        ensures listened { (terminal : TerminalData) (loads : List TimedLoad) (past : List Moment) (s : spec.Standing) (moment : Moment) →
            CommonStands LAG terminal loads self.old past s → AreCuts LAG cuts.now heard past → length past ≡ now → moment.shown ≡ heard → Listens LAG terminal begins past s →
            HasListened LAG terminal self.old self.new past moment s }
        ensures tells { (terminal : TerminalData) (loads : List TimedLoad) (past : List Moment) (s : spec.Standing) (moment : Moment) →
            CommonStands LAG terminal loads self.old past s → AreCuts LAG cuts.now heard past → length past ≡ now → moment.shown ≡ heard →
            AreListened LAG terminal.address (listened_of self.new.ears result) (moment ∷ past) past s }
    {
        let own = own_address(&self.plan);
        self.ears.listen(own, now, heard, cuts, begins)
    }

    /// What the last tick brought, with the bursts, which are moved out.
    pub(crate) fn tell(&mut self, both: BothHeard) -> Listened
        ensures told { result ≡ listened_of self.old.ears both }
        ensures listened { (terminal : TerminalData) (before : CommonData) (past : List Moment) (s : spec.Standing) (moment : Moment) →
            HasListened LAG terminal before self.old past moment s → HasListened LAG terminal before self.new past moment s }
    {
        self.ears.tell(both)
    }
}

#[inline(always)]
fn own_address(plan: &TerminalPlan) -> u8
    ensures { result ≡ plan.now.address }
{
    plan.address
}

#[inline(always)]
pub(crate) fn either(first: bool, second: bool) -> bool
    ensures { result ≡ (first || second) }
{
    first || second
}

/// Whether a channel isn't quiet.
#[inline(always)]
pub(crate) fn is_heard(heard: Pair, channel: Channel) -> bool
    ensures { result ≡ not (is_quiet (sample_on heard channel)) }
{
    match heard.on(channel) {
        Sample::Quiet => false,
        Sample::Plus | Sample::Minus => true,
    }
}

impl Ears {
    /// Ears that heard quiet ticks alone.
    pub(crate) fn new() -> Ears
        ensures { (own n : ℕ) (memory : Kept) → EarsStand LAG own result (quiet_moments n) (spec.at_rest memory) }
    {
        Ears {
            a: Ear::new(),
            b: Ear::new(),
        }
    }
}
