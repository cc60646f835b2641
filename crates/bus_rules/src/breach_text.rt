//! The lines of breaches. Each call says how many it added.
ghost use Rattle.std.specs.Prelude.{◌≡◌, ◌≤◌, ◌+◌, ◌-◌, ◌||◌, ◌++◌, length, nat_lt};
ghost use Rattle.bus_line.specs.declared.cutter.TheConstants.{LAG};
ghost use Rattle.bus_rules.specs.Breaches.{breach_where, longest_response, longest_burst};
ghost use Rattle.bus_rules.specs.JudgeTexts.{rule_text, breach_line, verdict_line};
ghost use Rattle.bus_rules.specs.Stands.{Adds, begun_by, ended_by, taken_by, open_by};

use crate::breach::{Breach, Rule};
use bus_base::{Channel, Tick};
use bus_line::LAG;
use bus_monitor::{BurstEnd, Page, Taken};

/// The most dead ticks before an answer: 12 microseconds, 24 ticks, of which four lie in the words beside them (MIL-STD-1553B 4.3.3.8).
pub(crate) const LONGEST_RESPONSE: u64 = 20;

/// The most ticks of a burst: 800 microseconds, the fail-safe time of a terminal (MIL-STD-1553B 4.4.1.3).
pub(crate) const LONGEST_BURST: u64 = 1600;

/// Adds the line of a breach on this channel that names this tick, where the rule is broken.
pub(crate) fn add_where(
    broken: bool,
    channel: Channel,
    rule: Rule,
    tick: u64,
    text: &mut Page,
) -> u64
    requires { length text.old ≤ 4000 }
    ensures adds { Adds text.old text.new result (breach_where broken channel rule tick) }
    ensures few { result ≤ 1 }
    ensures grows { length text.new ≤ length text.old + 40 }
{
    if !broken {
        return 0;
    }
    add_breach(
        Breach {
            tick: Tick(tick),
            channel,
            rule,
        },
        text,
    );
    1
}

fn add_breach(breach: Breach, text: &mut Page)
    requires { length text.old ≤ 4000 }
    ensures text { text.new ≡ text.old ++ breach_line breach }
    ensures grows { length text.new ≤ length text.old + 40 }
{
    text.text("breach");
    text.number(breach.tick.0);
    text.channel(breach.channel);
    add_rule(breach.rule, text);
    text.end();
}

fn add_rule(rule: Rule, text: &mut Page)
    requires { length text.old ≤ 4050 }
    ensures text { text.new ≡ text.old ++ rule_text rule }
    ensures grows { length text.new ≤ length text.old + 9 }
{
    match rule {
        Rule::Overlap => text.text(" overlap"),
        Rule::Word => text.text(" word"),
        Rule::Long => text.text(" long"),
        Rule::Gap => text.text(" gap"),
        Rule::Response => text.text(" response"),
        Rule::Unknown => text.text(" unknown"),
        Rule::Reply => text.text(" reply"),
        Rule::Open => text.text(" open"),
    }
}

/// Adds what a burst breaks that begins in tick `now`: an answer to a message that waits from a tick on may come late; another burst may come too early, where
/// the other channel was busy.
pub(crate) fn add_begun(
    channel: Channel,
    now: u64,
    from: Option<u64>,
    busy: bool,
    text: &mut Page,
) -> u64
    requires { length text.old ≤ 4000 }
    ensures adds { Adds text.old text.new result (begun_by channel now busy from) }
    ensures few { result ≤ 1 }
    ensures grows { length text.new ≤ length text.old + 40 }
{
    match from {
        None => add_where(busy, channel, Rule::Gap, now, text),
        Some(from) => add_where(is_late(now, from), channel, Rule::Response, now, text),
    }
}

// Whether an answer that begins in tick `now` begins too late after the burst before, whose end is tick `from`.
fn is_late(now: u64, from: u64) -> bool
    ensures { result ≡ nat_lt longest_response (now - from) }
{
    now.saturating_sub(from) > LONGEST_RESPONSE
}

/// Adds what a burst breaks whose end is known in tick `now`.
pub(crate) fn add_ended(
    channel: Channel,
    now: u64,
    end: BurstEnd,
    damaged: bool,
    text: &mut Page,
) -> u64
    requires { length text.old ≤ 3800 }
    ensures adds { Adds text.old text.new result (ended_by channel now end damaged) }
    ensures few { result ≤ 3 }
    ensures grows { length text.new ≤ length text.old + 120 }
{
    let word = add_where(
        is_damaged(end.rest, damaged),
        channel,
        Rule::Word,
        end.first,
        text,
    );
    let long = add_where(
        is_long(now, end.first),
        channel,
        Rule::Long,
        end.first,
        text,
    );
    let taken = add_taken(channel, end, text);
    word + (long + taken)
}

// Whether a burst from this tick on, whose end is known in tick `now`, was too long.
fn is_long(now: u64, first: u64) -> bool
    ensures { result ≡ nat_lt longest_burst ((now - LAG) - first) }
{
    now.saturating_sub(u64::from(LAG)).saturating_sub(first) > LONGEST_BURST
}

fn is_damaged(rest: u8, damaged: bool) -> bool
    ensures { result ≡ (nat_lt 0 rest || damaged) }
{
    rest > 0 || damaged
}

fn add_taken(channel: Channel, end: BurstEnd, text: &mut Page) -> u64
    requires { length text.old ≤ 4000 }
    ensures adds { Adds text.old text.new result (taken_by channel end.first end.taken) }
    ensures few { result ≤ 1 }
    ensures grows { length text.new ≤ length text.old + 40 }
{
    match end.taken {
        Taken::Known => 0,
        Taken::Unknown => add_where(true, channel, Rule::Unknown, end.first, text),
        Taken::BadReply => add_where(true, channel, Rule::Reply, end.first, text),
    }
}

/// Adds the breach of the burst that runs at the end, by its first tick, if one does.
pub(crate) fn add_open(channel: Channel, running: Option<u64>, text: &mut Page) -> u64
    requires { length text.old ≤ 4000 }
    ensures adds { Adds text.old text.new result (open_by channel running) }
    ensures few { result ≤ 1 }
    ensures grows { length text.new ≤ length text.old + 40 }
{
    match running {
        None => 0,
        Some(first) => add_where(true, channel, Rule::Open, first, text),
    }
}

/// Adds the number of breaches, or that there is none.
pub(crate) fn add_verdict(breaches: u64, text: &mut Page)
    requires { length text.old ≤ 4000 }
    ensures text { text.new ≡ text.old ++ verdict_line breaches }
    ensures grows { length text.new ≤ length text.old + 40 }
{
    if breaches == 0 {
        text.text("clean");
    } else {
        text.text("breaches");
        text.number(breaches);
    }
    text.end();
}
