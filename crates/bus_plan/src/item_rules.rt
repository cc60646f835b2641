//! Where a plan breaks the rules on its stations' addresses and on its items.
ghost use Rattle.std.specs.Prelude.{◌≡◌, ◌<◌, ◌^◌, length};
ghost use Rattle.bus_plan.specs.ItemRules as spec;

use crate::place::Place;
use bus_formats::{FramePlan, Item, Kind, Plan, StationPlan, form_of};

/// A rule on items.
#[derive(Clone, Copy)]
pub enum ItemRule {
    NoSuchStation,
    SelfAddressed,
    BadForm,
    BadAbandon,
}

fn has_address(address: u8, stations: &[StationPlan]) -> bool
    ensures { result ≡ spec.has_address address stations.now }
{
    for station in stations {
        if station.terminal.address == address {
            return true;
        }
    }
    false
}

/// The first station whose address an earlier one has.
pub fn same_address(stations: &[StationPlan]) -> Option<Place>
    ensures { result ≡ spec.same_address stations.now 0 stations.now }
{
    for (i, station) in stations.iter().enumerate() {
        if has_address(station.terminal.address, &stations[..i]) {
            return Some(Place::root().with("station.").with_number(i as u64 + 1));
        }
    }
    None
}

/// The start, where no station has it.
pub fn start_missing(plan: &Plan) -> Option<Place>
    ensures { result ≡ spec.start_missing plan.now }
{
    if has_address(plan.start, plan.stations.as_slice()) {
        None
    } else {
        Some(Place::root().with("start"))
    }
}

// The terminal to which a message goes, or from which alone it comes.
fn terminal_of(kind: &Kind) -> u8
    ensures { result ≡ spec.terminal_of kind.now }
{
    match kind {
        Kind::Receive { to, .. } => *to,
        Kind::Transmit { from, .. } => *from,
        Kind::Relay { to, .. } => *to,
        Kind::Mode { to, .. } => *to,
    }
}

// The terminal from which a relay comes.
fn source_of(kind: &Kind) -> Option<u8>
    ensures { result ≡ spec.source_of kind.now }
{
    match kind {
        Kind::Relay { from, .. } => Some(*from),
        _ => None,
    }
}

fn is_absent(address: u8, all: &[StationPlan]) -> bool
    ensures { result ≡ spec.is_absent all.now address }
{
    address != 31 && !has_address(address, all)
}

fn is_own(address: u8, own: &StationPlan) -> bool
    ensures { result ≡ spec.is_own own.now address }
{
    address != 31 && address == own.terminal.address
}

fn names_absent(kind: &Kind, all: &[StationPlan]) -> bool
    ensures { result ≡ spec.names_absent all.now kind.now }
{
    if is_absent(terminal_of(kind), all) {
        return true;
    }
    match source_of(kind) {
        Some(source) => is_absent(source, all),
        None => false,
    }
}

fn names_own(kind: &Kind, own: &StationPlan) -> bool
    ensures { result ≡ spec.names_own own.now kind.now }
{
    if is_own(terminal_of(kind), own) {
        return true;
    }
    match source_of(kind) {
        Some(source) => is_own(source, own) || source == terminal_of(kind),
        None => false,
    }
}

fn is_transmit(kind: &Kind) -> bool
    ensures { result ≡ spec.is_transmit kind.now }
{
    matches!(kind, Kind::Transmit { .. })
}

// Whether an item that abandons is a transmit item, and what follows it in its frame goes to the same terminal and is no relay.
fn may_abandon(item: &Item, rest: &[Item]) -> bool
    ensures { result ≡ spec.may_abandon item.now rest.now }
{
    match rest {
        [] => false,
        [next, ..] => may_cut_short(&item.kind, &next.kind),
    }
}

fn may_cut_short(kind: &Kind, next: &Kind) -> bool
    ensures { result ≡ spec.may_cut_short kind.now next.now }
{
    is_transmit(kind) && source_of(next).is_none() && terminal_of(next) == terminal_of(kind)
}

fn breaks(
    rule: ItemRule,
    all: &[StationPlan],
    own: &StationPlan,
    item: &Item,
    rest: &[Item],
) -> bool
    ensures { result ≡ spec.breaks rule all.now own.now item.now rest.now }
{
    match rule {
        ItemRule::NoSuchStation => names_absent(&item.kind, all),
        ItemRule::SelfAddressed => names_own(&item.kind, own),
        ItemRule::BadForm => form_of(&item.kind).is_none(),
        ItemRule::BadAbandon => item.abandon.is_some() && !may_abandon(item, rest),
    }
}

fn in_items(
    rule: ItemRule,
    all: &[StationPlan],
    own: &StationPlan,
    path: &Place,
    items: &[Item],
) -> Option<Place>
    requires { length items.now < 2 ^ 63 }
    ensures { result ≡ spec.in_items rule all.now own.now path.now 1 items.now }
{
    for (i, item) in items.iter().enumerate() {
        if breaks(rule, all, own, item, &items[i + 1..]) {
            return Some(path.with_number(i as u64 + 1));
        }
    }
    None
}

fn in_frames(
    rule: ItemRule,
    all: &[StationPlan],
    own: &StationPlan,
    path: &Place,
    frames: &[FramePlan],
) -> Option<Place>
    requires { length frames.now < 2 ^ 63 }
    ensures { result ≡ spec.in_frames rule all.now own.now path.now 1 frames.now }
{
    for (i, frame) in frames.iter().enumerate() {
        let below = path.with_number(i as u64 + 1).with(".item.");
        if let Some(place) = in_items(rule, all, own, &below, frame.items.as_slice()) {
            return Some(place);
        }
    }
    None
}

/// The first item that breaks the rule.
pub fn in_stations(rule: ItemRule, stations: &[StationPlan]) -> Option<Place>
    requires { length stations.now < 2 ^ 63 }
    ensures { result ≡ spec.in_stations rule stations.now 1 stations.now }
{
    for (i, station) in stations.iter().enumerate() {
        let path = Place::root()
            .with("station.")
            .with_number(i as u64 + 1)
            .with(".frame.");
        if let Some(place) = in_frames(rule, stations, station, &path, station.frames.as_slice()) {
            return Some(place);
        }
    }
    None
}
