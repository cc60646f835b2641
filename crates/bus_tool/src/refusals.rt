//! The lines with which an input is refused.

ghost use Rattle.std.specs.Prelude.{◌≡◌, ◌≤◌, length};
ghost use Rattle.bus_text.specs.Texts as texts;
ghost use Rattle.bus_tool.specs.Due as spec;
ghost use Rattle.bus_tool.specs.EndsBridge as bridge;

use bus_bridge::BridgeRefusal;
use bus_load::OfferPlace;
use bus_plan::PlanRefusal;
use bus_text::Line;

// A line that begins so, and goes on with a plan's refusal: the rule's number, its name, and the first place that breaks it.
macro_rules! plan_line {
    ($beginning:literal, $refusal:expr) => {{
        let mut line = Line::new();
        line.text($beginning);
        line.number(u64::from($refusal.number()));
        line.text(" ");
        line.text($refusal.name());
        if let Some(place) = $refusal.place() {
            line.text(" ");
            line.text(place.as_str());
        }
        line.end();
        line
    }};
}

/// The line of a refused plan.
pub fn refusal_line(refusal: &PlanRefusal) -> Line
    ensures { result ≡ spec.refusal_line refusal.now }
{
    plan_line!("plan refused", refusal)
}

/// The line of a plan of which the station that starts offers control: at the first item that does.
pub fn offer_line(place: OfferPlace) -> Line
    ensures { result ≡ spec.offer_line place }
{
    let mut line = Line::new();
    line.text("load refused 1 offer station.");
    line.decimal(u64::from(place.station));
    line.text(".frame.");
    line.decimal(u64::from(place.frame));
    line.text(".item.");
    line.decimal(u64::from(place.item));
    line.end();
    line
}

/// The line of an input of which no bridge is made.
pub fn bridge_line(refusal: &BridgeRefusal) -> Line
    ensures { result ≡ bridge.bridge_line refusal.now }
{
    match refusal {
        BridgeRefusal::TooLong => line_of("input refused too-long"),
        BridgeRefusal::Header => line_of("bridge refused 1 header"),
        BridgeRefusal::First(refusal) => first_line(refusal),
        BridgeRefusal::Second(refusal) => second_line(refusal),
        BridgeRefusal::AddressFirst => line_of("bridge refused 4 address-first"),
        BridgeRefusal::AddressSecond => line_of("bridge refused 5 address-second"),
    }
}

fn line_of(text: &str) -> Line
    requires { length text.now ≤ 40 }
    ensures { result ≡ texts.line text.now }
{
    let mut line = Line::new();
    line.text(text);
    line.end();
    line
}

// The line of a first plan that is refused.
fn first_line(refusal: &PlanRefusal) -> Line
    ensures { result ≡ bridge.first_line refusal.now }
{
    plan_line!("bridge refused 2 first", refusal)
}

// The line of a second plan that is refused.
fn second_line(refusal: &PlanRefusal) -> Line
    ensures { result ≡ bridge.second_line refusal.now }
{
    plan_line!("bridge refused 3 second", refusal)
}
