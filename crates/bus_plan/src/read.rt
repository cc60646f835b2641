//! Reading a plan: the rules in their order, each over the whole document before the next.
ghost use Rattle.std.specs.Prelude.{◌≡◌, Ok, IfOk, IfErr, length};
ghost use Rattle.toml.specs.View.{table_view};
ghost use Rattle.bus_formats.specs.Accepted.{IsAccepted};
ghost use Rattle.bus_plan.specs.PlanOf as spec;
ghost use Rattle.bus_plan.specs.Place.{or_place};
ghost use Rattle.bus_plan.specs.ItemRules as items;
ghost use Rattle.bus_plan.specs.declared.item_rules.ItemRule.TheVariants.{NoSuchStation};

use crate::decode_faults::plan;
use crate::document::{DocumentError, number_at, read_document};
use crate::fault_rules::{same_fault, undetectable};
use crate::item_rules::{ItemRule, in_stations, same_address, start_missing};
use crate::limits::too_many;
use crate::place::Place;
use crate::ranges::{CONTROLLER, SECOND_VERSION};
use crate::refusal::{PlanError, PlanRefusal};
use crate::rows::{Head, TableKind};
use crate::rules::Rule;
use crate::walk::in_kind;
use bus_formats::Plan;
use std::alloc::{AllocError, Global};
use toml::Table;

// The head of a document: whether its version is 2, and whether the address 31 starts.
fn head_of(table: &Table) -> Head
    ensures { result ≡ spec.head_of (table_view table.now) }
{
    Head {
        is_second: number_at(table, "version", SECOND_VERSION).is_some(),
        last_starts: number_at(table, "start", CONTROLLER).is_some(),
    }
}

// The first place of a document that breaks a rule on keys, kinds and ranges.
#[tactic(auto, unfolding(crate::specs::PlanOf::in_document))]
fn in_document(rule: Rule, head: Head, table: &Table) -> Option<Place>
    ensures { result ≡ spec.in_document rule head (table_view table.now) }
{
    in_kind(rule, head, TableKind::Root, &Place::root(), table)
}

// The first rule on keys, kinds and ranges that is broken, with its first place.
fn document_refusal(head: Head, table: &Table) -> Option<PlanRefusal>
    ensures { result ≡ spec.document_refusal head (table_view table.now) }
{
    if let Some(place) = in_document(Rule::UnknownKey, head, table) {
        return Some(PlanRefusal::UnknownKey(place));
    }
    if let Some(place) = in_document(Rule::Missing, head, table) {
        return Some(PlanRefusal::Missing(place));
    }
    if let Some(place) = in_document(Rule::WrongKind, head, table) {
        return Some(PlanRefusal::WrongKind(place));
    }
    if let Some(place) = in_document(Rule::OutOfRange, head, table) {
        return Some(PlanRefusal::OutOfRange(place));
    }
    None
}

fn no_such_station(plan: &Plan) -> Option<Place>
    ensures { result ≡ or_place (items.start_missing plan.now) (items.in_stations NoSuchStation plan.now.stations 1 plan.now.stations) }
{
    match start_missing(plan) {
        Some(place) => Some(place),
        None => in_stations(ItemRule::NoSuchStation, plan.stations.as_slice()),
    }
}

// The first rule on stations and items that is broken, with its first place.
fn item_refusal(plan: &Plan) -> Option<PlanRefusal>
    ensures { result ≡ spec.item_refusal plan.now }
{
    let stations = plan.stations.as_slice();
    if let Some(place) = same_address(stations) {
        return Some(PlanRefusal::SameAddress(place));
    }
    if let Some(place) = no_such_station(plan) {
        return Some(PlanRefusal::NoSuchStation(place));
    }
    if let Some(place) = in_stations(ItemRule::SelfAddressed, stations) {
        return Some(PlanRefusal::SelfAddressed(place));
    }
    if let Some(place) = in_stations(ItemRule::BadForm, stations) {
        return Some(PlanRefusal::BadForm(place));
    }
    if let Some(place) = in_stations(ItemRule::BadAbandon, stations) {
        return Some(PlanRefusal::BadAbandon(place));
    }
    None
}

// The first rule on faults and on amounts that is broken, with its first place.
fn fault_refusal(
    alloc: Global,
    head: Head,
    table: &Table,
    plan: &Plan,
) -> Result<Option<PlanRefusal>, AllocError>
    ensures { IfOk result (λ refusal. refusal ≡ spec.fault_refusal head (table_view table.now) plan.now) }
{
    if let Some(place) = undetectable(table) {
        return Ok(Some(PlanRefusal::Undetectable(place)));
    }
    if let Some(place) = same_fault(alloc, plan.faults.as_slice())? {
        return Ok(Some(PlanRefusal::SameFault(place)));
    }
    if let Some(place) = too_many(head, plan) {
        return Ok(Some(PlanRefusal::TooMany(place)));
    }
    Ok(None)
}

// The plan of a document, or the refusal.
fn plan_of(alloc: Global, table: &Table) -> Result<Plan, PlanError>
    ensures ok { IfOk result (λ p. spec.judged_document (table_view table.now) ≡ Ok p) }
    ensures refused { IfErr result (spec.IsRefusalOf (spec.judged_document (table_view table.now))) }
{
    let head = head_of(table);
    if let Some(refusal) = document_refusal(head, table) {
        return Err(PlanError::Refused(refusal));
    }
    let plan = match plan(alloc, head, table) {
        Ok(plan) => plan,
        Err(error) => return Err(PlanError::Memory(error)),
    };
    if let Some(refusal) = item_refusal(&plan) {
        return Err(PlanError::Refused(refusal));
    }
    match fault_refusal(alloc, head, table, &plan) {
        Ok(Some(refusal)) => Err(PlanError::Refused(refusal)),
        Ok(None) => Ok(plan),
        Err(error) => Err(PlanError::Memory(error)),
    }
}

// The plan that a text describes, or the refusal.
#[tactic(auto, unfolding(crate::specs::PlanOf::plan_of_bytes))]
fn plan_of_text(alloc: Global, text: &[u8]) -> Result<Plan, PlanError>
    ensures ok { IfOk result (λ p. spec.plan_of_bytes text.now ≡ Ok p) }
    ensures refused { IfErr result (spec.IsRefusalOf (spec.plan_of_bytes text.now)) }
{
    match read_document(alloc, text) {
        Ok(table) => plan_of(alloc, &table),
        Err(DocumentError::NotToml) => Err(PlanError::Refused(PlanRefusal::NotToml)),
        Err(DocumentError::Memory) => Err(PlanError::Memory(AllocError)),
    }
}

/// The plan that a text describes (a TOML document in UTF-8), or the least numbered rule that it breaks with the first place that
/// breaks it. Every plan that is read is accepted: its numbers lie in their ranges, and it keeps the rules on whole plans.
///
/// The time grows with the text's length, but for the search for equal faults, which grows with their number times its logarithm.
/// Want of memory is an answer of its own, whatever the text is.
pub fn read_plan(alloc: Global, text: &[u8]) -> Result<Plan, PlanError>
    ensures ok { IfOk result (λ p. spec.plan_of_bytes text.now ≡ Ok p) }
    ensures accepted { IfOk result IsAccepted }
    ensures refused { IfErr result (spec.IsRefusalOf (spec.plan_of_bytes text.now)) }
{
    plan_of_text(alloc, text)
}
