//! What a script can answer, as JSON: its states, the turns between them and the outcomes.
ghost use Rattle.std.specs.Prelude.{◌≡◌, codes, map, OnOk, IfErr, option_map};
ghost use Rattle.std.specs.List.{list_all};
ghost use Rattle.serde_json.specs.Find.{get, as_array};
ghost use Rattle.serde_json.specs.View.{view};
ghost use Rattle.poolview.specs.Graphs.{list_of, items_at, is_below, is_between, is_text, has, has_all, count_at, is_turn, is_state, are_states, is_outcome, has_states, lanes_at, is_graph, AreGraph, RefusesGraph};

use serde_json::Value;
use std::alloc::Global;

/// Why some bytes aren't shown as a graph.
#[derive(Clone, Copy)]
pub(crate) enum GraphFault {
    /// They are none.
    None,
    /// Memory was refused.
    Memory,
}

/// This field of a value.
fn field<'a>(value: &'a Value, name: &str) -> Option<&'a Value>
    ensures { option_map (λ v. view v.now) result ≡ get name.now (view value.now) }
{
    value.get(name)
}

/// The items of a value that is an array.
fn items_of(value: &Value) -> Option<&[Value]>
    ensures { option_map (λ vs. map view vs.now) result ≡ option_map list_of (as_array (view value.now)) }
{
    match value.as_array() {
        Some(items) => Some(items.as_slice()),
        None => None,
    }
}

/// The items of this field of a value, where it is an array.
fn items_at<'a>(value: &'a Value, name: &str) -> Option<&'a [Value]>
    ensures { option_map (λ vs. map view vs.now) result ≡ items_at name.now (view value.now) }
{
    match field(value, name) {
        Some(field) => items_of(field),
        None => None,
    }
}

/// How many items this field of a value has.
fn count_at(value: &Value, name: &str) -> usize
    ensures { result ≡ count_at name.now (view value.now) }
{
    match items_at(value, name) {
        Some(items) => items.len(),
        None => 0,
    }
}

/// Whether a value is a whole number below this one.
fn is_below(value: &Value, end: usize) -> bool
    ensures { result ≡ is_below end (view value.now) }
{
    match value.as_u64() {
        Some(number) => number < end as u64,
        None => false,
    }
}

/// Whether a value is a whole number above this one, and below that one.
fn is_between(value: &Value, above: usize, end: usize) -> bool
    ensures { result ≡ is_between above end (view value.now) }
{
    match value.as_u64() {
        Some(number) => (above as u64) < number && number < end as u64,
        None => false,
    }
}

/// Whether the lane of a turn is one of so many.
fn has_lane(value: &Value, lanes: usize) -> bool
    ensures { result ≡ has (is_below lanes) (codes "lane") (view value.now) }
{
    match field(value, "lane") {
        Some(field) => is_below(field, lanes),
        None => false,
    }
}

/// Whether a turn leads from the state of this number to a later one of so many.
fn leads_on(value: &Value, number: usize, states: usize) -> bool
    ensures { result ≡ has (is_between number states) (codes "to") (view value.now) }
{
    match field(value, "to") {
        Some(field) => is_between(field, number, states),
        None => false,
    }
}

/// Whether a value is a text.
fn is_text(value: &Value) -> bool
    ensures { result ≡ is_text (view value.now) }
{
    value.as_str().is_some()
}

/// Whether this field of a value is a text.
fn has_text(value: &Value, name: &str) -> bool
    ensures { result ≡ has is_text name.now (view value.now) }
{
    match field(value, name) {
        Some(field) => is_text(field),
        None => false,
    }
}

/// Whether values are texts.
fn are_texts(values: &[Value]) -> bool
    ensures { result ≡ list_all (λ v. is_text (view v)) values.now }
{
    values.iter().all(|value| is_text(value))
}

/// Whether this field of a value has texts alone.
fn has_texts(value: &Value, name: &str) -> bool
    ensures { result ≡ has_all is_text name.now (view value.now) }
{
    match items_at(value, name) {
        Some(items) => are_texts(items),
        None => false,
    }
}

/// Whether values are whole numbers below this one.
fn are_below(values: &[Value], end: usize) -> bool
    ensures { result ≡ list_all (λ v. is_below end (view v)) values.now }
{
    values.iter().all(|value| is_below(value, end))
}

/// Whether the outcomes that can still come are some of so many.
fn has_ends(value: &Value, end: usize) -> bool
    ensures { result ≡ has_all (is_below end) (codes "ends") (view value.now) }
{
    match items_at(value, "ends") {
        Some(items) => are_below(items, end),
        None => false,
    }
}

/// Whether a value is a turn from the state of this number, of a graph of so many lanes and states.
fn is_turn(value: &Value, lanes: usize, states: usize, number: usize) -> bool
    ensures { result ≡ is_turn lanes states number (view value.now) }
{
    has_lane(value, lanes) && leads_on(value, number, states) && has_texts(value, "lines")
}

/// Whether values are turns from the state of this number.
fn are_turns(values: &[Value], lanes: usize, states: usize, number: usize) -> bool
    ensures { result ≡ list_all (λ v. is_turn lanes states number (view v)) values.now }
{
    values
        .iter()
        .all(|value| is_turn(value, lanes, states, number))
}

/// Whether a value has turns from the state of this number alone.
fn has_turns(value: &Value, lanes: usize, states: usize, number: usize) -> bool
    ensures { result ≡ has_all (is_turn lanes states number) (codes "turns") (view value.now) }
{
    match items_at(value, "turns") {
        Some(items) => are_turns(items, lanes, states, number),
        None => false,
    }
}

/// Whether a value is the state of this number, of a graph of so many lanes, states and outcomes.
fn is_state(value: &Value, lanes: usize, states: usize, outcomes: usize, number: usize) -> bool
    ensures { result ≡ is_state lanes states outcomes number (view value.now) }
{
    has_turns(value, lanes, states, number) && has_ends(value, outcomes)
}

/// Whether values are the states of a graph.
fn are_states(values: &[Value], lanes: usize, states: usize, outcomes: usize) -> bool
    ensures { result ≡ are_states lanes states outcomes 0 (map view values.now) }
{
    for (number, value) in values.iter().enumerate() {
        if !is_state(value, lanes, states, outcomes, number) {
            return false;
        }
    }
    true
}

/// Whether a value is an outcome.
fn is_outcome(value: &Value) -> bool
    ensures { result ≡ is_outcome (view value.now) }
{
    has_text(value, "schedules") && has_texts(value, "replies")
}

/// Whether values are outcomes.
fn are_outcomes(values: &[Value]) -> bool
    ensures { result ≡ list_all (λ v. is_outcome (view v)) values.now }
{
    values.iter().all(|value| is_outcome(value))
}

/// Whether a value has outcomes.
fn has_outcomes(value: &Value) -> bool
    ensures { result ≡ has_all is_outcome (codes "outcomes") (view value.now) }
{
    match items_at(value, "outcomes") {
        Some(items) => are_outcomes(items),
        None => false,
    }
}

/// Whether a value has the states of a graph of so many lanes.
fn has_states(value: &Value, lanes: usize) -> bool
    ensures { result ≡ has_states lanes (view value.now) }
{
    let outcomes = count_at(value, "outcomes");
    match items_at(value, "states") {
        Some(items) => !items.is_empty() && are_states(items, lanes, items.len(), outcomes),
        None => false,
    }
}

/// How many lanes a graph has, where that is told.
fn lanes_at(value: &Value) -> Option<usize>
    ensures { result ≡ lanes_at (view value.now) }
{
    match field(value, "lanes") {
        Some(field) => field.as_u64().map(|lanes| lanes as usize),
        None => None,
    }
}

/// Whether a value is a graph.
fn is_graph(value: &Value) -> bool
    ensures { result ≡ is_graph (view value.now) }
{
    match lanes_at(value) {
        Some(lanes) => {
            has_text(value, "script")
                && lanes >= 1
                && lanes <= 16
                && has_outcomes(value)
                && has_states(value, lanes)
        }
        None => false,
    }
}

/// Refuses bytes that are no graph. The errors: `None` where they are none, `Memory` where memory was refused.
pub(crate) fn check_graph(alloc: Global, bytes: &[u8]) -> Result<(), GraphFault>
    ensures ok { OnOk result (AreGraph bytes.now) }
    ensures err { IfErr result (RefusesGraph bytes.now) }
{
    match Value::from_slice(alloc, bytes) {
        Ok(value) => {
            if is_graph(&value) {
                return Ok(());
            }
            Err(GraphFault::None)
        }
        Err(error) => {
            if error.is_memory() {
                return Err(GraphFault::Memory);
            }
            Err(GraphFault::None)
        }
    }
}
