//! The steps of routes, from each node that they name to the next, and what several routes have to be together.
ghost use Rattle.std.specs.Prelude.{◌≡◌, ◌≤◌, ◌&&◌, fold, length, map, option_map};
ghost use Rattle.std.specs.List.{list_any, find};
ghost use Rattle.std.specs.Str.{bytes_eq};
ghost use Rattle.toml.specs.View.{view};
ghost use Rattle.tsn_net.specs.Document.{texts_of};
ghost use Rattle.tsn_net.specs.DocumentView.{texts_view, routes_view, step_view, steps_view, few_view, entry_view};
ghost use Rattle.tsn_net.specs.Conditions.{begin_of, talker_of, other_talker, meet, meeting, second_entry, is_step, with_step, neighbours, steps_of, different, few, is_same, given_again};

use crate::document::{Document, text, texts_of};
use crate::routes::names_bridge;
use arrayvec::ArrayVec;
use toml::Value;

/// A step of a route, from one node to the next, by their names.
#[derive(Clone, Copy, Default)]
pub struct Step<'a> {
    pub(crate) from: &'a str,
    pub(crate) to: &'a str,
}

/// As many steps as the routes of a stream may have.
pub(crate) type Steps<'a> = ArrayVec<Step<'a>, 64>;

/// A bridge that is entered from two nodes.
#[derive(Clone, Copy)]
pub(crate) struct Entry<'a> {
    pub(crate) bridge: &'a str,
    pub(crate) from: &'a str,
    pub(crate) other: &'a str,
}

// Whether a step is the same as another one.
fn are_same(other: Step<'_>, step: Step<'_>) -> bool
    ensures { result ≡ (bytes_eq other.entry.from.now step.entry.from.now && bytes_eq other.entry.to.now step.entry.to.now) }
{
    other.from == step.from && other.to == step.to
}

// Whether the step is one of some.
fn is_among(steps: &[Step<'_>], step: Step<'_>) -> bool
    ensures { result ≡ is_step (step_view step.entry) (steps_view steps.now) }
{
    for other in steps {
        if are_same(*other, step) {
            return true;
        }
    }
    false
}

// Some steps, and behind them those of a route that aren't among them; None where they are too many.
fn with_steps<'a>(mut steps: Steps<'a>, route: &'a [Value]) -> Option<Steps<'a>>
    requires { length steps.items ≤ 64 }
    ensures { few_view result ≡ few (fold with_step (steps_view steps.entry.items) (neighbours (texts_view route.now))) }
{
    for k in 1..route.len() {
        let step = Step {
            from: text(&route[k - 1]),
            to: text(&route[k]),
        };
        if !is_among(steps.as_slice(), step) {
            if steps.is_full() {
                return None;
            }
            steps.push(step);
        }
    }
    Some(steps)
}

/// The different steps of some routes; None where they are too many.
pub(crate) fn different_steps(routes: &[Value]) -> Option<Steps<'_>>
    ensures { few_view result ≡ few (different (steps_of (routes_view routes.now))) }
{
    let mut steps = ArrayVec::new();
    for route in routes {
        steps = with_steps(steps, texts_of(route))?;
    }
    Some(steps)
}

// The name with which a route begins.
fn begin_of(route: &Value) -> &str
    ensures { result.now ≡ begin_of (texts_of (view route.now)) }
{
    match texts_of(route).first() {
        Some(name) => text(name),
        None => "",
    }
}

/// Where some routes begin.
pub(crate) fn talker_of(routes: &[Value]) -> &str
    ensures { result.now ≡ talker_of (routes_view routes.now) }
{
    match routes.first() {
        Some(route) => begin_of(route),
        None => "",
    }
}

/// Where the first route begins that doesn't begin where the first of all does.
pub(crate) fn other_talker(routes: &[Value]) -> Option<&str>
    ensures { option_map (λ name. name.now) result ≡ other_talker (routes_view routes.now) }
{
    let talker = talker_of(routes);
    for route in routes {
        let begin = begin_of(route);
        if begin != talker {
            return Some(begin);
        }
    }
    None
}

// Whether a step leads to the same node as another one, and begins elsewhere.
fn meets(other: Step<'_>, step: Step<'_>) -> bool
    ensures { result ≡ meet (step_view step.entry) (step_view other.entry) }
{
    other.to == step.to && other.from != step.from
}

// The first node from which one of the steps leads to the same node as a step that begins elsewhere.
fn other_way<'a>(steps: &[Step<'a>], step: Step<'_>) -> Option<&'a str>
    ensures { option_map (λ name. name.now) result ≡ option_map (λ q. q.0) (find (meet (step_view step.entry)) (steps_view steps.now)) }
{
    for other in steps {
        if meets(*other, step) {
            return Some(other.from);
        }
    }
    None
}

// The first bridge to which two of the steps lead from different nodes.
fn meeting<'a>(document: &Document<'_>, steps: &[Step<'a>]) -> Option<Entry<'a>>
    ensures { entry_view result ≡ meeting (map view document.now.nodes.now) (steps_view steps.now) }
{
    for k in 0..steps.len() {
        let step = steps[k];
        if names_bridge(document, step.to) {
            if let Some(other) = other_way(&steps[k + 1..], step) {
                return Some(Entry {
                    bridge: step.to,
                    from: step.from,
                    other,
                });
            }
        }
    }
    None
}

/// The first bridge that two routes enter from different nodes.
pub(crate) fn second_entry<'a>(document: &Document<'_>, routes: &'a [Value]) -> Option<Entry<'a>>
    ensures { entry_view result ≡ second_entry (map view document.now.nodes.now) (routes_view routes.now) }
{
    match different_steps(routes) {
        Some(steps) => meeting(document, steps.as_slice()),
        None => None,
    }
}

// Whether two routes have the same names.
fn is_same(route: &[Value], other: &[Value]) -> bool
    ensures { result ≡ is_same (texts_view route.now) (texts_view other.now) }
{
    if route.len() != other.len() {
        return false;
    }
    for k in 0..route.len() {
        if text(&route[k]) != text(&other[k]) {
            return false;
        }
    }
    true
}

/// The names of the first route that is given again.
pub(crate) fn given_again(routes: &[Value]) -> Option<&[Value]>
    ensures { option_map (λ names. texts_view names.now) result ≡ given_again (routes_view routes.now) }
{
    for k in 0..routes.len() {
        let names = texts_of(&routes[k]);
        if stands_in(names, &routes[k + 1..]) {
            return Some(names);
        }
    }
    None
}

// Whether a route is one of some.
fn stands_in(names: &[Value], routes: &[Value]) -> bool
    ensures { result ≡ list_any (is_same (texts_view names.now)) (routes_view routes.now) }
{
    for route in routes {
        if is_same(names, texts_of(route)) {
            return true;
        }
    }
    false
}
