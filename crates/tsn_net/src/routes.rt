//! What may be the matter with a route.
ghost use Rattle.std.specs.Prelude.{◌≡◌, ◌≤◌, List, IfSome, is_some, not, nat_le, map, length, option_map, position};
ghost use Rattle.std.specs.List.{list_any, list_all, find};
ghost use Rattle.std.specs.Str.{bytes_eq};
ghost use Rattle.toml.specs.Data.{Data};
ghost use Rattle.toml.specs.View.{view};
ghost use Rattle.tsn_net.specs.Document.{IsPlace};
ghost use Rattle.tsn_net.specs.DocumentView.{document_view, texts_view, routes_view, one_step_view};
ghost use Rattle.tsn_net.specs.Conditions.{octet_time, delay_over, is_quick, repeats, names_station, names_bridge, inner, routes_of, neighbours, steps_of, followed, inner_steps, joins};
ghost use Rattle.tsn_net.specs.Index.{AreApart};
ghost use Rattle.tsn_net.specs.Matter.{Finds, FindsRoute, FindsNoWay, FindsRoutes, IsOfRoute, first_again, first_gap, first_quick, matter_code};

use crate::document::{Document, elements_at, number_at, text, texts_of};
use crate::matter::{End, Matter};
use crate::schema::{Key, has_routes};
use crate::steps::{Step, given_again, other_talker, second_entry, talker_of};
use std::slice;
use toml::Value;
use tsn_model::{Code, Place};

impl<'a> Document<'a> {
    #[tactic(auto, unfolding(crate::specs::Conditions::bad_route, crate::specs::Conditions::holds))]
    pub(crate) fn bad_route(&self, place: Place) -> Option<Matter<'a>>
        requires { IsPlace (document_view self.now) place }
        ensures { Finds Code.BadRoute (document_view self.now) place result }
    {
        match place {
            Place::Stream(_) => routes_amiss(self, routes_of(self.value_at(place))),
            _ => None,
        }
    }

    #[tactic(auto, unfolding(crate::specs::Conditions::no_cable, crate::specs::Conditions::holds))]
    pub(crate) fn no_cable(&self, place: Place) -> Option<Matter<'a>>
        requires { IsPlace (document_view self.now) place }
        ensures { Finds Code.NoCable (document_view self.now) place result }
    {
        match place {
            Place::Stream(_) => match gap_along(self, routes_of(self.value_at(place))) {
                Some(step) => Some(Matter::NoCable(step)),
                None => None,
            },
            _ => None,
        }
    }

    #[tactic(auto, unfolding(crate::specs::Conditions::bad_slack, crate::specs::Conditions::holds))]
    pub(crate) fn bad_slack(&self, place: Place) -> Option<Matter<'a>>
        requires is_place { IsPlace (document_view self.now) place }
        requires apart { AreApart (document_view self.now) }
        ensures { Finds Code.BadSlack (document_view self.now) place result }
    {
        match place {
            Place::Stream(_) => {
                let slack = number_at(self.top, Key::Slack);
                let stream = self.value_at(place);
                let octets = number_at(stream, Key::Octets);
                let routes = routes_of(stream);
                match quick_step(slack, octets, self, routes) {
                    Some(step) => Some(Matter::BadSlack(slack, step)),
                    None => None,
                }
            }
            _ => None,
        }
    }
}

// Whether one of the cables joins these two nodes.
fn are_joined(document: &Document<'_>, x: &str, y: &str) -> bool
    ensures { result ≡ list_any (joins x.now y.now) (map view document.now.cables.now) }
{
    document.cable_numbers.contains_key(&(x, y))
}

/// How long an octet takes, in nanoseconds, at a rate in Mb/s.
pub(crate) fn octet_time(mbps: u64) -> u64
    ensures value { result ≡ octet_time mbps }
    ensures bound { result ≤ 800 }
{
    match mbps {
        1000 => 8,
        100 => 80,
        _ => 800,
    }
}

// Whether a frame of so many octets takes no longer than the slack over the cable until the node may start it on the next.
fn takes_at_most(slack: u64, octets: u64, cable: &Value, node: &Value) -> bool
    ensures { result ≡ nat_le (delay_over octets (view cable.now) (view node.now)) slack }
{
    let sent = (octets as u128 + 8) * octet_time(number_at(cable, Key::Mbps)) as u128;
    let there = sent + number_at(cable, Key::Prop) as u128;
    there + number_at(node, Key::Proc) as u128 <= slack as u128
}

// Whether it is so from one node to another, over the cable that joins them.
fn is_quick(slack: u64, octets: u64, document: &Document<'_>, from: &str, to: &str) -> bool
    requires { AreApart (document_view document.now) }
    ensures { result ≡ is_quick slack octets (map view document.now.nodes.now) (map view document.now.cables.now) (from.now, to.now) }
{
    match document.cable_numbers.get(&(from, to)).copied() {
        Some(k) => match document.node_numbers.get(to).copied() {
            Some(n) => takes_at_most(slack, octets, &document.cables[k], &document.nodes[n]),
            None => false,
        },
        None => false,
    }
}

/// The routes of a stream, each an array of names: those at `routes`, or else the one at `route`.
pub(crate) fn routes_of(stream: &Value) -> &[Value]
    ensures { routes_view result.now ≡ routes_of (view stream.now) }
{
    if has_routes(stream) {
        return elements_at(stream, Key::Routes);
    }
    match stream.get(Key::Route.name()) {
        Some(route) => slice::from_ref(route),
        None => &[],
    }
}

// Whether the node of this name is a station.
fn names_station(document: &Document<'_>, name: &str) -> bool
    ensures { result ≡ names_station (map view document.now.nodes.now) name.now }
{
    document.stations.contains(name)
}

/// Whether the node of this name is a bridge.
pub(crate) fn names_bridge(document: &Document<'_>, name: &str) -> bool
    ensures { result ≡ names_bridge (map view document.now.nodes.now) name.now }
{
    document.bridges.contains(name)
}

// The names of a route without its ends.
fn inner(route: &[Value]) -> &[Value]
    requires { 2 ≤ length route.now }
    ensures { texts_view result.now ≡ inner (texts_view route.now) }
{
    &route[1..route.len() - 1]
}

fn no_bridge_in<'a>(document: &Document<'_>, names: &'a [Value]) -> Option<&'a str>
    ensures first { option_map (λ name. name.now) result ≡ find (λ n. not (names_bridge (map view document.now.nodes.now) n)) (texts_view names.now) }
    ensures found { is_some result ≡ not (list_all (names_bridge (map view document.now.nodes.now)) (texts_view names.now)) }
{
    for value in names {
        let name = text(value);
        if !names_bridge(document, name) {
            return Some(name);
        }
    }
    None
}

// The number of the first of the texts that is this one.
fn number_of_text(texts: &[Value], wanted: &str) -> Option<usize>
    ensures { result ≡ position (bytes_eq wanted.now) (texts_view texts.now) }
{
    for k in 0..texts.len() {
        if wanted == text(&texts[k]) {
            return Some(k);
        }
    }
    None
}

// What is the matter with a route that doesn't run from a station over bridges to a station, or has a node twice.
fn route_amiss<'a>(document: &Document<'_>, route: &'a [Value]) -> Option<Matter<'a>>
    ensures { FindsRoute (map view document.now.nodes.now) (texts_view route.now) result }
{
    let count = route.len();
    if count < 2 {
        return Some(Matter::ShortRoute(count));
    }
    if let Some(matter) = repeated(route) {
        return Some(matter);
    }
    let first = text(&route[0]);
    if !names_station(document, first) {
        return Some(Matter::NoStation(first, End::First));
    }
    let last = text(&route[count - 1]);
    if !names_station(document, last) {
        return Some(Matter::NoStation(last, End::Last));
    }
    match no_bridge_in(document, inner(route)) {
        Some(name) => Some(Matter::NoBridge(name)),
        None => None,
    }
}

// The first name that stands twice, with its first two indices.
fn repeated(names: &[Value]) -> Option<Matter<'_>>
    requires { 2 ≤ length names.now }
    ensures twice { is_some result ≡ repeats (texts_view names.now) }
    ensures first { is_some result ≡ is_some (first_again (texts_view names.now)) }
    ensures so { (nodes : List Data) → IfSome result (λ m. (matter_code m ≡ Code.BadRoute) × IsOfRoute nodes (texts_view names.now) m) }
{
    for i in 0..names.len() {
        let name = text(&names[i]);
        if let Some(behind) = number_of_text(&names[i + 1..], name) {
            return Some(Matter::Twice(name, i, i + 1 + behind));
        }
    }
    None
}

// What is the matter with the first of some routes that is none by itself.
fn no_way_in<'a>(document: &Document<'_>, routes: &'a [Value]) -> Option<Matter<'a>>
    ensures { FindsNoWay (map view document.now.nodes.now) (routes_view routes.now) result }
{
    for route in routes {
        if let Some(matter) = route_amiss(document, texts_of(route)) {
            return Some(matter);
        }
    }
    None
}

// What is the matter with some routes: with one of them, or with all together.
fn routes_amiss<'a>(document: &Document<'_>, routes: &'a [Value]) -> Option<Matter<'a>>
    ensures { FindsRoutes (map view document.now.nodes.now) (routes_view routes.now) result }
{
    if let Some(matter) = no_way_in(document, routes) {
        return Some(matter);
    }
    // One route alone, without a name twice, always fits itself.
    if routes.len() == 1 {
        return None;
    }
    if let Some(other) = other_talker(routes) {
        return Some(Matter::OtherTalker(talker_of(routes), other));
    }
    if let Some(entry) = second_entry(document, routes) {
        return Some(Matter::SecondEntry(entry.bridge, entry.from, entry.other));
    }
    match given_again(routes) {
        Some(names) => Some(Matter::GivenTwice(names)),
        None => None,
    }
}

// The first step of a route over no cable.
fn gap_in<'a>(document: &Document<'_>, route: &'a [Value]) -> Option<Step<'a>>
    ensures { one_step_view result ≡ first_gap (map view document.now.cables.now) (neighbours (texts_view route.now)) }
{
    for k in 1..route.len() {
        let from = text(&route[k - 1]);
        let to = text(&route[k]);
        if !are_joined(document, from, to) {
            return Some(Step { from, to });
        }
    }
    None
}

// The same of some routes.
fn gap_along<'a>(document: &Document<'_>, routes: &'a [Value]) -> Option<Step<'a>>
    ensures { one_step_view result ≡ first_gap (map view document.now.cables.now) (steps_of (routes_view routes.now)) }
{
    for route in routes {
        if let Some(step) = gap_in(document, texts_of(route)) {
            return Some(step);
        }
    }
    None
}

// The first step of a route, of those that another one follows, over which a frame of so many octets takes no longer than the
// slack.
fn quick_in<'a>(
    slack: u64,
    octets: u64,
    document: &Document<'_>,
    route: &'a [Value],
) -> Option<Step<'a>>
    requires { AreApart (document_view document.now) }
    ensures { one_step_view result ≡ first_quick slack octets (map view document.now.nodes.now) (map view document.now.cables.now) (followed (texts_view route.now)) }
{
    for k in 2..route.len() {
        let from = text(&route[k - 2]);
        let to = text(&route[k - 1]);
        if is_quick(slack, octets, document, from, to) {
            return Some(Step { from, to });
        }
    }
    None
}

// The same of some routes.
fn quick_step<'a>(
    slack: u64,
    octets: u64,
    document: &Document<'_>,
    routes: &'a [Value],
) -> Option<Step<'a>>
    requires { AreApart (document_view document.now) }
    ensures { one_step_view result ≡ first_quick slack octets (map view document.now.nodes.now) (map view document.now.cables.now) (inner_steps (routes_view routes.now)) }
{
    if slack == 0 {
        return None;
    }
    for route in routes {
        if let Some(step) = quick_in(slack, octets, document, texts_of(route)) {
            return Some(step);
        }
    }
    None
}
