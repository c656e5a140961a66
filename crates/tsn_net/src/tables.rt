//! What may be the matter with a table by itself: its keys, their kinds, its names and its numbers.
ghost use Rattle.std.specs.Prelude.{◌≡◌, ◌≤◌, is_some, not, map, length, sum_by, option_map};
ghost use Rattle.std.specs.List.{list_all, find};
ghost use Rattle.toml.specs.View.{view};
ghost use Rattle.tsn_net.specs.Document.{IsPlace};
ghost use Rattle.tsn_net.specs.DocumentView.{document_view, texts_view, routes_view};
ghost use Rattle.tsn_net.specs.Conditions.{is_rate, turns_at, has_period, has_burst, frames_of, routes_break_limit, is_long, is_within, is_name, is_name_byte, routes_of, names_along, stream_breaks_limit};
ghost use Rattle.tsn_net.specs.Matter.{Finds, FindsIn, KeepsLimits, breaks_key_limit, nameless_key, outside_key, number_of, is_in_range};

use crate::conditions::table_at;
use crate::document::{
    Document, integer_at, integer_or, number_at, number_or, text, text_at, texts_of,
};
use crate::matter::Matter;
use crate::routes::routes_of;
use crate::schema::{Key, Table, absent_key, amiss_key, other_key};
use crate::steps::different_steps;
use toml::Value;
use tsn_model::{Code, Place};

impl<'a> Document<'a> {
    #[tactic(auto, unfolding(crate::specs::Conditions::missing_key, crate::specs::Conditions::holds))]
    pub(crate) fn missing_key(&self, place: Place) -> Option<Matter<'a>>
        requires { IsPlace (document_view self.now) place }
        ensures { Finds Code.MissingKey (document_view self.now) place result }
    {
        let table = table_at(place);
        let value = self.value_at(place);
        if !value.is_table() {
            return None;
        }
        match absent_key(table, value) {
            Some(key) => Some(Matter::MissingKey(key, other_key(table, value))),
            None => None,
        }
    }

    #[tactic(auto, unfolding(crate::specs::Conditions::wrong_kind, crate::specs::Conditions::holds))]
    pub(crate) fn wrong_kind(&self, place: Place) -> Option<Matter<'a>>
        requires { IsPlace (document_view self.now) place }
        ensures { Finds Code.WrongKind (document_view self.now) place result }
    {
        let value = self.value_at(place);
        if !value.is_table() {
            return Some(Matter::NoTable);
        }
        match amiss_key(table_at(place), value) {
            Some(key) => Some(Matter::WrongKind(key)),
            None => None,
        }
    }

    #[tactic(auto, unfolding(crate::specs::Conditions::unknown_key, crate::specs::Conditions::holds))]
    pub(crate) fn unknown_key(&self, place: Place) -> Option<Matter<'a>>
        requires { IsPlace (document_view self.now) place }
        ensures { Finds Code.UnknownKey (document_view self.now) place result }
    {
        match other_key(table_at(place), self.value_at(place)) {
            Some(name) => Some(Matter::UnknownKey(name)),
            None => None,
        }
    }

    #[tactic(auto, unfolding(crate::specs::Conditions::limit, crate::specs::Conditions::holds))]
    pub(crate) fn limit(&self, place: Place) -> Option<Matter<'a>>
        requires { IsPlace (document_view self.now) place }
        ensures { Finds Code.Limit (document_view self.now) place result }
    {
        match place {
            Place::Top => self.top_limit(),
            Place::Node(_) => key_limit(Table::Node, self.value_at(place)),
            Place::Cable(_) => key_limit(Table::Cable, self.value_at(place)),
            Place::Stream(_) => stream_limit(self.value_at(place)),
            Place::Text => None,
        }
    }

    #[tactic(auto, unfolding(crate::specs::Conditions::limit, crate::specs::Conditions::holds))]
    fn top_limit(&self) -> Option<Matter<'a>>
        ensures { Finds Code.Limit (document_view self.now) Place.Top result }
    {
        if let Some(matter) = key_limit(Table::Top, self.top) {
            return Some(matter);
        }
        if self.nodes.len() > 1024 {
            return Some(Matter::TooMany(Key::Node, self.nodes.len()));
        }
        if self.cables.len() > 2048 {
            return Some(Matter::TooMany(Key::Link, self.cables.len()));
        }
        if self.streams.len() > 2048 {
            return Some(Matter::TooMany(Key::Stream, self.streams.len()));
        }
        let frames = frames_in(number_at(self.top, Key::Cycle), self.streams);
        if frames > 65_536 {
            return Some(Matter::TooManyFrames(frames));
        }
        None
    }

    #[tactic(auto, unfolding(crate::specs::Conditions::bad_rate, crate::specs::Conditions::holds))]
    pub(crate) fn bad_rate(&self, place: Place) -> Option<Matter<'a>>
        requires { IsPlace (document_view self.now) place }
        ensures { Finds Code.BadRate (document_view self.now) place result }
    {
        match place {
            Place::Cable(_) => {
                let mbps = integer_at(self.value_at(place), Key::Mbps);
                if is_rate(mbps) {
                    None
                } else {
                    Some(Matter::BadRate(mbps))
                }
            }
            _ => None,
        }
    }

    #[tactic(auto, unfolding(crate::specs::Conditions::no_stream, crate::specs::Conditions::holds))]
    pub(crate) fn no_stream(&self, place: Place) -> Option<Matter<'a>>
        ensures { Finds Code.NoStream (document_view self.now) place result }
    {
        match place {
            Place::Top => {
                if self.streams.is_empty() {
                    Some(Matter::NoStream)
                } else {
                    None
                }
            }
            _ => None,
        }
    }

    #[tactic(auto, unfolding(crate::specs::Conditions::bad_period, crate::specs::Conditions::holds))]
    pub(crate) fn bad_period(&self, place: Place) -> Option<Matter<'a>>
        requires { IsPlace (document_view self.now) place }
        ensures { Finds Code.BadPeriod (document_view self.now) place result }
    {
        match place {
            Place::Stream(_) => {
                let cycle = number_at(self.top, Key::Cycle);
                let period = number_or(self.value_at(place), Key::Period, cycle);
                if cycle.checked_rem(period).unwrap_or(cycle) == 0 {
                    None
                } else {
                    Some(Matter::BadPeriod(period, cycle))
                }
            }
            _ => None,
        }
    }
}

fn stream_limit(stream: &Value) -> Option<Matter<'_>>
    ensures { FindsIn (stream_breaks_limit (view stream.now)) Table.Stream (view stream.now) result }
{
    match key_limit(Table::Stream, stream) {
        Some(matter) => Some(matter),
        None => route_limit(stream),
    }
}

// What is the matter with the first of a table's names, or else of its numbers, that is outside its limits.
fn key_limit(table: Table, value: &Value) -> Option<Matter<'_>>
    ensures { FindsIn (breaks_key_limit table (view value.now)) table (view value.now) result }
{
    if let Some(key) = nameless_key(table, value) {
        return Some(Matter::NoName(key, text_at(value, key)));
    }
    match outside_key(table, value) {
        Some(key) => Some(Matter::OutOfRange(key, number_of(value, key))),
        None => None,
    }
}

// The first key of a table at which the text is no name.
fn nameless_key(table: Table, value: &Value) -> Option<Key>
    ensures { result ≡ nameless_key table (view value.now) }
{
    for key in table.names() {
        if !is_name(text_at(value, *key)) {
            return Some(*key);
        }
    }
    None
}

// The first key of a table at which the number is outside its limits.
fn outside_key(table: Table, value: &Value) -> Option<Key>
    ensures { result ≡ outside_key table (view value.now) }
{
    for key in table.numbers() {
        if !is_in_range(value, *key) {
            return Some(*key);
        }
    }
    None
}

// Whether the number at a key is within its limits.
fn is_in_range(table: &Value, key: Key) -> bool
    ensures { result ≡ is_in_range key (view table.now) }
{
    is_within(key.least(), key.most(), number_of(table, key))
}

// The number at a key; the least one where there is none that may be left out.
fn number_of(table: &Value, key: Key) -> i64
    ensures { result ≡ number_of key (view table.now) }
{
    match key {
        Key::Latest | Key::Period | Key::Frames => integer_or(table, key, 1),
        _ => integer_at(table, key),
    }
}

// What is the matter with the number of a stream's routes, with their lengths, their names or all their steps, where all else in
// the stream's table is within its limits.
fn route_limit(stream: &Value) -> Option<Matter<'_>>
    requires { KeepsLimits Table.Stream (view stream.now) }
    ensures { FindsIn (routes_break_limit (routes_of (view stream.now))) Table.Stream (view stream.now) result }
{
    let routes = routes_of(stream);
    let count = routes.len();
    if count == 0 || count > 32 {
        return Some(Matter::RouteCount(count));
    }
    if let Some(count) = long_route(routes) {
        return Some(Matter::LongRoute(count));
    }
    if let Some(text) = no_name_along(routes) {
        return Some(Matter::NoRouteName(text));
    }
    // One route of up to 65 names has few steps.
    if count == 1 {
        return None;
    }
    match different_steps(routes) {
        Some(_) => None,
        None => Some(Matter::ManyLinks),
    }
}

// How many names the first route has that has too many.
fn long_route(routes: &[Value]) -> Option<usize>
    ensures { result ≡ option_map length (find is_long (routes_view routes.now)) }
{
    for route in routes {
        let count = texts_of(route).len();
        if count > 65 {
            return Some(count);
        }
    }
    None
}

// The first text along some routes that is no name.
fn no_name_along(routes: &[Value]) -> Option<&str>
    ensures first { option_map (λ text. text.now) result ≡ find (λ t. not (is_name t)) (names_along (routes_view routes.now)) }
    ensures found { is_some result ≡ not (list_all is_name (names_along (routes_view routes.now))) }
{
    for route in routes {
        if let Some(text) = no_name_in(texts_of(route)) {
            return Some(text);
        }
    }
    None
}

/// How many of a stream's periods make the cycle, rounded down; one without a period has the cycle for it.
pub(crate) fn turns_at(cycle: u64, stream: &Value) -> u64
    ensures { result ≡ turns_at cycle (view stream.now) }
{
    let period = number_or(stream, Key::Period, cycle);
    cycle.checked_div(period).unwrap_or(0)
}

fn has_period(stream: &Value) -> bool
    ensures { result ≡ has_period (view stream.now) }
{
    is_within(1, 1_000_000_000, integer_or(stream, Key::Period, 1))
}

fn has_burst(stream: &Value) -> bool
    ensures { result ≡ has_burst (view stream.now) }
{
    is_within(1, 16, integer_or(stream, Key::Frames, 1))
}

// How many frames a stream sends in a cycle; none where its period or their number is outside its limits.
fn frames_of(cycle: u64, stream: &Value) -> u64
    requires short { cycle ≤ 1_000_000_000 }
    ensures value { result ≡ frames_of cycle (view stream.now) }
    ensures few { result ≤ 16_000_000_000 }
{
    if has_period(stream) && has_burst(stream) {
        turns_at(cycle, stream) * number_or(stream, Key::Frames, 1)
    } else {
        0
    }
}

// How many frames all streams send in a cycle.
fn frames_in(cycle: u64, streams: &[Value]) -> u64
    requires short { cycle ≤ 1_000_000_000 }
    requires few { length streams.now ≤ 2048 }
    ensures { result ≡ sum_by (frames_of cycle) (map view streams.now) }
{
    let mut frames = 0;
    for stream in streams {
        frames += frames_of(cycle, stream);
    }
    frames
}

fn is_rate(mbps: i64) -> bool
    ensures { result ≡ is_rate mbps }
{
    is_within(10, 10, mbps) || is_within(100, 100, mbps) || is_within(1000, 1000, mbps)
}

pub(crate) fn is_within(low: u64, high: u64, integer: i64) -> bool
    ensures { result ≡ is_within low high integer }
{
    match u64::try_from(integer) {
        Ok(number) => low <= number && number <= high,
        Err(_) => false,
    }
}

fn is_name_byte(byte: u8) -> bool
    ensures { result ≡ is_name_byte byte }
{
    matches!(byte, b'A'..=b'Z' | b'a'..=b'z' | b'0'..=b'9' | b'_' | b'-')
}

pub(crate) fn is_name(text: &str) -> bool
    ensures { result ≡ is_name text.now }
{
    1 <= text.len() && text.len() <= 32 && are_name_bytes(text.as_bytes())
}

fn are_name_bytes(bytes: &[u8]) -> bool
    ensures { result ≡ list_all is_name_byte bytes.now }
{
    for byte in bytes {
        if !is_name_byte(*byte) {
            return false;
        }
    }
    true
}

fn no_name_in(texts: &[Value]) -> Option<&str>
    ensures first { option_map (λ text. text.now) result ≡ find (λ t. not (is_name t)) (texts_view texts.now) }
    ensures found { is_some result ≡ not (list_all is_name (texts_view texts.now)) }
{
    for value in texts {
        let name = text(value);
        if !is_name(name) {
            return Some(name);
        }
    }
    None
}
