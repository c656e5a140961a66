//! What is the matter with a network file, in words. Of the words nothing is claimed but what they are made of.
use crate::conditions::Amiss;
use crate::document;
use crate::document::Document;
use crate::matter::{End, Matter};
use crate::schema::Key;
use crate::steps::Step;
use crate::tables::is_name;
use std::alloc::Global;
use tsn_model::Place;
use tsn_text::TextBuilder;
use tsn_text::pieces::{push_count, push_name, push_number, push_signed};

/// The names of a place: that of a node or a stream, or those of the nodes that a cable joins.
#[derive(Clone, Copy)]
pub(crate) struct Names<'a> {
    name: Option<&'a str>,
    ends: Option<(&'a str, &'a str)>,
}

impl<'a> Document<'a> {
    /// The names of a place, as far as it has some.
    pub(crate) fn names(&self, place: Place) -> Names<'a> {
        let Some(table) = self.table(place) else {
            return Names {
                name: None,
                ends: None,
            };
        };
        Names {
            name: text_in(table, Key::Name),
            ends: both(text_in(table, Key::A), text_in(table, Key::B)),
        }
    }

    fn table(&self, place: Place) -> Option<&'a toml::Value> {
        match place {
            Place::Node(n) => self.nodes.get(n),
            Place::Cable(k) => self.cables.get(k),
            Place::Stream(i) => self.streams.get(i),
            Place::Text | Place::Top => None,
        }
    }
}

fn text_in(table: &toml::Value, key: Key) -> Option<&str> {
    match table.get(key.name()) {
        Some(value) => value.as_str(),
        None => None,
    }
}

fn both<'a>(a: Option<&'a str>, b: Option<&'a str>) -> Option<(&'a str, &'a str)> {
    match (a, b) {
        (Some(a), Some(b)) => Some((a, b)),
        _ => None,
    }
}

/// Where a fault is and what is the matter there; None where there is no memory for the words.
pub(crate) fn words_of(alloc: Global, names: Names<'_>, amiss: Amiss<'_>) -> Option<String> {
    let Amiss { place, matter } = amiss;
    let mut text = TextBuilder::new(alloc);
    push_place(&mut text, names, place);
    push_matter(&mut text, matter, place);
    text.finish().ok()
}

/// What the reader of TOML says, which tells the line and the column first, and ends each of its parts with a line feed.
pub(crate) fn not_toml_words(alloc: Global, error: toml::de::Error) -> Option<String> {
    let told = format!(in alloc; "{error}").ok()?;
    let mut text = TextBuilder::new(alloc);
    text.push_str("not TOML");
    for part in told.as_str().lines() {
        text.push_str(": ");
        text.push_str(part.strip_prefix("TOML parse error at ").unwrap_or(part));
    }
    text.finish().ok()
}

// Writes the place of a fault: `node S: `, `cable 2, S to C: `, `stream one: `; nothing for the whole file.
fn push_place(text: &mut TextBuilder, names: Names<'_>, place: Place) {
    match place {
        Place::Node(node) => push_called(text, "node ", names.name, node),
        Place::Cable(cable) => {
            push_count(text, "cable ", cable);
            push_ends(text, names.ends);
        }
        Place::Stream(stream) => push_called(text, "stream ", names.name, stream),
        Place::Text | Place::Top => return,
    }
    text.push_str(": ");
}

// Writes words and a node or a stream by its name, or by its number where it has none.
fn push_called(text: &mut TextBuilder, words: &str, name: Option<&str>, number: usize) {
    text.push_str(words);
    match name {
        Some(name) if is_name(name) => text.push_str(name),
        Some(_) | None => text.push_count(number),
    }
}

// Writes the nodes that a cable joins, where they are named.
fn push_ends(text: &mut TextBuilder, ends: Option<(&str, &str)>) {
    if let Some((from, to)) = ends {
        push_name(text, ", ", from);
        push_name(text, " to ", to);
    }
}

const MANY_LINKS: &str = "its routes have more than 64 links in all";

// Writes what is the matter at a place.
fn push_matter(text: &mut TextBuilder, matter: Matter<'_>, place: Place) {
    match matter {
        Matter::MissingKey(key, beside) => push_missing(text, key, beside, place),
        Matter::NoTable => text.push_str("it has to be a table"),
        Matter::WrongKind(key) => push_wrong_kind(text, key),
        Matter::UnknownKey(name) => push_unknown(text, name, place),
        Matter::OutOfRange(..)
        | Matter::TooMany(..)
        | Matter::TooManyFrames(_)
        | Matter::NoName(..)
        | Matter::RouteCount(_)
        | Matter::LongRoute(_)
        | Matter::NoRouteName(_)
        | Matter::ManyLinks => push_limit(text, matter),
        Matter::TakenName(number) => push_taken_name(text, place, number),
        Matter::NoNode(name) => push_name(text, "there is no node ", name),
        Matter::BadRate(mbps) => {
            push_signed(text, "mbps is ", mbps as i128);
            text.push_str(", and has to be 10, 100 or 1000");
        }
        Matter::Loop => text.push_str("it joins a node to itself"),
        Matter::TakenCable(number) => {
            push_count(text, "cable ", number);
            text.push_str(" joins these nodes already");
        }
        Matter::ShortRoute(_)
        | Matter::Twice(..)
        | Matter::NoStation(..)
        | Matter::NoBridge(_)
        | Matter::OtherTalker(..)
        | Matter::SecondEntry(..)
        | Matter::GivenTwice(_) => push_bad_route(text, matter),
        Matter::NoCable(step) => {
            push_name(text, "no cable joins ", step.from);
            push_name(text, " and ", step.to);
        }
        Matter::NoStream => text.push_str("there is no stream"),
        Matter::BadPeriod(period, cycle) => {
            push_number(text, "period ", period);
            push_number(text, " doesn't divide the cycle ", cycle);
        }
        Matter::BadSlack(slack, step) => push_too_quick(text, slack, step),
    }
}

// Writes which number, count or name is outside its limits.
fn push_limit(text: &mut TextBuilder, matter: Matter<'_>) {
    match matter {
        Matter::OutOfRange(key, number) => push_out_of_range(text, key, number),
        Matter::TooMany(key, count) => push_too_many(text, key, count),
        Matter::TooManyFrames(count) => {
            push_number(text, "the streams send ", count);
            text.push_str(" frames in a cycle, and may send at most 65536");
        }
        Matter::NoName(key, name) => {
            text.push_str(key.name());
            push_no_name(text, " is ", name);
        }
        Matter::RouteCount(count) => {
            push_count(text, "routes has ", count);
            text.push_str(" elements, and has to have 1 to 32");
        }
        Matter::LongRoute(count) => {
            push_count(text, "route has ", count);
            push_most(text, " names", Key::Route);
        }
        Matter::NoRouteName(name) => push_no_name(text, "a name of route is ", name),
        Matter::ManyLinks => text.push_str(MANY_LINKS),
        _ => {}
    }
}

// Writes that a key is missing, and beside it which one isn't known, if there is one: that may have been meant.
fn push_missing(text: &mut TextBuilder, key: Key, beside: Option<&str>, place: Place) {
    text.push_str("the key ");
    text.push_str(key.name());
    text.push_str(" is missing");
    if let Some(name) = beside {
        text.push_str(", and ");
        push_unknown(text, name, place);
    }
}

// Writes which key isn't known, or why a table can't have it.
fn push_unknown(text: &mut TextBuilder, name: &str, place: Place) {
    match (name, place) {
        ("proc", Place::Node(_)) => text.push_str("a station has no proc"),
        ("route", Place::Stream(_)) => text.push_str("a stream with routes has no route"),
        ("offset", Place::Stream(_)) => {
            text.push_str("a stream with an offset has no release and no latest");
        }
        (name, _) => {
            push_name(text, "the key ", name);
            text.push_str(" isn't known");
        }
    }
}

// Writes what the value at a key has to be.
fn push_wrong_kind(text: &mut TextBuilder, key: Key) {
    text.push_str(key.name());
    text.push_str(" has to be ");
    text.push_str(kind_wanted(key));
}

// Writes the number at a key, and what it has to be.
fn push_out_of_range(text: &mut TextBuilder, key: Key, number: i64) {
    text.push_str(key.name());
    push_signed(text, " is ", number as i128);
    push_number(text, ", and has to be ", key.least());
    push_number(text, " to ", key.most());
}

// Writes how many elements there are at a key.
fn push_too_many(text: &mut TextBuilder, key: Key, count: usize) {
    text.push_str(key.name());
    push_count(text, " has ", count);
    push_most(text, " elements", key);
}

// Writes how many there may be of what stands at a key.
fn push_most(text: &mut TextBuilder, words: &str, key: Key) {
    text.push_str(words);
    push_number(text, ", and may have at most ", key.most());
}

// Writes a text that is no name, and what a name has to be.
fn push_no_name(text: &mut TextBuilder, words: &str, name: &str) {
    push_name(text, words, name);
    text.push_str(", and a name has 1 to 32 of the characters A to Z, a to z, 0 to 9, _ and -");
}

// Writes which of the tables like a place has its name already.
fn push_taken_name(text: &mut TextBuilder, place: Place, number: usize) {
    let table = match place {
        Place::Node(_) => "node ",
        Place::Text | Place::Top | Place::Cable(_) | Place::Stream(_) => "stream ",
    };
    push_count(text, table, number);
    text.push_str(" has this name already");
}

// Writes what is the matter with a route, or with several.
fn push_bad_route(text: &mut TextBuilder, matter: Matter<'_>) {
    match matter {
        Matter::ShortRoute(count) => {
            push_count(text, "the number of names in route is ", count);
            text.push_str(", and has to be 2 to 65");
        }
        Matter::Twice(name, _, _) => {
            push_name(text, "its route names ", name);
            text.push_str(" twice");
        }
        Matter::NoStation(name, End::First) => {
            push_name(text, "its route begins at ", name);
            text.push_str(", which is no station");
        }
        Matter::NoStation(name, End::Last) => {
            push_name(text, "its route ends at ", name);
            text.push_str(", which is no station");
        }
        Matter::NoBridge(name) => {
            push_name(text, "its route passes ", name);
            text.push_str(", which is no bridge");
        }
        Matter::OtherTalker(name, other) => {
            push_name(text, "its routes begin at different stations, ", name);
            push_name(text, " and ", other);
        }
        Matter::SecondEntry(bridge, from, other) => {
            push_name(text, "two of its routes enter ", bridge);
            push_name(text, ", from ", from);
            push_name(text, " and from ", other);
        }
        Matter::GivenTwice(names) => push_given_twice(text, names),
        _ => {}
    }
}

// Writes the names of a route that is given twice.
fn push_given_twice(text: &mut TextBuilder, names: &[toml::Value]) {
    text.push_str("the route ");
    let mut between = "";
    for value in names {
        push_name(text, between, document::text(value));
        between = ", ";
    }
    text.push_str(" is given twice");
}

// Writes that frames take no longer over a step than the slack, which is told first.
fn push_too_quick(text: &mut TextBuilder, slack: u64, step: Step<'_>) {
    push_number(text, "slack is ", slack);
    push_name(
        text,
        ", and has to be less than its frames take from ",
        step.from,
    );
    push_name(text, " until ", step.to);
    text.push_str(" may send them on");
}

// What the value at a key has to be.
fn kind_wanted(key: Key) -> &'static str {
    match key {
        Key::Node | Key::Link | Key::Stream => "an array of tables",
        Key::Name | Key::A | Key::B => "a string",
        Key::Kind => "\"station\" or \"bridge\"",
        Key::Route => "an array of strings",
        Key::Routes => "an array of arrays of strings",
        Key::Cycle | Key::Slack => "an integer",
        Key::Proc | Key::Mbps | Key::Prop => "an integer",
        Key::Octets | Key::Release | Key::Latest => "an integer",
        Key::Period | Key::Frames | Key::Offset => "an integer",
    }
}
