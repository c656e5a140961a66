//! What is the matter with a network file: the key, the value, the number or the name that is wrong.
ghost use Rattle.tsn_net.specs.Matter.{matter_code};
ghost use Rattle.std.specs.Prelude.{◌≡◌};

use crate::schema::Key;
use crate::steps::Step;
use toml::Value;
use tsn_model::Code;

/// An end of a route.
#[derive(Clone, Copy)]
pub enum End {
    First,
    Last,
}

/// What is the matter at the place of a fault. What isn't told by it is told by the place.
#[derive(Clone, Copy)]
pub enum Matter<'a> {
    /// A key is missing; and beside it the first key that the table may not have, which may have been meant.
    MissingKey(Key, Option<&'a str>),
    /// It is no table.
    NoTable,
    /// The value at a key has another kind.
    WrongKind(Key),
    /// The table may not have this key.
    UnknownKey(&'a str),
    /// The number at a key is outside its limits.
    OutOfRange(Key, i64),
    /// There are so many tables at a key, which are too many.
    TooMany(Key, usize),
    /// The streams send so many frames in a cycle, which are too many.
    TooManyFrames(u64),
    /// The text at a key is no name.
    NoName(Key, &'a str),
    /// A stream has so many routes, which are none or too many.
    RouteCount(usize),
    /// A route has so many names, which are too many.
    LongRoute(usize),
    /// A text in a route is no name.
    NoRouteName(&'a str),
    /// The routes of a stream have too many different steps.
    ManyLinks,
    /// The node or stream of this number has the name already.
    TakenName(usize),
    /// There is no node of this name.
    NoNode(&'a str),
    /// The rate of a cable, in Mb/s.
    BadRate(i64),
    /// A cable joins a node to itself.
    Loop,
    /// The cable of this number joins the two nodes already.
    TakenCable(usize),
    /// A route has so many names, which are too few.
    ShortRoute(usize),
    /// A name stands in a route at these two indices.
    Twice(&'a str, usize, usize),
    /// A route begins or ends at this name, which is no station's.
    NoStation(&'a str, End),
    /// A route has this name inside, which is no bridge's.
    NoBridge(&'a str),
    /// Two routes of a stream begin at these names.
    OtherTalker(&'a str, &'a str),
    /// Two routes of a stream enter the bridge of this name, from these two.
    SecondEntry(&'a str, &'a str, &'a str),
    /// A route of a stream, by its names, is given twice.
    GivenTwice(&'a [Value]),
    /// No cable joins the names of a step.
    NoCable(Step<'a>),
    NoStream,
    /// A period that doesn't divide the cycle, in nanoseconds.
    BadPeriod(u64, u64),
    /// A slack, in nanoseconds, and a step over which a frame takes no longer than that.
    BadSlack(u64, Step<'a>),
}

impl Matter<'_> {
    /// The condition that it is of.
    pub fn code(self) -> Code
        ensures { result ≡ matter_code self.entry }
    {
        match self {
            Matter::MissingKey(..) => Code::MissingKey,
            Matter::NoTable | Matter::WrongKind(_) => Code::WrongKind,
            Matter::UnknownKey(_) => Code::UnknownKey,
            Matter::OutOfRange(..)
            | Matter::TooMany(..)
            | Matter::TooManyFrames(_)
            | Matter::NoName(..)
            | Matter::RouteCount(_)
            | Matter::LongRoute(_)
            | Matter::NoRouteName(_)
            | Matter::ManyLinks => Code::Limit,
            Matter::TakenName(_) => Code::DuplicateName,
            Matter::NoNode(_) => Code::UnknownName,
            Matter::BadRate(_) => Code::BadRate,
            Matter::Loop | Matter::TakenCable(_) => Code::DuplicateCable,
            Matter::ShortRoute(_)
            | Matter::Twice(..)
            | Matter::NoStation(..)
            | Matter::NoBridge(_)
            | Matter::OtherTalker(..)
            | Matter::SecondEntry(..)
            | Matter::GivenTwice(_) => Code::BadRoute,
            Matter::NoCable(_) => Code::NoCable,
            Matter::NoStream => Code::NoStream,
            Matter::BadPeriod(..) => Code::BadPeriod,
            Matter::BadSlack(..) => Code::BadSlack,
        }
    }
}
