//! What is known of the schedules in question: a view, and the ground that each step begins with.
ghost use Rattle.std.specs.Prelude.{◌≡◌, ◌⊎◌, ◌<◌, ◌≤ℤ◌, ◌<ℤ◌, true, false, pos, map, length, MatchBool, OnOk, IfOk};
ghost use Rattle.std.specs.List.{range_with_len};
ghost use Rattle.tsn_model.specs.Network.{stream_count, release_of};
ghost use Rattle.tsn_argue.specs.Steps.{goal_of, IsAim, IsFirstView, AreCrossed};
ghost use Rattle.tsn_model.specs.Argument.{from, until, order, done_from, done_until, IsFact, contradicts, learned, greatest_flowspan, low_at, high_at};
ghost use Rattle.tsn_model.specs.Schedule.{latest_offset};
ghost use Rattle.tsn_argue.specs.State.{view_of, base_of, IsSound, Becomes};
ghost use Rattle.tsn_argue.specs.News.{news_of, Knows};

use crate::aim::Aim;
use crate::decided::Decided;
use crate::news::{News, turned};
use crate::numbers::Numbers;
use std::alloc::{AllocError, Global};
use tsn_model::{Decision, NoMemory};
use tsn_timing::Timing;

/// The least and the greatest number that something may be, in nanoseconds.
#[derive(Clone, Copy)]
pub struct Ends {
    pub low: i128,
    pub high: i128,
}

/// The view and the ground, and of both whether they are impossible.
#[derive(Drop)]
pub struct View<'a> {
    pub timing: &'a Timing,
    /// The least offset of each stream.
    pub low: Numbers,
    /// The greatest offset of each stream.
    pub high: Numbers,
    pub orders: Decided,
    /// The flowspan.
    pub done: Ends,
    pub crossed: bool,
    pub base_done: Ends,
    pub base_crossed: bool,
}

impl<'a> View<'a> {
    /// The ground before the first step, and the view on it.
    pub(crate) fn first(
        alloc: Global,
        timing: &'a Timing,
        aim: &Aim<'_>,
    ) -> Result<View<'a>, NoMemory>
        requires { IsAim timing.now aim.now }
        ensures { IfOk result (IsFirstView timing.now (goal_of aim.now)) }
    {
        let low = Numbers::of(alloc, releases(alloc, timing)?)?;
        let high = Numbers::of(alloc, latest_offsets(alloc, timing)?)?;
        let done = Ends {
            low: 0,
            high: greatest_flowspan(timing, aim),
        };
        let crossed = or_above(is_crossed(&low, &high), done.low, done.high);
        Ok(View {
            timing,
            low,
            high,
            orders: Decided::none(alloc),
            done,
            crossed,
            base_done: done,
            base_crossed: crossed,
        })
    }

    /// The view learns a fact.
    pub(crate) fn learn(&mut self, news: News) -> Result<(), NoMemory>
        requires sound { IsSound self.old }
        requires fact { IsFact self.old.timing.now (news_of news) }
        ensures { OnOk result (Becomes self.old self.new (learned (view_of self.old) (news_of news))) }
    {
        match news {
            News::From(stream, number) => self.raise(stream, number),
            News::Until(stream, number) => self.lower(stream, number),
            News::Order(decision) => self.decide(decision),
            News::DoneFrom(number) => {
                self.raise_done(number);
                Ok(())
            }
            News::DoneUntil(number) => {
                self.lower_done(number);
                Ok(())
            }
        }
    }

    #[tactic(auto, unfolding(tsn_model::specs::Argument::learned))]
    fn raise(&mut self, stream: usize, number: i128) -> Result<(), NoMemory>
        requires sound { IsSound self.old }
        requires there { stream < stream_count self.old.timing.now }
        ensures { OnOk result (Becomes self.old self.new (learned (view_of self.old) (from stream number))) }
    {
        if number <= self.low.at(stream) {
            return Ok(());
        }
        let greatest = self.high.at(stream);
        self.crossed = or_above(self.crossed, number, greatest);
        self.low.set(stream, number)
    }

    #[tactic(auto, unfolding(tsn_model::specs::Argument::learned))]
    /// An offset is at most a number.
    pub(crate) fn lower(&mut self, stream: usize, number: i128) -> Result<(), NoMemory>
        requires sound { IsSound self.old }
        requires there { stream < stream_count self.old.timing.now }
        ensures { OnOk result (Becomes self.old self.new (learned (view_of self.old) (until stream number))) }
    {
        if number >= self.high.at(stream) {
            return Ok(());
        }
        let least = self.low.at(stream);
        self.crossed = or_above(self.crossed, least, number);
        self.high.set(stream, number)
    }

    #[tactic(auto, unfolding(tsn_model::specs::Argument::learned))]
    fn decide(&mut self, decision: Decision) -> Result<(), NoMemory>
        requires sound { IsSound self.old }
        requires fact { IsFact self.old.timing.now (order decision) }
        ensures { OnOk result (Becomes self.old self.new (learned (view_of self.old) (order decision))) }
    {
        self.orders.push(decision)
    }

    #[tactic(auto, unfolding(tsn_model::specs::Argument::learned))]
    fn raise_done(&mut self, number: i128)
        requires { IsSound self.old }
        ensures { Becomes self.old self.new (learned (view_of self.old) (done_from number)) }
    {
        self.crossed = or_above(self.crossed, number, self.done.high);
        self.done.low = number.max(self.done.low);
    }

    #[tactic(auto, unfolding(tsn_model::specs::Argument::learned))]
    fn lower_done(&mut self, number: i128)
        requires { IsSound self.old }
        ensures { Becomes self.old self.new (learned (view_of self.old) (done_until number)) }
    {
        self.crossed = or_above(self.crossed, self.done.low, number);
        self.done.high = number.min(self.done.high);
    }

    #[tactic(auto, unfolding(tsn_model::specs::Argument::contradicts))]
    /// Whether the view itself shows that no valid schedule that fits it meets the fact.
    pub fn contradicts(&self, news: News) -> bool
        ensures { result ≡ contradicts (view_of self.now) (news_of news) }
    {
        match news {
            News::From(stream, number) => self.greatest(stream) < number,
            News::Until(stream, number) => number < self.least(stream),
            News::Order(decision) => self.orders.has(turned(decision)),
            News::DoneFrom(number) => self.done.high < number,
            News::DoneUntil(number) => number < self.done.low,
        }
    }

    /// Whether the view itself shows the fact.
    pub fn knows(&self, news: News) -> bool
        ensures { MatchBool result (Knows (view_of self.now) (news_of news)) (Knows (view_of self.now) (news_of news) → ⊥) }
    {
        match news {
            News::From(stream, number) => number <= self.least(stream),
            News::Until(stream, number) => self.greatest(stream) <= number,
            News::Order(decision) => self.orders.has(decision),
            News::DoneFrom(number) => number <= self.done.low,
            News::DoneUntil(number) => self.done.high <= number,
        }
    }

    /// The least offset of a stream, in nanoseconds; 0 where there is none.
    pub fn least(&self, stream: usize) -> i128
        ensures { result ≡ low_at (view_of self.now) stream }
    {
        self.low.at_or_zero(stream)
    }

    /// The greatest offset of a stream, in nanoseconds; 0 where there is none.
    pub fn greatest(&self, stream: usize) -> i128
        ensures { result ≡ high_at (view_of self.now) stream }
    {
        self.high.at_or_zero(stream)
    }

    /// Makes the view the ground once more.
    pub(crate) fn go_back(&mut self)
        requires { IsSound self.old }
        ensures base { base_of self.new ≡ base_of self.old }
        ensures view { view_of self.new ≡ base_of self.old }
        ensures sound { IsSound self.new }
        ensures network { self.new.timing.now ≡ self.old.timing.now }
    {
        self.low.go_back();
        self.high.go_back();
        self.orders.go_back();
        self.done = self.base_done;
        self.crossed = self.base_crossed;
    }

    /// Makes the view the ground.
    pub(crate) fn keep(&mut self)
        requires { IsSound self.old }
        ensures base { base_of self.new ≡ view_of self.old }
        ensures view { view_of self.new ≡ view_of self.old }
        ensures sound { IsSound self.new }
        ensures network { self.new.timing.now ≡ self.old.timing.now }
    {
        self.low.keep();
        self.high.keep();
        self.orders.keep();
        self.base_done = self.done;
        self.base_crossed = self.crossed;
    }
}

/// Whether it was known before, or the first number is above the second one.
fn or_above(known: bool, low: i128, high: i128) -> bool
    ensures { MatchBool result ((known ≡ true) ⊎ (high <ℤ low)) ((known ≡ false) × (low ≤ℤ high)) }
{
    known || low > high
}

#[tactic(auto, unfolding(tsn_model::specs::Argument::greatest_flowspan))]
/// The greatest flowspan in question, in nanoseconds.
fn greatest_flowspan(timing: &Timing, aim: &Aim<'_>) -> i128
    requires { IsAim timing.now aim.now }
    ensures value { result ≡ greatest_flowspan timing.now (goal_of aim.now) }
    ensures high { result ≤ℤ pos timing.now.cycle }
{
    match *aim {
        Aim::First { flowspan, .. } => flowspan as i128,
        Aim::Least { flowspan, .. } => flowspan as i128 - 1,
        Aim::None => timing.cycle() as i128,
    }
}

/// The release of each stream, in nanoseconds.
fn releases(alloc: Global, timing: &Timing) -> Result<Vec<i128>, AllocError>
    ensures { IfOk result (λ v. v.items ≡ map (λ i. pos (release_of timing.now i)) (range_with_len 0 (stream_count timing.now))) }
{
    let mut list = Vec::with_capacity(alloc, timing.streams())?;
    for stream in 0..timing.streams() {
        list.push(timing.window(stream).least as i128)?;
    }
    Ok(list)
}

/// The latest offset of each stream that is done within its period and arrives in time, in nanoseconds.
fn latest_offsets(alloc: Global, timing: &Timing) -> Result<Vec<i128>, AllocError>
    ensures { IfOk result (λ v. v.items ≡ map (latest_offset timing.now) (range_with_len 0 (stream_count timing.now))) }
{
    let mut list = Vec::with_capacity(alloc, timing.streams())?;
    for stream in 0..timing.streams() {
        list.push(latest_offset(timing, stream))?;
    }
    Ok(list)
}

fn latest_offset(timing: &Timing, stream: usize) -> i128
    requires { stream < stream_count timing.now }
    ensures { result ≡ latest_offset timing.now stream }
{
    timing.window(stream).greatest as i128
}

/// Whether some least number is above the greatest one.
fn is_crossed(low: &Numbers, high: &Numbers) -> bool
    requires { length low.now.view ≡ length high.now.view }
    ensures { MatchBool result (AreCrossed low.now.view high.now.view) (AreCrossed low.now.view high.now.view → ⊥) }
{
    for stream in 0..low.len() {
        if high.at(stream) < low.at(stream) {
            return true;
        }
    }
    false
}
