//! Whether a move may be made on a view, what it shows, and what it uses for that.
ghost use Rattle.std.specs.Prelude.{◌≡◌, ◌<◌, ◌≤◌, ◌≤ℤ◌, pos, [], ◌∷◌, length, map, false, All, MatchBool};
ghost use Rattle.tsn_model.specs.Network.{stream_count};
ghost use Rattle.tsn_model.specs.Schedule.{IsConflict};
ghost use Rattle.tsn_model.specs.Arcs.{arc_of as model_arc_of};
ghost use Rattle.tsn_timing.specs.Arcs.{IsSmall};
ghost use Rattle.tsn_model.specs.Argument.{IsFact, low_at, high_at, go, turn, apply, arrive, put_last, put_first, pack, round, follow, fill, fill_back, waste, refuting, left_open};
ghost use Rattle.tsn_cert.specs.Order.{decision_of};
ghost use Rattle.tsn_cert.specs.Fact.{clause_of};
ghost use Rattle.tsn_cert.specs.Move.{move_of, edge_of};
ghost use Rattle.tsn_argue.specs.State.{view_of, IsSound};
ghost use Rattle.tsn_argue.specs.News.{news_of};
ghost use Rattle.tsn_argue.specs.Faults.{AreAlike};
ghost use Rattle.tsn_argue.specs.Loads.{ShowsWithout};
ghost use Rattle.tsn_argue.specs.Motion.{facts_of, clauses_of, AreFacts, JudgesMove, Judges, FindsUnit, FindsPlacing, FindsRound, FindsArc};

use crate::filling::{judge_filling, lost_in};
use crate::link::{judge_choice, judge_frames, load_all, load_with, visit_of};
use crate::news::{News, turned};
use crate::seen::Marks;
use crate::uses::{Reader, Use};
use crate::view::View;
use tsn_cert::{Clause, Fact, Filling, Move, Order, Placing, Wasting};
use tsn_check::Wrong;
use tsn_model::{Arc, Decision, Frame};
use tsn_timing::{Timing, arc_of, is_conflict};

/// What a move shows: one fact, or two.
#[derive(Clone, Copy)]
pub struct Shown {
    pub first: News,
    pub second: Option<News>,
}

impl Shown {
    fn one(news: News) -> Shown
        ensures { facts_of result ≡ news_of news ∷ [] }
    {
        Shown {
            first: news,
            second: None,
        }
    }
}

/// What a move is judged by: the view on which it is made, and the clauses that were shown.
#[derive(Clone, Copy)]
struct Basis<'a> {
    view: &'a View<'a>,
    clauses: &'a [&'a Clause],
}

impl Basis<'_> {
    /// The least offset of a stream, from 0 to the cycle.
    #[tactic(auto, using(crate::proofs::OpenViews::open_low))]
    fn least(&self, stream: usize) -> i128
        requires sound { IsSound self.now.view.now }
        requires possible { self.now.view.now.crossed ≡ false }
        requires there { stream < stream_count self.now.view.now.timing.now }
        ensures value { result ≡ low_at (view_of self.now.view.now) stream }
        ensures low { pos 0 ≤ℤ result }
        ensures high { result ≤ℤ pos 1_000_000_000 }
    {
        let _cycle = self.view.timing.cycle();
        self.view.low.at(stream)
    }

    /// The greatest offset of a stream, from 0 to the cycle.
    #[tactic(auto, using(crate::proofs::OpenViews::open_high))]
    fn greatest(&self, stream: usize) -> i128
        requires sound { IsSound self.now.view.now }
        requires possible { self.now.view.now.crossed ≡ false }
        requires there { stream < stream_count self.now.view.now.timing.now }
        ensures value { result ≡ high_at (view_of self.now.view.now) stream }
        ensures low { pos 0 ≤ℤ result }
        ensures high { result ≤ℤ pos 1_000_000_000 }
    {
        let _cycle = self.view.timing.cycle();
        self.view.high.at(stream)
    }

    /// The greatest flowspan, from 0 to the cycle.
    #[tactic(auto, using(crate::proofs::OpenViews::open_done))]
    fn greatest_done(&self) -> i128
        requires sound { IsSound self.now.view.now }
        requires possible { self.now.view.now.crossed ≡ false }
        ensures value { result ≡ self.now.view.now.done.high }
        ensures low { pos 0 ≤ℤ result }
        ensures high { result ≤ℤ pos 1_000_000_000 }
    {
        let _cycle = self.view.timing.cycle();
        self.view.done.high
    }

    /// One fact that a move shows.
    #[tactic(auto, using(crate::proofs::MotionLemmas::one_fact))]
    fn one(&self, news: News) -> Shown
        requires { IsFact self.now.view.now.timing.now (news_of news) }
        ensures shown { facts_of result ≡ news_of news ∷ [] }
        ensures facts { All (IsFact self.now.view.now.timing.now) (facts_of result) }
    {
        Shown::one(news)
    }

    /// Two facts that a move shows.
    #[tactic(auto, using(crate::proofs::MotionLemmas::two_facts))]
    fn two(&self, first: News, second: News) -> Shown
        requires first { IsFact self.now.view.now.timing.now (news_of first) }
        requires second { IsFact self.now.view.now.timing.now (news_of second) }
        ensures shown { facts_of result ≡ news_of first ∷ news_of second ∷ [] }
        ensures facts { All (IsFact self.now.view.now.timing.now) (facts_of result) }
    {
        Shown {
            first,
            second: Some(second),
        }
    }
}

/// What the move shows of each schedule that fits the view, or what is wrong with it.
pub fn judge(
    view: &View<'_>,
    clauses: &[&Clause],
    motion: &Move,
    marks: &mut Marks,
) -> Result<Shown, Wrong>
    requires sound { IsSound view.now }
    requires possible { view.now.crossed ≡ false }
    requires facts { AreFacts view.now.timing.now (clauses_of clauses.now) }
    ensures { JudgesMove view.now.timing.now (clauses_of clauses.now) (view_of view.now) (move_of motion.now) result }
{
    let basis = Basis { view, clauses };
    match motion {
        Move::Go(order) => judge_go(&basis, order.decision()),
        Move::Turn(order) => judge_turn(&basis, order.decision()),
        Move::Use(number) => judge_use(&basis, *number),
        Move::Arrive(stream) => judge_arrive(&basis, *stream),
        Move::Last(placing) => judge_last(&basis, placing, marks),
        Move::First(placing) => judge_first(&basis, placing, marks),
        Move::Pack(link, frames) => judge_pack(&basis, *link, frames.list(), marks),
        Move::Round(orders) => judge_round(&basis, orders.list()),
        Move::Follow(known, weaker) => judge_follow(&basis, known.decision(), weaker.decision()),
        Move::Fill(filling) => judge_fill(&basis, filling, marks),
        Move::FillBack(filling) => judge_fill_back(&basis, filling, marks),
        Move::Waste(wasting) => judge_waste(&basis, wasting, marks),
    }
}

/// By the arc of a decision of the view.
fn judge_go(basis: &Basis<'_>, decision: Decision) -> Result<Shown, Wrong>
    requires sound { IsSound basis.now.view.now }
    requires possible { basis.now.view.now.crossed ≡ false }
    ensures { Judges basis.now (go decision) result }
{
    let view = basis.view;
    let arc = arc_in(view, decision)?;
    let first = News::From(arc.to, basis.least(arc.from) + arc.weight as i128);
    let second = News::Until(arc.from, basis.greatest(arc.to) - arc.weight as i128);
    Ok(basis.two(first, second))
}

/// By the arc of the other side, which is out of reach.
fn judge_turn(basis: &Basis<'_>, decision: Decision) -> Result<Shown, Wrong>
    requires sound { IsSound basis.now.view.now }
    requires possible { basis.now.view.now.crossed ≡ false }
    ensures { Judges basis.now (turn decision) result }
{
    let view = basis.view;
    if !is_conflict(view.timing, decision.triple) {
        return Err(Wrong::NoConflict(decision));
    }
    let arc = arc_at(view, turned(decision));
    let least = basis.least(arc.from) + arc.weight as i128;
    let most = basis.greatest(arc.to);
    if least > most {
        Ok(basis.one(News::Order(decision)))
    } else {
        let stream = arc.to;
        Err(Wrong::InReach {
            stream,
            least,
            most,
        })
    }
}

/// What refutes the view.
#[tactic(auto, unfolding(tsn_model::specs::Argument::refuting))]
fn refuting(basis: &Basis<'_>) -> News
    requires sound { IsSound basis.now.view.now }
    requires possible { basis.now.view.now.crossed ≡ false }
    ensures value { news_of result ≡ refuting (view_of basis.now.view.now) }
    ensures fact { IsFact basis.now.view.now.timing.now (news_of result) }
{
    News::DoneFrom(basis.greatest_done() + 1)
}

/// The fact that is left of a clause.
fn judge_use(basis: &Basis<'_>, number: usize) -> Result<Shown, Wrong>
    requires sound { IsSound basis.now.view.now }
    requires possible { basis.now.view.now.crossed ≡ false }
    requires facts { AreFacts basis.now.view.now.timing.now (clauses_of basis.now.clauses.now) }
    ensures { Judges basis.now (apply number) result }
{
    let Basis { view, clauses } = *basis;
    if number >= clauses.len() {
        let shown = clauses.len();
        return Err(Wrong::NoClause { number, shown });
    }
    match unit_of(view, number, clauses[number].list()) {
        Ok(Some(fact)) => Ok(basis.one(News::of(fact))),
        Ok(None) => Ok(basis.one(refuting(basis))),
        Err(wrong) => Err(wrong),
    }
}

/// The fact of a clause of this number that the view doesn't contradict, if there is one; where there are more, how many.
fn unit_of(view: &View<'_>, number: usize, clause: &[Fact]) -> Result<Option<Fact>, Wrong>
    requires sound { IsSound view.now }
    requires facts { All (IsFact view.now.timing.now) (clause_of clause.now) }
    ensures { FindsUnit (view_of view.now) number (clause_of clause.now) result }
{
    let mut left = None;
    for fact in clause {
        if !view.contradicts(News::of(*fact)) {
            if left.is_some() {
                let left = count_left(view, clause);
                return Err(Wrong::Left { number, left });
            }
            left = Some(*fact);
        }
    }
    Ok(left)
}

/// How many facts the view doesn't contradict.
fn count_left(view: &View<'_>, clause: &[Fact]) -> usize
    ensures { result ≡ length (left_open (view_of view.now) (clause_of clause.now)) }
{
    let mut left = 0;
    for fact in clause {
        if !view.contradicts(News::of(*fact)) {
            left += 1;
        }
    }
    left
}

fn judge_arrive(basis: &Basis<'_>, stream: usize) -> Result<Shown, Wrong>
    requires sound { IsSound basis.now.view.now }
    requires possible { basis.now.view.now.crossed ≡ false }
    ensures { Judges basis.now (arrive stream) result }
{
    let view = basis.view;
    if stream >= view.timing.streams() {
        return Err(Wrong::NoStream(stream));
    }
    let arrival = view.timing.arrival(stream) as i128;
    let first = News::DoneFrom(basis.least(stream) + arrival);
    let second = News::Until(stream, basis.greatest_done() - arrival);
    Ok(basis.two(first, second))
}

/// Whether the frames of a placing are right, whatever it comes to.
fn judge_placed(timing: &Timing, placing: &Placing, marks: &mut Marks) -> Result<(), Wrong>
    ensures { FindsPlacing timing.now placing.now result }
{
    let Marks { others, some, .. } = marks;
    judge_frames(
        timing,
        placing.link,
        placing.frame,
        placing.others.list(),
        others,
    )?;
    judge_choice(others, placing.some.list(), some)
}

/// The frame goes last, since the others can't all be done before what they need together.
fn judge_last(basis: &Basis<'_>, placing: &Placing, marks: &mut Marks) -> Result<Shown, Wrong>
    requires sound { IsSound basis.now.view.now }
    requires possible { basis.now.view.now.crossed ≡ false }
    ensures { Judges basis.now (put_last placing.now.link placing.now.frame placing.now.others placing.now.some) result }
{
    let view = basis.view;
    judge_placed(view.timing, placing, marks)?;
    let Placing { link, frame, .. } = *placing;
    let list = placing.others.list();
    let others = load_all(view, link, list);
    let all = load_with(view, link, frame, list);
    let some = load_all(view, link, placing.some.list());
    let visit = visit_of(view.timing, link, frame);
    let free = some.head + some.work as i128 - visit.begin as i128;
    let bound = all.head + all.work as i128;
    let news = News::From(frame.stream, free);
    shown_without(link, bound, others.end, true, news)
}

/// The frame goes first, since the others can't all begin so late that it fits behind one of them.
fn judge_first(basis: &Basis<'_>, placing: &Placing, marks: &mut Marks) -> Result<Shown, Wrong>
    requires sound { IsSound basis.now.view.now }
    requires possible { basis.now.view.now.crossed ≡ false }
    ensures { Judges basis.now (put_first placing.now.link placing.now.frame placing.now.others placing.now.some) result }
{
    let view = basis.view;
    judge_placed(view.timing, placing, marks)?;
    let Placing { link, frame, .. } = *placing;
    let list = placing.others.list();
    let others = load_all(view, link, list);
    let all = load_with(view, link, frame, list);
    let some = load_all(view, link, placing.some.list());
    let visit = visit_of(view.timing, link, frame);
    let needed = some.end - some.work as i128 - visit.begin as i128 - visit.work as i128;
    let bound = others.head + all.work as i128;
    let news = News::Until(frame.stream, needed);
    shown_without(link, bound, all.end, false, news)
}

/// That the fact is shown, where there is no room on the link: the bound of the frames' use is past the end, by which all of them,
/// or all others than the one that is placed, are done.
fn shown_without(
    link: usize,
    bound: i128,
    end: i128,
    of_others: bool,
    news: News,
) -> Result<Shown, Wrong>
    ensures { ShowsWithout link bound end of_others (news_of news) result }
{
    if end < bound {
        Ok(Shown::one(news))
    } else {
        Err(Wrong::Room {
            link,
            bound,
            end,
            of_others,
        })
    }
}

/// Whether the frames have no room on the link.
fn judge_pack(
    basis: &Basis<'_>,
    link: usize,
    frames: &[Frame],
    marks: &mut Marks,
) -> Result<Shown, Wrong>
    requires sound { IsSound basis.now.view.now }
    requires possible { basis.now.view.now.crossed ≡ false }
    requires some { 1 ≤ length frames.now }
    requires few { length frames.now ≤ 65_536 }
    ensures { Judges basis.now (pack link frames.now) result }
{
    let view = basis.view;
    let [first, others @ ..] = frames else {
        unreachable!();
    };
    judge_frames(view.timing, link, *first, others, &mut marks.others)?;
    let all = load_all(view, link, frames);
    let bound = all.head + all.work as i128;
    shown_without(link, bound, all.end, false, refuting(basis))
}

/// The frame begins no earlier, since sums of works leave too much at each place before.
#[tactic(auto, unfolding(tsn_model::specs::Argument::shown))]
fn judge_fill(basis: &Basis<'_>, filling: &Filling, marks: &mut Marks) -> Result<Shown, Wrong>
    requires sound { IsSound basis.now.view.now }
    requires possible { basis.now.view.now.crossed ≡ false }
    ensures { Judges basis.now (fill filling.now.link filling.now.frame filling.now.others (edge_of filling.now.before) (edge_of filling.now.after) filling.now.bound) result }
{
    let view = basis.view;
    judge_filling(view, filling, false, marks)?;
    let visit = visit_of(view.timing, filling.link, filling.frame);
    let least = filling.bound as i128 - visit.begin as i128;
    Ok(basis.one(News::From(filling.frame.stream, least)))
}

/// The frame ends no later, since sums of works leave too much at each place behind.
#[tactic(auto, unfolding(tsn_model::specs::Argument::shown))]
fn judge_fill_back(basis: &Basis<'_>, filling: &Filling, marks: &mut Marks) -> Result<Shown, Wrong>
    requires sound { IsSound basis.now.view.now }
    requires possible { basis.now.view.now.crossed ≡ false }
    ensures { Judges basis.now (fill_back filling.now.link filling.now.frame filling.now.others (edge_of filling.now.before) (edge_of filling.now.after) filling.now.bound) result }
{
    let view = basis.view;
    judge_filling(view, filling, true, marks)?;
    let visit = visit_of(view.timing, filling.link, filling.frame);
    let most = filling.bound as i128 - (visit.begin + visit.work) as i128;
    Ok(basis.one(News::Until(filling.frame.stream, most)))
}

/// Whether the frames leave more of their rooms than they may.
#[tactic(auto, unfolding(tsn_model::specs::Argument::shown))]
fn judge_waste(basis: &Basis<'_>, wasting: &Wasting, marks: &mut Marks) -> Result<Shown, Wrong>
    requires sound { IsSound basis.now.view.now }
    requires possible { basis.now.view.now.crossed ≡ false }
    ensures { Judges basis.now (waste wasting.now.link wasting.now.frames wasting.now.fixed) result }
{
    let view = basis.view;
    let link = wasting.link;
    let (lost, idle) = lost_in(view, wasting, marks)?;
    if idle < lost {
        Ok(basis.one(refuting(basis)))
    } else {
        Err(Wrong::Filled { link, lost, idle })
    }
}

/// Whether the orders lead back to where they begin, and later than they began.
#[tactic(auto, unfolding(tsn_model::specs::Argument::shown))]
fn judge_round(basis: &Basis<'_>, orders: &[Order]) -> Result<Shown, Wrong>
    requires sound { IsSound basis.now.view.now }
    requires possible { basis.now.view.now.crossed ≡ false }
    requires some { 1 ≤ length orders.now }
    requires few { length orders.now ≤ 128 }
    ensures { Judges basis.now (round (map decision_of orders.now)) result }
{
    let view = basis.view;
    let weight = weight_round(view, orders)?;
    if weight > 0 {
        Ok(basis.one(refuting(basis)))
    } else {
        Err(Wrong::Weight(weight))
    }
}

/// What the weights of the orders add up to, in nanoseconds, where they are the view's and lead back to where they begin.
fn weight_round(view: &View<'_>, orders: &[Order]) -> Result<i64, Wrong>
    requires sound { IsSound view.now }
    requires some { 1 ≤ length orders.now }
    requires few { length orders.now ≤ 128 }
    ensures { FindsRound view.now.timing.now (view_of view.now) (map decision_of orders.now) result }
{
    let start = arc_in(view, orders[0].decision())?.from;
    let mut at = start;
    let mut weight = 0;
    for order in orders {
        let arc = arc_in(view, order.decision())?;
        if arc.from != at {
            return Err(Wrong::NotClosed);
        }
        at = arc.to;
        weight += arc.weight;
    }
    if at == start {
        Ok(weight)
    } else {
        Err(Wrong::NotClosed)
    }
}

/// By the arc of a decision of the view, which asks for no less than that of the other one does between the same streams.
#[tactic(auto, unfolding(tsn_model::specs::Argument::shown))]
fn judge_follow(basis: &Basis<'_>, known: Decision, weaker: Decision) -> Result<Shown, Wrong>
    requires sound { IsSound basis.now.view.now }
    ensures { Judges basis.now (follow known weaker) result }
{
    let view = basis.view;
    let arc = arc_in(view, known)?;
    if !is_conflict(view.timing, weaker.triple) {
        return Err(Wrong::NoConflict(weaker));
    }
    let other = arc_of(view.timing, weaker);
    if !are_alike(other, arc) {
        return Err(Wrong::OfOthers);
    }
    if other.weight <= arc.weight {
        Ok(basis.one(News::Order(weaker)))
    } else {
        Err(Wrong::Stronger {
            decision: weaker,
            asked: other.weight,
            known: arc.weight,
        })
    }
}

/// Whether the arcs lead from the same stream to the same other one.
fn are_alike(arc: Arc, other: Arc) -> bool
    ensures { MatchBool result (AreAlike arc other) (AreAlike arc other → ⊥) }
{
    arc.from == other.from && arc.to == other.to
}

/// What a decision on a conflict asks for.
#[tactic(auto, using(crate::proofs::MotionLemmas::arc_there))]
fn arc_at(view: &View<'_>, decision: Decision) -> Arc
    requires { IsConflict view.now.timing.now decision.triple }
    ensures is { result ≡ model_arc_of view.now.timing.now decision }
    ensures from { result.from < stream_count view.now.timing.now }
    ensures to { result.to < stream_count view.now.timing.now }
    ensures small { IsSmall result }
{
    arc_of(view.timing, decision)
}

/// The arc of a decision that the view has.
fn arc_in(view: &View<'_>, decision: Decision) -> Result<Arc, Wrong>
    requires sound { IsSound view.now }
    ensures { FindsArc view.now.timing.now (view_of view.now) decision result }
{
    if view.orders.has(decision) {
        Ok(arc_at(view, decision))
    } else {
        Err(Wrong::NoOrder(decision))
    }
}

// ---- what a move uses of what is known

/// Tells what the move uses for the first fact that it shows.
pub fn read_first<R: Reader>(reader: &mut R, view: &View<'_>, clauses: &[&Clause], motion: &Move) {
    match motion {
        Move::Go(order) => {
            reader.read(Use::order(*order));
            reader.read(Use::Least(order.first));
        }
        Move::Turn(order) => {
            reader.read(Use::Least(order.second));
            reader.read(Use::Greatest(order.first));
        }
        Move::Use(number) => read_clause(reader, view, clauses, *number),
        Move::Arrive(stream) => reader.read(Use::Least(*stream)),
        Move::Last(placing) => {
            reader.read(Use::Least(placing.frame.stream));
            read_frames(reader, placing.others.list());
        }
        Move::First(placing) => {
            reader.read(Use::Greatest(placing.frame.stream));
            read_frames(reader, placing.others.list());
        }
        Move::Pack(_, frames) => read_frames(reader, frames.list()),
        Move::Round(orders) => read_orders(reader, orders.list()),
        Move::Follow(known, _) => reader.read(Use::order(*known)),
        Move::Fill(filling) | Move::FillBack(filling) => {
            read_frames(reader, &[filling.frame]);
            read_frames(reader, filling.others.list());
        }
        Move::Waste(wasting) => read_frames(reader, wasting.frames.list()),
    }
}

/// Tells what the move uses for the second fact that it shows, if it does.
pub fn read_second<R: Reader>(reader: &mut R, motion: &Move) {
    match motion {
        Move::Go(order) => {
            reader.read(Use::order(*order));
            reader.read(Use::Greatest(order.second));
        }
        Move::Arrive(_) => reader.read(Use::GreatestDone),
        _ => {}
    }
}

// The clause, and what contradicts its facts.
fn read_clause<R: Reader>(reader: &mut R, view: &View<'_>, clauses: &[&Clause], number: usize) {
    reader.read(Use::Clause(number));
    let Some(clause) = clauses.get(number) else {
        return;
    };
    for fact in clause.list() {
        let news = News::of(*fact);
        if view.contradicts(news) {
            reader.read(Use::against(news));
        }
    }
}

fn read_frames<R: Reader>(reader: &mut R, frames: &[Frame]) {
    for frame in frames {
        reader.read(Use::Least(frame.stream));
        reader.read(Use::Greatest(frame.stream));
    }
}

fn read_orders<R: Reader>(reader: &mut R, orders: &[Order]) {
    for order in orders {
        reader.read(Use::order(*order));
    }
}
