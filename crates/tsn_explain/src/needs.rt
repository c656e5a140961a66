//! What the moves of an argument need, and those by which it shows that no flowspan is below its target. What a step supposes counts
//! as a move, and so does each of the two facts that a move may show.
ghost use Rattle.std.specs.Prelude.{None};

use std::alloc::{AllocError, Global};
use std::collections::{BTreeMap, BTreeSet};
use tsn_argue::{News, Observer, Reader, Shown, Use, View, hear_argument, read_first, read_second};
use tsn_cert::{Argument, Certificate, Clause, Move, Plan, Step};
use tsn_check::CheckFault;
use tsn_model::NoMemory;
use tsn_timing::Problem;

// Where an argument shows a fact: the number of a step, and the place there: 0 for what it supposes, 1 and 2 for its first move, and
// so on.
type Source = (usize, usize);

/// The moves by which an argument shows that no flowspan is below its target, and their steps.
#[derive(Drop)]
pub struct Part {
    /// The steps, in their order.
    pub steps: Vec<usize>,
    needed: BTreeSet<Source>,
}

impl Part {
    /// Whether the first fact of a step's move of this number is needed: what it says of the second stream of an order, of the
    /// flowspan, or at all.
    pub fn has_first(&self, step: usize, number: usize) -> bool {
        let place = number.wrapping_mul(2).wrapping_add(1);
        self.needed.contains(&(step, place))
    }

    /// Whether its second fact is: what it says of the first stream of an order, or of the stream that arrives.
    pub fn has_second(&self, step: usize, number: usize) -> bool {
        let place = number.wrapping_mul(2).wrapping_add(2);
        self.needed.contains(&(step, place))
    }

    /// Whether a step's move of this number is told by itself: by when streams have to arrive is told of all at once.
    pub fn is_told(&self, step: usize, number: usize, motion: &Move) -> bool {
        match motion {
            Move::Arrive(_) => self.has_first(step, number),
            _ => self.has_first(step, number) || self.has_second(step, number),
        }
    }

    /// How many of the moves of a step are told by themselves.
    pub fn moves_told(&self, number: usize, step: &Step) -> usize {
        let mut told: usize = 0;
        for (place, motion) in step.moves.list().iter().enumerate() {
            if self.is_told(number, place, motion) {
                told = told.wrapping_add(1);
            }
        }
        told
    }

    /// How many moves of all its steps are told by themselves.
    pub fn all_told(&self, argument: &Argument) -> usize {
        let mut told: usize = 0;
        for number in &self.steps {
            if let Some(step) = argument.steps.list().get(*number) {
                told = told.wrapping_add(self.moves_told(*number, step));
            }
        }
        told
    }
}

/// Observes from where each part of the ground and of the view is, and what each move needs.
#[derive(Drop)]
pub struct Tracker {
    alloc: Global,
    // The flowspan that the steps have to reach, or to be past what is possible.
    target: i128,
    ground: BTreeMap<Use, Source>,
    // What differs from the ground.
    view: BTreeMap<Use, Source>,
    // How many clauses were shown.
    clauses: usize,
    // Where the argument is.
    now: Source,
    // Where something was needed, in the argument's order, and from where that is.
    needs: Vec<(Source, Source)>,
    // What the ground learns where the step under way ends, and whether that contradicts it.
    kept: Option<(News, bool)>,
    // Where the target is shown.
    showing: Option<Source>,
    is_refused: bool,
}

impl Observer for Tracker {
    ghost heard = { λ _. None };

    fn begin(&mut self, ground: &View<'_>, step: &Step) {
        self.now.1 = 0;
        let facts = step.clause.list();
        for fact in facts {
            if let Some((news, is_against)) = unknown(ground, News::opposite_of(*fact)) {
                self.note(news, is_against);
            }
        }
        self.kept = match facts {
            [fact] => unknown(ground, News::of(*fact)),
            _ => None,
        };
    }

    fn make(&mut self, view: &View<'_>, clauses: &[&Clause], motion: &Move, shown: Shown) {
        self.go_on();
        if let Some((news, is_against)) = unknown(view, shown.first) {
            read_first(self, view, clauses, motion);
            self.note(news, is_against);
            if is_against {
                return;
            }
        }
        self.go_on();
        let Some(second) = shown.second else {
            return;
        };
        if let Some((news, is_against)) = unknown(view, second) {
            read_second(self, motion);
            self.note(news, is_against);
        }
    }

    fn end(&mut self, view: &View<'_>, step: &Step) {
        if step.clause.list().is_empty() {
            self.keep();
            self.show(view.crossed, view.done.low);
        } else {
            self.view = BTreeMap::new(self.alloc);
            let clause = Use::Clause(self.clauses);
            self.is_refused |= self.ground.insert(clause, self.now).is_err();
            self.clauses = self.clauses.wrapping_add(1);
            self.keep_news();
        }
        self.now.0 = self.now.0.wrapping_add(1);
    }
}

impl Reader for Tracker {
    fn read(&mut self, part: Use) {
        if let Some(source) = self.source_of(part) {
            self.is_refused |= self.needs.push((self.now, source)).is_err();
        }
    }
}

impl Tracker {
    /// What observed an argument of a plan, if that is accepted.
    pub fn of(
        alloc: Global,
        problem: &Problem,
        plan: &Plan,
        certificate: &Certificate,
    ) -> Result<Option<Tracker>, NoMemory> {
        let mut tracker = Tracker::new(alloc, certificate);
        let Certificate::Argument(argument) = certificate else {
            return Ok(None);
        };
        match hear_argument(alloc, problem, plan, argument, &mut tracker) {
            Ok(_) => Ok(Some(tracker)),
            Err(CheckFault::Memory) => Err(NoMemory),
            Err(_) => Ok(None),
        }
    }

    /// Before the first step of an argument; of a tree it is told nothing.
    pub fn new(alloc: Global, certificate: &Certificate) -> Tracker {
        let target = match certificate {
            Certificate::Argument(argument) => argument.target as i128,
            Certificate::Tree(_) => 0,
        };
        Tracker {
            alloc,
            target,
            ground: BTreeMap::new(alloc),
            view: BTreeMap::new(alloc),
            clauses: 0,
            now: (0, 0),
            needs: Vec::new(alloc),
            kept: None,
            showing: None,
            is_refused: false,
        }
    }

    // The next fact of a move begins.
    fn go_on(&mut self) {
        self.now.1 = self.now.1.wrapping_add(1);
    }

    // From where a part is, if it is from a step.
    fn source_of(&self, part: Use) -> Option<Source> {
        self.view.get(&part).or(self.ground.get(&part)).copied()
    }

    // A fact is shown here.
    fn note(&mut self, news: News, is_against: bool) {
        self.is_refused |= self.view.insert(Use::of(news), self.now).is_err();
        if is_against {
            self.read(Use::against(news));
        }
    }

    // The ground learns the one fact of a step.
    fn keep_news(&mut self) {
        let Some((news, is_against)) = self.kept else {
            return;
        };
        self.note(news, is_against);
        self.keep();
        let low = match news {
            News::DoneFrom(low) => low,
            _ => 0,
        };
        self.show(is_against, low);
    }

    // Makes the view the ground.
    fn keep(&mut self) {
        for (part, source) in &self.view {
            self.is_refused |= self.ground.insert(*part, *source).is_err();
        }
        self.view = BTreeMap::new(self.alloc);
    }

    // The target is shown, where the ground is impossible or nothing is done before, unless it was before.
    fn show(&mut self, is_impossible: bool, low: i128) {
        if self.showing.is_some() {
            return;
        }
        if is_impossible {
            self.showing = Some(self.now);
        } else if low >= self.target {
            self.showing = self.source_of(Use::LeastDone);
        }
    }

    /// The moves that show that no flowspan is below the target: the one after which that is known, and those that it needs.
    pub fn into_part(self) -> Result<Part, AllocError> {
        if self.is_refused {
            return Err(AllocError);
        }
        let needed = self.needed()?;
        let mut steps = Vec::new(self.alloc);
        for (step, _) in &needed {
            if steps.last() != Some(step) {
                steps.push(*step)?;
            }
        }
        Ok(Part { steps, needed })
    }

    // Where the target is shown, and what that needs.
    fn needed(&self) -> Result<BTreeSet<Source>, AllocError> {
        let mut needed = BTreeSet::new(self.alloc);
        if let Some(source) = self.showing {
            needed.insert(source)?;
        }
        for (place, source) in self.needs.iter().rev() {
            if needed.contains(place) {
                needed.insert(*source)?;
            }
        }
        Ok(needed)
    }
}

// The fact, where the view doesn't know it, and whether a number of the view contradicts it.
fn unknown(view: &View<'_>, news: News) -> Option<(News, bool)> {
    if view.knows(news) {
        return None;
    }
    match news {
        News::Order(_) => Some((news, false)),
        _ => Some((news, view.contradicts(news))),
    }
}
