//! Who observes the steps of an argument as they are checked.
ghost use Rattle.std.specs.Prelude.{◌≡◌, [], ◌∷◌, List, Option, None, All};
ghost use Rattle.tsn_model.specs.Argument.{IsFact};
ghost use Rattle.tsn_cert.specs.Move.{move_of};
ghost use Rattle.tsn_cert.specs.Argument.{step_of};
ghost use Rattle.tsn_argue.specs.State.{view_of, base_of, IsSound};
ghost use Rattle.tsn_argue.specs.Motion.{facts_of, clauses_of};
ghost use Rattle.tsn_argue.specs.Told.{Event, begins, makes, ends, with_told, IsMade};

use crate::motion::Shown;
use crate::view::View;
use tsn_cert::{Clause, Move, Step};

/// Observes the steps of an argument: it is told of each move that was made, in their order, and of no other.
pub trait Observer {
    /// What was heard so far, where the observer can tell it.
    ghost heard: { Self → Option (List Event) };

    /// A step begins, where the view is the ground.
    fn begin(&mut self, view: &View<'_>, step: &Step)
        requires sound { IsSound view.now }
        requires even { view_of view.now ≡ base_of view.now }
        requires facts { All (IsFact view.now.timing.now) (step_of step.now).clause }
        ensures { heard self.new ≡ with_told (heard self.old) (begins (view_of view.now) (step_of step.now) ∷ []) };

    /// A move is made on a view, where these clauses were shown before, and shows something, which the view is to learn.
    fn make(&mut self, view: &View<'_>, clauses: &[&Clause], motion: &Move, shown: Shown)
        requires sound { IsSound view.now }
        requires made { IsMade view.now.timing.now (clauses_of clauses.now) (view_of view.now) (move_of motion.now) (facts_of shown) }
        ensures { heard self.new ≡ with_told (heard self.old) (makes (view_of view.now) (move_of motion.now) (facts_of shown) ∷ []) };

    /// A step ends, with this view: its clause is shown.
    fn end(&mut self, view: &View<'_>, step: &Step)
        requires sound { IsSound view.now }
        ensures { heard self.new ≡ with_told (heard self.old) (ends (view_of view.now) (step_of step.now) ∷ []) };
}

/// Hears nothing.
#[derive(Clone, Copy)]
pub struct Silent;

impl Observer for Silent {
    ghost heard = { λ _. None };

    fn begin(&mut self, _view: &View<'_>, _step: &Step) {}

    fn make(&mut self, _view: &View<'_>, _clauses: &[&Clause], _motion: &Move, _shown: Shown) {}

    fn end(&mut self, _view: &View<'_>, _step: &Step) {}
}
