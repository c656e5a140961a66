//! The goal of an argument, read and printed.
ghost use Rattle.std.specs.Prelude.{◌≡◌};
ghost use Rattle.tsn_cert.specs.Argument.{goal_form, goal_named, goal_word};
ghost use Rattle.tsn_codec.specs.Takes.{Takes};

use crate::tokens::{Tokens, Unread};
use tsn_cert::Goal;

/// The goal of this word.
pub(super) fn goal_named(word: &str) -> Option<Goal>
    ensures { result ≡ goal_named word.now }
{
    if word == "first" {
        Some(Goal::First)
    } else if word == "least" {
        Some(Goal::Least)
    } else if word == "none" {
        Some(Goal::None)
    } else {
        None
    }
}

pub(super) fn goal(tokens: &mut Tokens<'_>) -> Result<Goal, Unread>
    ensures { Takes (λ goal. goal) result (goal_form.taken tokens.old) tokens.new }
{
    let word = tokens.word()?;
    goal_named(word).ok_or(Unread::OtherForm)
}

pub(super) fn goal_word(goal: Goal) -> &'static str
    ensures { result.now ≡ goal_word goal }
{
    match goal {
        Goal::First => "first",
        Goal::Least => "least",
        Goal::None => "none",
    }
}
