//! The background of a replay.

use std::marker::Model;

/// A background frame that waits on a directed link from its wanted start (nanoseconds) on. Its octets count from the
/// destination address to the check sequence.
#[derive(Clone, Copy, PartialEq, Eq)]
pub struct BackgroundFrame {
    pub link: usize,
    pub wanted: u64,
    pub octets: u64,
}

impl Model for BackgroundFrame {
    ghost use Rattle.tsn_replay.specs.Values.{FrameValue};

    ghost Value = { FrameValue };

    ghost view = { λ f. record { link = f.link; wanted = f.wanted; octets = f.octets } };

    ghost inverse = { λ f. record { link = f.link; wanted = f.wanted; octets = f.octets } };
}

/// Which background frames wait in a replay.
#[derive(Drop)]
pub enum Background {
    /// None.
    Nothing,
    /// One of 1522 octets, always, on each link with a gate control list.
    Greedy,
    /// Those of a list: on each link in order of their wanted start, then of their number in the list.
    Listed(Vec<BackgroundFrame>),
}

impl Background {
    ghost use Rattle.std.specs.Prelude.{◌≡◌};
    ghost use Rattle.tsn_replay.specs.Feeding.{background_for, background_of};
    ghost use Rattle.tsn_replay.specs.Faults.{frames_of};

    /// The background that is asked for: `Greedy`, or nothing.
    pub fn of(greedy: bool) -> Background
        ensures { background_of result ≡ background_for greedy }
    {
        if greedy {
            Background::Greedy
        } else {
            Background::Nothing
        }
    }

    /// The frames of a list; else none.
    pub(crate) fn frames(&self) -> &[BackgroundFrame]
        ensures { result.now ≡ frames_of (background_of self.now) }
    {
        match self {
            Background::Nothing | Background::Greedy => &[],
            Background::Listed(frames) => frames,
        }
    }
}
