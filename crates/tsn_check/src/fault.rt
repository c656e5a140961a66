//! Why a plan or its certificate is refused.
ghost use Rattle.std.specs.Prelude.{◌≡◌};
ghost use Rattle.tsn_check.specs.Numbers.{number_of, node_of};

use thiserror::Error;

/// Why a plan or its certificate is refused: the first fault, the nodes of the certificate numbered from 0.
#[derive(Clone, Copy, Debug, PartialEq, Eq, Error)]
pub enum CheckFault {
    /// The plan is no valid schedule.
    #[error("the plan is no valid schedule")]
    PlanInvalid,
    /// The flowspan isn't that of the offsets; or the target isn't the flowspan, or one more than the cycle where the plan is that there is none.
    #[error("the flowspan or the target is wrong")]
    FlowspanWrong,
    /// The nodes end while a place of the tree is open; there are so many of them.
    #[error("the tree is unfinished after {0} nodes")]
    TreeUnfinished(usize),
    /// The node stands after the tree's end.
    #[error("node {0} stands after the tree's end")]
    TreeTooLong(usize),
    /// The node branches on what isn't a link of two streams, the lesser one on the left, and a lag of theirs.
    #[error("node {0} branches on no conflict")]
    NotConflict(usize),
    /// The leaf names a stream that isn't there, or its depths, or those of one of its entries, are no chain of its path that
    /// ends as it has to.
    #[error("the chain of node {0} is broken")]
    ChainBroken(usize),
    /// The leaf's inequality fails.
    #[error("the bound of node {0} is too low")]
    BoundTooLow(usize),
    /// An entry of the leaf has the frame of an entry before it.
    #[error("node {0} has a frame twice")]
    StreamRepeated(usize),
    /// The frame of an entry of the leaf isn't sent, or its stream isn't there or doesn't use the leaf's link.
    #[error("node {0} has a stream that doesn't use its link")]
    NotOnLink(usize),
    /// A growth was refused. It may come in place of any other answer.
    #[error("no memory")]
    Memory,
}

impl CheckFault {
    /// The number by which the fault is told.
    pub fn number(self) -> u8
        ensures { result ≡ number_of self }
    {
        match self {
            CheckFault::PlanInvalid => 1,
            CheckFault::FlowspanWrong => 2,
            CheckFault::TreeUnfinished(_) => 3,
            CheckFault::TreeTooLong(_) => 4,
            CheckFault::NotConflict(_) => 5,
            CheckFault::ChainBroken(_) => 6,
            CheckFault::BoundTooLow(_) => 7,
            CheckFault::StreamRepeated(_) => 8,
            CheckFault::NotOnLink(_) => 9,
            CheckFault::Memory => 10,
        }
    }

    /// The number of the node that is at fault, if one is.
    pub fn node(self) -> Option<usize>
        ensures { result ≡ node_of self }
    {
        match self {
            CheckFault::TreeUnfinished(node)
            | CheckFault::TreeTooLong(node)
            | CheckFault::NotConflict(node)
            | CheckFault::ChainBroken(node)
            | CheckFault::BoundTooLow(node)
            | CheckFault::StreamRepeated(node)
            | CheckFault::NotOnLink(node) => Some(node),
            CheckFault::PlanInvalid | CheckFault::FlowspanWrong | CheckFault::Memory => None,
        }
    }
}
