//! Why a plan or its tree is refused, with the numbers that show it. Times are in nanoseconds.
ghost use Rattle.std.specs.Prelude.{◌≡◌};
ghost use Rattle.tsn_check.specs.Numbers.{plan_code, node_code, code_of};

use crate::fault::CheckFault;
use std::alloc::{AllocError, AllocFailed};
use tsn_model::{NoMemory, Violation};

/// Why a plan is refused.
#[derive(Clone, Copy)]
pub enum PlanFault {
    /// It is that there is no schedule, where one is asked for.
    NoSchedule,
    /// Its offsets are no valid schedule, for this first reason.
    Invalid(Violation),
    /// Its flowspan isn't that of its offsets.
    Flowspan { stated: u64, wanted: u64 },
    /// A growth was refused. It may come in place of any other answer.
    Memory,
}

/// What a leaf comes to, which is less than it has to show.
#[derive(Clone, Copy)]
pub enum Shortfall {
    /// The bound of each flowspan on its path is below what it has to be at least.
    Bound {
        bound: i64,
        least: u64,
    },
    /// The bound of the stream's end isn't past its period's end, nor that of its arrival past its latest instant.
    Overrun {
        stream: usize,
        end: i64,
        period: u64,
        cycle: u64,
        arrival: i64,
        latest: u64,
    },
    /// What the weights of its chain add up to isn't above 0.
    Cycle {
        sum: i64,
    },
    /// The bound of the link's use isn't past the cycle's end.
    Overload {
        link: usize,
        end: i64,
        cycle: u64,
    },
}

/// What is wrong with a node at the end of its path.
#[derive(Clone, Copy)]
pub enum NodeFault {
    /// It branches on what isn't a link of two streams, the lesser one on the left, and a lag of theirs.
    NotConflict,
    /// It names a stream that isn't there, or its depths, or those of one of its entries, are no chain of its path that ends as
    /// it has to.
    ChainBroken,
    /// An entry has the frame of an entry before it.
    StreamRepeated,
    /// An entry has a frame that its stream doesn't send.
    NotSent,
    /// The stream of an entry isn't there, or doesn't use the link.
    NotOnLink,
    /// It is a leaf, and shows less than it has to.
    TooLow(Shortfall),
    /// It is a tie, and its bound is below the plan's flowspan.
    TieTooLow(Shortfall),
    /// It is a tie, and the plan is that there is no schedule.
    TieOfNone,
    /// It is a tie, and its chains don't show that each schedule on its path is the plan or comes after it.
    TieSooner,
}

/// Why a plan or its tree is refused: the first fault, the nodes numbered from 0.
#[derive(Clone, Copy)]
pub enum TreeFault {
    /// The plan is wrong.
    Plan(PlanFault),
    /// The target isn't the one that the plan asks for.
    Target { stated: u64, wanted: u64 },
    /// The nodes end while a place of the tree is open; there are so many of them.
    Unfinished(usize),
    /// The node stands after the tree's end.
    TooLong(usize),
    /// The node is wrong.
    Node(usize, NodeFault),
    /// A growth was refused. It may come in place of any other answer.
    Memory,
}

impl PlanFault {
    /// The fault that it is.
    pub fn code(self) -> CheckFault
        ensures { result ≡ plan_code self }
    {
        match self {
            PlanFault::NoSchedule | PlanFault::Invalid(_) => CheckFault::PlanInvalid,
            PlanFault::Flowspan { .. } => CheckFault::FlowspanWrong,
            PlanFault::Memory => CheckFault::Memory,
        }
    }
}

impl NodeFault {
    /// The fault that it is, of the node of this number.
    fn code(self, node: usize) -> CheckFault
        ensures { result ≡ node_code node self }
    {
        match self {
            NodeFault::NotConflict => CheckFault::NotConflict(node),
            NodeFault::ChainBroken => CheckFault::ChainBroken(node),
            NodeFault::StreamRepeated => CheckFault::StreamRepeated(node),
            NodeFault::NotSent | NodeFault::NotOnLink => CheckFault::NotOnLink(node),
            NodeFault::TooLow(_)
            | NodeFault::TieTooLow(_)
            | NodeFault::TieOfNone
            | NodeFault::TieSooner => CheckFault::BoundTooLow(node),
        }
    }
}

impl TreeFault {
    /// The fault that it is.
    pub fn code(self) -> CheckFault
        ensures { result ≡ code_of self }
    {
        match self {
            TreeFault::Plan(fault) => fault.code(),
            TreeFault::Target { .. } => CheckFault::FlowspanWrong,
            TreeFault::Unfinished(count) => CheckFault::TreeUnfinished(count),
            TreeFault::TooLong(node) => CheckFault::TreeTooLong(node),
            TreeFault::Node(node, fault) => fault.code(node),
            TreeFault::Memory => CheckFault::Memory,
        }
    }
}

impl From<AllocError> for PlanFault {
    ghost use Rattle.std.specs.Prelude.{◌≡◌};
    ghost use Rattle.tsn_check.specs.declared.why.PlanFault.TheVariants.{Memory};

    ghost from_gives = { λ _ fault. fault ≡ Memory };

    fn from(_refused: AllocError) -> PlanFault {
        PlanFault::Memory
    }
}

impl From<PlanFault> for TreeFault {
    ghost use Rattle.std.specs.Prelude.{◌≡◌};
    ghost use Rattle.tsn_check.specs.declared.why.TreeFault.TheVariants.{Plan};

    ghost from_gives = { λ wrong fault. fault ≡ Plan wrong };

    fn from(wrong: PlanFault) -> TreeFault {
        TreeFault::Plan(wrong)
    }
}

impl From<NoMemory> for TreeFault {
    ghost use Rattle.std.specs.Prelude.{◌≡◌};
    ghost use Rattle.tsn_check.specs.declared.why.TreeFault.TheVariants.{Memory};

    ghost from_gives = { λ _ fault. fault ≡ Memory };

    fn from(_refused: NoMemory) -> TreeFault {
        TreeFault::Memory
    }
}

impl<T: Drop> From<AllocFailed<T>> for TreeFault {
    ghost use Rattle.std.specs.Prelude.{◌≡◌};
    ghost use Rattle.tsn_check.specs.declared.why.TreeFault.TheVariants.{Memory};

    ghost from_gives = { λ _ fault. fault ≡ Memory };

    fn from(_refused: AllocFailed<T>) -> TreeFault {
        TreeFault::Memory
    }
}
