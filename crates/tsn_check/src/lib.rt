//! Checks plans and their certificates, and stands alone: its yes implies the optimum, its no names the first fault.
#![tactic(auto)]

pub mod argument;
pub mod chain;
mod claim;
pub mod fault;
pub mod laws;
mod leaf;
mod load;
pub mod path;
pub mod plan;
mod tie;
mod tree;
pub mod verdict;
pub mod why;
pub mod wrong;

pub use argument::{ArgumentFault, Open, StepFault};
pub use fault::CheckFault;
pub use plan::{check_plan, judge_claim, judge_plan};
pub use verdict::{Verdict, check, judge_tree};
pub use why::{NodeFault, PlanFault, Shortfall, TreeFault};
pub use wrong::Wrong;
