//! Plans and certificates, and what the files that hold them say. A certificate is of either kind: a tree of nodes, or an argument, whose
//! steps each show a clause.
#![tactic(auto)]

pub mod argument;
pub mod cert;
pub mod certificate;
pub mod chain;
pub mod entry;
pub mod fact;
pub mod fault;
pub mod leaf;
pub mod limited;
pub mod limits;
pub mod listed;
pub mod motion;
pub mod order;
pub mod plan;
pub mod refused;
pub mod step;

pub use argument::{Argument, Goal};
pub use cert::{Cert, Format, Node, Nodes};
pub use certificate::Certificate;
pub use chain::{Chain, Chains};
pub use entry::{Entries, Entry};
pub use fact::{Clause, Fact};
pub use fault::FileFault;
pub use leaf::{Leaf, LowerBound};
pub use limited::Limited;
pub use listed::{Listed, Sequence};
pub use motion::{Edge, Filling, Frames, Move, Moves, Placing, Wasting};
pub use order::{Order, Orders};
pub use plan::{Offsets, Plan};
pub use refused::{Excess, Key, Misfit, Part, Refused};
pub use step::{Step, Steps};
