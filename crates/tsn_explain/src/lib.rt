//! Why no schedule is done before a plan is, or why there is none, in words for engineers: what a certificate that was accepted
//! shows, by its links and frames. For that, what it needs to show it: the moves of an argument, and the loads of a tree's leaves; and
//! the frames that they are about. Nothing is claimed of all this but that each call is safe and returns.
#![tactic(auto)]

mod argument;
mod busy;
mod count;
mod leaf;
mod load;
mod marked;
mod motion;
mod narrator;
mod needs;
mod network;
mod path;
mod tree;
mod words;
mod writer;

use crate::network::TimedNetwork;
use crate::writer::Writer;
pub use marked::marked_frames;
pub use needs::Tracker;
use std::alloc::Global;
pub use tree::is_large;
use tsn_cert::{Certificate, Plan};
use tsn_model::NoMemory;
use tsn_timing::Problem;

/// Why no schedule is done before the plan is, or why there is none: lines that each end in a line feed. Instants are in
/// nanoseconds from the cycle's start. The steps of an argument are numbered from 0, as they stand in its file. The certificate is
/// one that was accepted for the plan, and the tracker observed an argument's steps then; of others the words are wrong. The error
/// says that there was no memory.
pub fn explanation(
    alloc: Global,
    problem: &Problem,
    plan: &Plan,
    certificate: &Certificate,
    tracker: Tracker,
) -> Result<String, NoMemory> {
    let network = TimedNetwork {
        problem,
        timing: problem.timing(),
    };
    let mut writer = Writer::new(alloc, network);
    writer.push_claim(plan);
    match certificate {
        Certificate::Tree(cert) => writer.push_tree(cert)?,
        Certificate::Argument(argument) => writer.push_argument(
            plan,
            argument,
            tracker.into_part()?,
        )?,
    }
    Ok(writer.finish()?)
}

/// The same of a large tree, by an argument that shows as much and was accepted, which the tracker observed.
pub fn explanation_by(
    alloc: Global,
    problem: &Problem,
    plan: &Plan,
    tree: &Certificate,
    argued: &Certificate,
    tracker: Tracker,
) -> Result<String, NoMemory> {
    let network = TimedNetwork {
        problem,
        timing: problem.timing(),
    };
    let mut writer = Writer::new(alloc, network);
    writer.push_claim(plan);
    if let (Certificate::Tree(cert), Certificate::Argument(argument)) = (tree, argued) {
        writer.push_size(cert);
        writer.push_argument(plan, argument, tracker.into_part()?)?;
        writer.push_first(cert);
    }
    Ok(writer.finish()?)
}
