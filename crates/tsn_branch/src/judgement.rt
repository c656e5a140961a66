//! What is found at a node.

use tsn_conflict::outcome::Look;

/// What a node that is to be split has, by the least offsets of its path.
#[derive(Clone, Copy)]
pub struct SplitPoint {
    /// The number of the first violated triple among the conflicts.
    pub triple: usize,
    /// The first stream that arrives last.
    pub last: usize,
    /// When it does, in nanoseconds.
    pub end: u64,
}

/// What is found at a node: where to split it, or what closes it.
#[derive(Drop)]
pub enum Judgement {
    Split(SplitPoint),
    Closed(Look),
}
