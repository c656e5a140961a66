//! How much is to be done for a plan.

use tsn_words::Method;

/// The most nodes that a run may settle.
pub const MAX_LIMIT: usize = 1_000_000_000;

/// The most workers that a run may have.
pub const MAX_WORKERS: usize = 16;

/// How many nodes are settled in the order of the file, at most, before `auto` turns to the conflict-driven search.
pub const FILE_ORDER_LIMIT: usize = 100_000;

/// How much is to be done: by 1 to 16 workers, with at most so many nodes settled, 1 to 1,000,000,000.
#[derive(Clone, Copy)]
pub struct Effort {
    pub method: Method,
    pub workers: usize,
    pub limit: usize,
}
