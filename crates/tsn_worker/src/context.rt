//! What the workers of a search share.
use crate::board::Board;
use tsn_branch::Setting;
use tsn_incumbent::{Named, Shared};

/// What the workers of a search share, each of them and the caller.
#[derive(Drop)]
pub struct Context<'a, K: Named, S> {
    pub setting: &'a Setting<'a, S>,
    pub shared: &'a Shared<K>,
    pub board: &'a Board,
}
