//! What a search is given.
use crate::tables::Tables;
use std::alloc::Global;

/// What a search is given: where it takes memory, what it reads, and the supervisor that it passes.
#[derive(Drop)]
pub struct Setting<'a, S> {
    pub alloc: Global,
    pub tables: Tables<'a>,
    pub supervisor: &'a S,
}
