//! The frames of a leaf that is about a link, each with the chain to its stream.
use crate::chain::Chain;
use crate::listed::Listed;
use std::marker::Model;
use tsn_model::Frame;

/// The most entries of a leaf.
pub const MAX_ENTRIES: usize = 128;

/// A frame and a chain to its stream.
#[derive(Drop)]
pub struct Entry {
    pub frame: Frame,
    pub chain: Chain,
}

impl Model for Entry {
    ghost use Rattle.tsn_model.specs.Certificate.{Entry};

    ghost Value = { Entry };

    ghost view = { λ entry. record { frame = entry.frame; chain = entry.chain } };
}

/// The entries of a load or overload leaf.
pub type Entries = Listed<Entry, MAX_ENTRIES>;
