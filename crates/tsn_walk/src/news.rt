//! What a supervisor is told.
use tsn_book::Looks;
use tsn_conflict::outcome::Look;
use tsn_timing::Timing;

/// A flowspan, where it is one and not what stands for none.
pub fn known(timing: &Timing, best: u64) -> Option<u64> {
    if best <= timing.cycle() {
        Some(best)
    } else {
        None
    }
}

/// The sides to which looks go on, the first in the highest bit: 1 for a split. There are at most 64.
pub fn splits_among(looks: &Looks) -> u64 {
    let mut splits = 0u64;
    for number in 0..looks.len() {
        splits = (splits << 1) | u64::from(is_split(looks.get(number)));
    }
    splits
}

/// Whether a node is split.
pub(crate) fn is_split(look: &Look) -> bool {
    match look {
        Look::Split(_) => true,
        Look::Solved { .. } | Look::Pruned { .. } | Look::Tied { .. } | Look::Refuted(_) => false,
    }
}
