//! What the overlap of each triple's frames needs, in one row of numbers for each triple.
ghost use Rattle.std.specs.Prelude.{◌≡◌, All, IfOk, map};
ghost use Rattle.tsn_conflict.specs.Rows.{uses_in};
ghost use Rattle.tsn_conflict.specs.Pairs.{IsInUses, pair_in};

use crate::uses::{Row, look_up};
use std::alloc::{AllocError, Global};
use tsn_model::Triple;

/// The two streams of a triple, whose frames overlap on its link exactly where the left offset less the right one is above the
/// one bound and below the other, in nanoseconds.
#[derive(Clone, Copy)]
pub struct Pair {
    pub left: u32,
    pub right: u32,
    pub above: i32,
    pub below: i32,
}

// What the overlap of a triple's frames needs.
fn pair_of(rows: &[Row], triple: Triple) -> Pair
    requires { IsInUses (uses_in rows.now) triple }
    ensures { result ≡ pair_in (uses_in rows.now) triple }
{
    let left = look_up(rows, triple.left, triple.link);
    let right = look_up(rows, triple.right, triple.link);
    let apart = right.start as i64 - left.start as i64 + triple.lag;
    Pair {
        left: triple.left as u32,
        right: triple.right as u32,
        above: (apart - left.separation as i64) as i32,
        below: (apart + right.separation as i64) as i32,
    }
}

/// What the overlap of each triple's frames needs.
pub fn pairs_of(alloc: Global, rows: &[Row], triples: &[Triple]) -> Result<Vec<Pair>, AllocError>
    requires { All (IsInUses (uses_in rows.now)) triples.now }
    ensures { IfOk result (λ pairs. pairs.items ≡ map (pair_in (uses_in rows.now)) triples.now) }
{
    let mut pairs = Vec::with_capacity(alloc, triples.len())?;
    for &triple in triples {
        pairs.push(pair_of(rows, triple))?;
    }
    Ok(pairs)
}
