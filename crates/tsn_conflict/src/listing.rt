//! The conflicts, in order.
ghost use Rattle.std.specs.Prelude.{◌≡◌, ◌<◌, ◌++◌, IfOk, filter, map, length};
ghost use Rattle.std.specs.List.{range_with_len};
ghost use Rattle.tsn_model.specs.Network.{IsWellFormed, stream_count};
ghost use Rattle.tsn_model.specs.Arcs.{is_conflict, conflicts_of};
ghost use Rattle.tsn_conflict.specs.Kept.{uses_of};
ghost use Rattle.tsn_conflict.specs.Rows.{is_kept, uses_in, triple_on, triples_with, triples_left};

use crate::lags::lags_of;
use crate::uses::{Row, links_of, used_of};
use std::alloc::{AllocError, Global};
use tsn_model::Triple;
use tsn_timing::Timing;

/// All conflicts.
pub fn triples_of(alloc: Global, timing: &Timing, rows: &[Row]) -> Result<Vec<Triple>, AllocError>
    requires formed { IsWellFormed timing.now }
    requires rows { uses_in rows.now ≡ uses_of timing.now }
    ensures { IfOk result (λ triples. triples.items ≡ conflicts_of timing.now) }
{
    let links = links_of(alloc, timing)?;
    let mut triples = Vec::new(alloc);
    for left in 0..timing.streams() {
        push_left(alloc, &mut triples, timing, rows, &links, left)?;
    }
    Ok(triples)
}

// Adds the conflicts of a stream with the later ones.
fn push_left(
    alloc: Global,
    triples: &mut Vec<Triple>,
    timing: &Timing,
    rows: &[Row],
    links: &[usize],
    left: usize,
) -> Result<(), AllocError>
    requires formed { IsWellFormed timing.now }
    requires rows { uses_in rows.now ≡ uses_of timing.now }
    requires links { links.now ≡ range_with_len 0 (length timing.now.links) }
    requires left { left < stream_count timing.now }
    ensures { IfOk result (λ _. triples.new.items
        ≡ triples.old.items ++ filter (is_conflict timing.now) (triples_left timing.now left (stream_count timing.now))) }
{
    let used = used_of(alloc, rows, left, links)?;
    for right in left + 1..timing.streams() {
        push_pair(alloc, triples, timing, rows, &used, left, right)?;
    }
    Ok(())
}

// Adds the conflicts of two streams, of which the left one uses these links.
fn push_pair(
    alloc: Global,
    triples: &mut Vec<Triple>,
    timing: &Timing,
    rows: &[Row],
    used: &[usize],
    left: usize,
    right: usize,
) -> Result<(), AllocError>
    requires formed { IsWellFormed timing.now }
    requires rows { uses_in rows.now ≡ uses_of timing.now }
    requires used { used.now ≡ filter (is_kept (uses_in rows.now) left) (range_with_len 0 (length timing.now.links)) }
    requires order { left < right }
    requires right { right < stream_count timing.now }
    ensures { IfOk result (λ _. triples.new.items
        ≡ triples.old.items ++ filter (is_conflict timing.now) (triples_with timing.now left right)) }
{
    let shared = used_of(alloc, rows, right, used)?;
    if shared.is_empty() {
        return Ok(());
    }
    let lags = lags_of(alloc, timing, left, right)?;
    for &link in &shared {
        push_lags(triples, &lags, left, right, link)?;
    }
    Ok(())
}

// Adds a triple for each lag of two streams on a link.
fn push_lags(
    triples: &mut Vec<Triple>,
    lags: &[i64],
    left: usize,
    right: usize,
    link: usize,
) -> Result<(), AllocError>
    ensures { IfOk result (λ _. triples.new.items ≡ triples.old.items ++ map (triple_on left right link) lags.now) }
{
    for &lag in lags {
        triples.push(Triple {
            left,
            right,
            link,
            lag,
        })?;
    }
    Ok(())
}
