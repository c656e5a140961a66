//! By how much the frames of one stream come after those of another.
ghost use Rattle.std.specs.Prelude.{◌≡◌, ◌≤◌, ◌<◌, ◌-ℤ◌, ◌≤ℤ◌, ◌<ℤ◌, ℕ, pos, length, slice_index_or, fold, filter, map, IfOk};
ghost use Rattle.tsn_model.specs.Network.{stream_count};
ghost use Rattle.tsn_model.specs.Timing.{shifts};
ghost use Rattle.tsn_model.specs.Arcs.{lags_of, may_meet, put_in};

use std::alloc::{AllocError, Global};
use tsn_timing::Timing;

/// The lags of two streams, ascending.
pub fn lags_of(
    alloc: Global,
    timing: &Timing,
    left: usize,
    right: usize,
) -> Result<Vec<i64>, AllocError>
    requires left { left < stream_count timing.now }
    requires right { right < stream_count timing.now }
    ensures { IfOk result (λ lags. lags.items ≡ lags_of timing.now left right) }
{
    let mut lags = Vec::new(alloc);
    for &first in timing.shifts(left) {
        put_after(&mut lags, timing, left, right, first)?;
    }
    Ok(lags)
}

// Puts in by how much each frame of the right stream comes after a shift of the left one's, where the two may meet.
fn put_after(
    lags: &mut Vec<i64>,
    timing: &Timing,
    left: usize,
    right: usize,
    first: u64,
) -> Result<(), AllocError>
    requires left { left < stream_count timing.now }
    requires right { right < stream_count timing.now }
    requires small { first ≤ 2_000_000_000 }
    ensures { IfOk result (λ _. lags.new.items
        ≡ fold put_in lags.old.items (filter (may_meet timing.now left right) (map (λ second. pos second -ℤ pos first) (shifts timing.now right)))) }
{
    let left_period = timing.period(left) as i64;
    let right_period = timing.period(right) as i64;
    for &second in timing.shifts(right) {
        let lag = second as i64 - first as i64;
        if lag < left_period && 0 < lag + right_period {
            put_in(lags, lag)?;
        }
    }
    Ok(())
}

// Puts a number among ascending ones, unless it is there.
fn put_in(lags: &mut Vec<i64>, lag: i64) -> Result<(), AllocError>
    ensures { IfOk result (λ _. lags.new.items ≡ put_in lags.old.items lag) }
{
    let place = place_of(lags, lag);
    if place == lags.len() || lag < lags[place] {
        lags.insert(place, lag)?;
    }
    Ok(())
}

// How many numbers come before the first that isn't less than that one.
fn place_of(lags: &[i64], lag: i64) -> usize
    ensures inside { result ≤ length lags.now }
    ensures less { (k : ℕ) → k < result → slice_index_or lags.now k (pos 0) <ℤ lag }
    ensures not_less { result < length lags.now → lag ≤ℤ slice_index_or lags.now result (pos 0) }
{
    for (place, &other) in lags.iter().enumerate() {
        if other >= lag {
            return place;
        }
    }
    lags.len()
}
