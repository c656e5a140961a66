//! The entries of a merged list, made from the times of the background that it keeps.
ghost use Rattle.std.specs.Prelude.{◌≡◌, ℕ, ◌+◌, ◌-◌, ◌≤◌, ◌<◌, ◌⊎◌, ◌↔◌, min, IsTrue, IfOk, OnOk, length, slice_index_or};
ghost use Rattle.tsn_model.specs.Gates.{cycle_of, scheduled_octet};
ghost use Rattle.tsn_gate.specs.Entries.{AllLast, AllPositive, KeepsOctets, LastsOrNone, octet_at};
ghost use Rattle.tsn_gate.specs.Merged.{FollowsBackground, IsWidened, times_kept};
ghost use Rattle.tsn_gate.specs.Widened.{IsFilled, IsOpening, NoneScheduled};

use crate::timeline::{BACKGROUND, CLOSED, SCHEDULED, Timeline};
use crate::windows::Window;
use std::alloc::{AllocError, Global};
use tsn_model::GateEntry;

/// The entries of the list that keeps these times of the background, and guards that are long enough and come after them;
/// in the rest of the cycle the scheduled class alone is open.
pub fn widened(
    alloc: Global,
    entries: &[GateEntry],
    kept: &[Window],
    least: u64,
    cycle: u64,
) -> Result<Vec<GateEntry>, AllocError>
    requires whole { cycle ≡ cycle_of entries.now }
    requires short { cycle ≤ 1_000_000_000 }
    requires some { 1 ≤ least }
    requires kept { kept.now ≡ times_kept least entries.now }
    ensures { IfOk result (λ new. IsWidened least entries.now new.items) }
{
    let round = goes_round(entries, kept, least, cycle);
    let mut timeline = Timeline::new(alloc);
    for index in 0..kept.len() {
        let start = kept[index].start;
        fill(
            &mut timeline,
            entries,
            start,
            least,
            may_close(index, round),
        )?;
        timeline.extend(kept_until(kept, index, least), BACKGROUND)?;
    }
    fill(
        &mut timeline,
        entries,
        cycle,
        least,
        may_close(kept.len(), round),
    )?;
    Ok(timeline.entries)
}

// Whether a guard may stay closed before the time of that number: it comes after the background's time, over the cycle's
// end where it is the first.
fn may_close(index: usize, round: bool) -> bool
    ensures { IsTrue result ↔ ((1 ≤ index) ⊎ IsTrue round) }
{
    index >= 1 || round
}

// Whether what is before the first time comes after the last one: no window opens from there up to the cycle's end.
fn goes_round(entries: &[GateEntry], kept: &[Window], least: u64, cycle: u64) -> bool
    requires whole { cycle ≡ cycle_of entries.now }
    requires short { cycle ≤ 1_000_000_000 }
    requires some { 1 ≤ least }
    requires kept { kept.now ≡ times_kept least entries.now }
    ensures { IsTrue result ↔ FollowsBackground least entries.now kept.now 0 }
{
    let last = last_end(kept);
    first_window(entries, last, cycle) == cycle
}

// When the last time ends; 0 where there is none.
fn last_end(kept: &[Window]) -> u64
    ensures none { length kept.now ≡ 0 → result ≡ 0 }
    ensures last { (d : Window) → 0 < length kept.now → result ≡ (slice_index_or kept.now (length kept.now - 1) d).end }
{
    match kept.last() {
        Some(time) => time.end,
        None => 0,
    }
}

// Until when a time of the background is kept: at most until `least` nanoseconds before the next one.
fn kept_until(kept: &[Window], index: usize, least: u64) -> u64
    requires { index < length kept.now }
    ensures last { (d : Window) → length kept.now ≤ index + 1 → result ≡ (slice_index_or kept.now index d).end }
    ensures inner { (d : Window) → index + 1 < length kept.now → result ≡ min (slice_index_or kept.now index d).end ((slice_index_or kept.now (index + 1) d).start - least) }
{
    let end = kept[index].end;
    if index + 1 < kept.len() {
        end.min(kept[index + 1].start.saturating_sub(least))
    } else {
        end
    }
}

// Fills the time up to `until`, before the next time of the background.
fn fill(
    timeline: &mut Timeline,
    entries: &[GateEntry],
    until: u64,
    least: u64,
    closes: bool,
) -> Result<(), AllocError>
    requires later { timeline.old.end ≤ until }
    requires whole { until ≤ cycle_of entries.now }
    requires short { cycle_of entries.now ≤ 1_000_000_000 }
    ensures end { OnOk result (timeline.new.end ≡ until) }
    ensures before { OnOk result (KeepsOctets timeline.old.entries.items timeline.new.entries.items timeline.old.end) }
    ensures filled { OnOk result (IsFilled entries.now timeline.new.entries.items timeline.old.end until least closes) }
    ensures long { OnOk result ((bound : ℕ) → bound ≤ least → LastsOrNone bound (until - timeline.old.end) → AllLast bound timeline.old.entries.items → AllLast bound timeline.new.entries.items) }
{
    let opens = opening(entries, timeline.end, until, least, closes);
    timeline.extend(opens, CLOSED)?;
    timeline.extend(until, SCHEDULED)?;
    Ok(())
}

// From when on the scheduled class is open between `from` and `until`: a guard before it stays closed where it may, lasts
// `least` nanoseconds, and leaves as many to the windows behind it.
fn opening(entries: &[GateEntry], from: u64, until: u64, least: u64, closes: bool) -> u64
    requires order { from ≤ until }
    requires whole { until ≤ cycle_of entries.now }
    requires short { cycle_of entries.now ≤ 1_000_000_000 }
    ensures { IsOpening entries.now from until least closes result }
{
    let first = first_window(entries, from, until);
    let last = last_closed(first, until, least);
    if stays(closes, is_long(from, last, least)) {
        last
    } else {
        from
    }
}

// Whether a guard stays closed: where it may, and lasts long enough.
fn stays(closes: bool, long: bool) -> bool
    ensures { IsTrue result ↔ (IsTrue closes × IsTrue long) }
{
    closes && long
}

// Whether it is so long from one instant to the other.
fn is_long(from: u64, last: u64, least: u64) -> bool
    ensures { IsTrue result ↔ ((from ≤ last) × (least ≤ last - from)) }
{
    from <= last && last - from >= least
}

// Until when it may stay closed, where the first window opens at `first` or none does.
fn last_closed(first: u64, until: u64, least: u64) -> u64
    ensures none { first ≡ until → result ≡ until }
    ensures some { (first ≡ until → ⊥) → result ≡ min first (until - least) }
{
    if first == until {
        until
    } else {
        first.min(until.saturating_sub(least))
    }
}

// The first instant from `from` on at which a window is open; `until` where that comes first.
fn first_window(entries: &[GateEntry], from: u64, until: u64) -> u64
    requires order { from ≤ until }
    requires whole { until ≤ cycle_of entries.now }
    requires short { cycle_of entries.now ≤ 1_000_000_000 }
    ensures low { from ≤ result }
    ensures high { result ≤ until }
    ensures none { NoneScheduled entries.now from result }
    ensures found { result < until → octet_at entries.now result ≡ scheduled_octet }
{
    let mut start = 0;
    for entry in entries {
        let end = start + entry.interval;
        let first = start.max(from);
        if is_window(*entry, first < end, start < until) {
            return first;
        }
        start = end;
    }
    until
}

// Whether an entry is a window that is open in the time that is looked at: it ends after its start, and begins before its end.
fn is_window(entry: GateEntry, ends_after: bool, begins_before: bool) -> bool
    ensures { IsTrue result ↔ ((entry.octet ≡ scheduled_octet) × IsTrue ends_after × IsTrue begins_before) }
{
    entry.octet == SCHEDULED && ends_after && begins_before
}
