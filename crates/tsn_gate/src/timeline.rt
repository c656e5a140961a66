//! Entries that are made from the cycle's start on.

ghost use Rattle.std.specs.Prelude.{◌≡◌, [], ℕ, ◌+◌, ◌-◌, ◌^◌, ◌≤◌, ◌<◌, OnOk, OnErr};
ghost use Rattle.tsn_model.specs.Gates.{cycle_of};
ghost use Rattle.tsn_gate.specs.Entries.{HasOctet, KeepsOctets, Appends, AllLast, LastsOrNone, IsTimeline, octet_at};
ghost use Rattle.tsn_gate.specs.Windows.{IsGapOctet};

use std::alloc::{AllocError, Global};
use tsn_model::GateEntry;

/// All gates closed.
pub const CLOSED: u8 = 0x00;

/// The gate of the scheduled class (7) alone open.
pub const SCHEDULED: u8 = 0x80;

/// The gates of the background classes (0 to 6) alone open.
pub const BACKGROUND: u8 = 0x7F;

/// The entries from the cycle's start to `end`.
#[derive(Drop)]
pub struct Timeline {
    pub entries: Vec<GateEntry>,
    pub end: u64,

    ghost timeline: { IsTimeline entries.items end },
}

impl Timeline {
    /// No entry yet.
    pub fn new(alloc: Global) -> Self
        ensures end { result.end ≡ 0 }
        ensures none { result.entries.items ≡ [] }
    {
        Timeline {
            entries: Vec::new(alloc),
            end: 0,
        }
    }

    /// Shows the octet up to `end`.
    pub fn extend(&mut self, end: u64, octet: u8) -> Result<(), AllocError>
        requires { self.old.end ≤ end }
        ensures end { OnOk result (self.new.end ≡ end) }
        ensures before { OnOk result (KeepsOctets self.old.entries.items self.new.entries.items self.old.end) }
        ensures shown { OnOk result (HasOctet self.new.entries.items self.old.end end octet) }
        ensures long { OnOk result ((least : ℕ) → LastsOrNone least (end - self.old.end) → AllLast least self.old.entries.items → AllLast least self.new.entries.items) }
    {
        if self.end < end {
            append(
                &mut self.entries,
                GateEntry {
                    interval: end - self.end,
                    octet,
                },
            )?;
            self.end = end;
        }
        Ok(())
    }

    /// Fills a gap up to `end`, before the window that begins at `next`.
    pub fn extend_gap(&mut self, end: u64, next: u64, guard: u64) -> Result<(), AllocError>
        requires later { self.old.end ≤ end }
        requires next { end ≤ next }
        ensures end { OnOk result (self.new.end ≡ end) }
        ensures before { OnOk result (KeepsOctets self.old.entries.items self.new.entries.items self.old.end) }
        ensures shown { OnOk result ((t : ℕ) → self.old.end ≤ t → t < end → IsGapOctet next guard t (octet_at self.new.entries.items t)) }
    {
        let guarded = next.saturating_sub(guard).clamp(self.end, end);
        self.extend(guarded, BACKGROUND)?;
        self.extend(end, CLOSED)
    }
}

// Adds an entry, or lengthens the last one where that shows the same octet.
fn append(entries: &mut Vec<GateEntry>, entry: GateEntry) -> Result<(), AllocError>
    requires lasts { 1 ≤ entry.interval }
    requires fits { cycle_of entries.old.items + entry.interval < 2 ^ 64 }
    ensures ok { OnOk result (Appends entries.old.items entries.new.items entry.interval entry.octet) }
    ensures err { OnErr result (entries.new.items ≡ entries.old.items) }
{
    let Some(last) = entries.last_mut() else {
        entries.push(entry)?;
        return Ok(());
    };
    if last.octet == entry.octet {
        last.interval += entry.interval;
    } else {
        entries.push(entry)?;
    }
    Ok(())
}
