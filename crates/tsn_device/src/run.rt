//! How a run ends: its last text, and its status.
ghost use Rattle.std.specs.Prelude.{◌≡◌, ◌≢◌, ◌<◌, ◌+◌, ◌-◌, ◌^◌, ℕ, take};
ghost use Rattle.std.specs.Io.KnownBytes.{Appends};

use crate::device::{Sink, write_all};

/// A read or a write failed.
pub const DEVICE: u8 = 8;

/// Writes the text, and answers the status, or `DEVICE` where a write fails: then a beginning of the text was written.
pub fn finish<W: Sink>(sink: &mut W, status: u8, text: &[u8]) -> u8
    requires few_failures { W.failed sink.old < 2 ^ 64 - 1 }
    requires not_device { status ≢ DEVICE }
    ensures whole { result ≢ DEVICE → (result ≡ status)
        × Appends (W.taken sink.old) (W.taken sink.new) text.now
        × (W.failed sink.new ≡ W.failed sink.old) }
    ensures device { result ≡ DEVICE → W.failed sink.new ≡ W.failed sink.old + 1 }
    ensures beginning { W.failed sink.new ≢ W.failed sink.old
        → (n : ℕ) × Appends (W.taken sink.old) (W.taken sink.new) (take n text.now) }
{
    match write_all(sink, text) {
        Ok(()) => status,
        Err(_) => DEVICE,
    }
}
