//! What a run reads from and writes to.
ghost use Rattle.std.specs.Prelude.{◌≡◌, ◌≤◌, ◌<◌, ◌+◌, ◌-◌, ◌^◌, ℕ, List, [], ◌++◌, Bool, IsTrue, Option, Some, length, take, IfOk, OnOk, OnErr};
ghost use Rattle.std.specs.Io.KnownBytes.{Appends, Keeps};

use std::alloc::{AllocError, Global};
use thiserror::Error;
use tsn_model::NoMemory;

/// A device failed: a read or a write moved no byte.
#[derive(Clone, Copy, Debug, PartialEq, Eq, Error)]
#[error("a device failed")]
pub struct Broken;

/// What bytes are read from.
pub trait Source {
    /// The bytes that were given so far, where the source can tell them.
    ghost given: { Self → Option (List ℕ) };

    /// Whether nothing more will be given.
    ghost is_at_end: { Self → Bool };

    /// How many reads failed.
    ghost failed: { Self → ℕ };

    /// Fills a front of the buffer, and says how long it is. In a buffer with room, 0 is the end.
    fn read(&mut self, buffer: &mut [u8]) -> Result<usize, Broken>
        requires { failed self.old < 2 ^ 64 - 1 }
        ensures within { IfOk result (λ n. n ≤ length buffer.new) }
        ensures bytes { IfOk result (λ n. Appends (given self.old) (given self.new)
            (take n buffer.new)) }
        ensures end { IfOk result (λ n. n ≡ 0 → 0 < length buffer.new
            → IsTrue (is_at_end self.new)) }
        ensures ok { OnOk result (failed self.new ≡ failed self.old) }
        ensures broken { OnErr result (failed self.new ≡ failed self.old + 1) }
        ensures kept { OnErr result (Keeps (given self.old) (given self.new)) };

    /// How many reads failed.
    fn failures(&self) -> u64
        ensures { result ≡ failed self.now };

    /// What it is called where a reason is told.
    fn name(&self) -> &str;
}

/// What bytes are written to.
pub trait Sink {
    /// The bytes that were taken so far, where the sink can tell them.
    ghost taken: { Self → Option (List ℕ) };

    /// How many writes failed.
    ghost failed: { Self → ℕ };

    /// Takes a front of the bytes, and says how long it is: at least one byte, where there is one.
    fn write(&mut self, bytes: &[u8]) -> Result<usize, Broken>
        requires { failed self.old < 2 ^ 64 - 1 }
        ensures within { IfOk result (λ n. n ≤ length bytes.now) }
        ensures some { IfOk result (λ n. 0 < length bytes.now → 0 < n) }
        ensures bytes { IfOk result (λ n. Appends (taken self.old) (taken self.new)
            (take n bytes.now)) }
        ensures ok { OnOk result (failed self.new ≡ failed self.old) }
        ensures broken { OnErr result (failed self.new ≡ failed self.old + 1) }
        ensures kept { OnErr result (Keeps (taken self.old) (taken self.new)) };

    /// Says that the bytes are whole. A file that replaces an old one takes its place only then.
    fn end(&mut self) -> Result<(), Broken>
        requires { failed self.old < 2 ^ 64 - 1 }
        ensures ok { OnOk result (failed self.new ≡ failed self.old) }
        ensures broken { OnErr result (failed self.new ≡ failed self.old + 1) }
        ensures kept { Keeps (taken self.old) (taken self.new) };

    /// How many writes failed.
    fn failures(&self) -> u64
        ensures { result ≡ failed self.now };
}

/// Why a source was not read whole.
#[derive(Clone, Copy, Debug, PartialEq, Eq, Error)]
pub enum ReadFault {
    /// A read failed.
    #[error("a device failed")]
    Broken,
    /// The source gave more bytes than the limit.
    #[error("too long")]
    TooLong,
    /// A growth was refused.
    #[error("no memory")]
    Memory,
}

impl From<Broken> for ReadFault {
    ghost use Rattle.tsn_device.specs.declared.device.ReadFault.TheVariants.{Broken};

    ghost from_gives = { λ _ e. e ≡ Broken };

    fn from(_broken: Broken) -> ReadFault {
        ReadFault::Broken
    }
}

impl From<AllocError> for ReadFault {
    ghost use Rattle.tsn_device.specs.declared.device.ReadFault.TheVariants.{Memory};

    ghost from_gives = { λ _ e. e ≡ Memory };

    fn from(_refused: AllocError) -> ReadFault {
        ReadFault::Memory
    }
}

impl From<NoMemory> for ReadFault {
    ghost use Rattle.tsn_device.specs.declared.device.ReadFault.TheVariants.{Memory};

    ghost from_gives = { λ _ e. e ≡ Memory };

    fn from(_refused: NoMemory) -> ReadFault {
        ReadFault::Memory
    }
}

/// How many bytes are asked for at a time.
pub const PIECE: usize = 4096;

/// Reads a source to its end. It stops at the first piece with which the source has given more bytes than the limit.
pub fn read_all<S: Source>(
    alloc: Global,
    source: &mut S,
    limit: usize,
) -> Result<Vec<u8>, ReadFault>
    requires few_failures { S.failed source.old < 2 ^ 64 - 1 }
    requires limited { limit < 2 ^ 63 }
    ensures whole { IfOk result (λ bytes. Appends (S.given source.old) (S.given source.new) bytes.items
        × IsTrue (S.is_at_end source.new) × (length bytes.items ≤ limit)) }
    ensures too_long { result ≡ Err ReadFault.TooLong → (bytes : List ℕ)
        × Appends (S.given source.old) (S.given source.new) bytes
        × (limit < length bytes) × (length bytes ≤ limit + PIECE) }
    ensures broken { result ≡ Err ReadFault.Broken → S.failed source.new ≡ S.failed source.old + 1 }
    ensures kept { (result ≡ Err ReadFault.Broken → ⊥) → S.failed source.new ≡ S.failed source.old }
{
    let mut bytes = Vec::new(alloc);
    let mut piece = [0u8; PIECE];
    'pieces: while bytes.len() <= limit {
        let count = source.read(&mut piece)?;
        if count == 0 {
            return Ok(bytes);
        }
        bytes.extend_from_slice(&piece[..count])?;
    }
    Err(ReadFault::TooLong)
}

/// Writes all the bytes. Where a write fails, the bytes written are a beginning of them.
pub fn write_all<W: Sink>(sink: &mut W, bytes: &[u8]) -> Result<(), Broken>
    requires { W.failed sink.old < 2 ^ 64 - 1 }
    ensures whole { OnOk result (Appends (W.taken sink.old) (W.taken sink.new) bytes.now) }
    ensures beginning { OnErr result ((n : ℕ)
        × Appends (W.taken sink.old) (W.taken sink.new) (take n bytes.now)) }
    ensures ok { OnOk result (W.failed sink.new ≡ W.failed sink.old) }
    ensures broken { OnErr result (W.failed sink.new ≡ W.failed sink.old + 1) }
{
    let mut written = 0;
    'pieces: while written < bytes.len() {
        written += sink.write(&bytes[written..])?;
    }
    Ok(())
}

/// Writes all the bytes, and says that they are whole. Where that fails, the bytes written are a beginning of them.
pub fn write_whole<W: Sink>(sink: &mut W, bytes: &[u8]) -> Result<(), Broken>
    requires { W.failed sink.old < 2 ^ 64 - 1 }
    ensures whole { OnOk result (Appends (W.taken sink.old) (W.taken sink.new) bytes.now) }
    ensures beginning { OnErr result ((n : ℕ)
        × Appends (W.taken sink.old) (W.taken sink.new) (take n bytes.now)) }
    ensures ok { OnOk result (W.failed sink.new ≡ W.failed sink.old) }
    ensures broken { OnErr result (W.failed sink.new ≡ W.failed sink.old + 1) }
{
    write_all(sink, bytes)?;
    sink.end()
}
