//! What gives and keeps bytes in memory.
ghost use Rattle.std.specs.Prelude.{◌≡◌, ◌≤◌, ◌<◌, [], length, Some, take, nat_le, false, replicate};

use std::alloc::Global;
use tsn_device::device::{Broken, Sink, Source};

/// So many good calls that none fails.
pub const NEVER: u64 = u64::MAX;

/// Gives bytes, at most `piece` a call. The call after `good_calls` good ones fails, and those behind it are good again.
#[derive(Drop)]
pub struct MemorySource<'a> {
    pub bytes: &'a [u8],
    pub position: usize,
    pub piece: usize,
    pub good_calls: u64,
    pub failures: u64,
    pub ghost within: { position ≤ length bytes.now },
    pub ghost moves: { 0 < piece },
}

impl<'a> MemorySource<'a> {
    /// A source that has given none of these bytes yet.
    pub fn new(bytes: &'a [u8], piece: usize, good_calls: u64) -> MemorySource<'a>
        requires { 0 < piece }
        ensures bytes { result.bytes ≡ bytes.entry }
        ensures position { result.position ≡ 0 }
        ensures piece { result.piece ≡ piece }
        ensures good_calls { result.good_calls ≡ good_calls }
        ensures failures { result.failures ≡ 0 }
    {
        MemorySource {
            bytes,
            position: 0,
            piece,
            good_calls,
            failures: 0,
        }
    }
}

impl Source for MemorySource<'_> {
    ghost given = { λ s. Some (take s.position s.bytes.now) };

    ghost is_at_end = { λ s. nat_le (length s.bytes.now) s.position };

    ghost failed = { λ s. s.failures };

    fn read(&mut self, buffer: &mut [u8]) -> Result<usize, Broken> {
        if self.good_calls == 0 {
            self.good_calls = NEVER;
            self.failures += 1;
            return Err(Broken);
        }
        self.good_calls -= 1;
        let rest = &self.bytes[self.position..];
        let count = rest.len().min(self.piece).min(buffer.len());
        buffer[..count].copy_from_slice(&rest[..count]);
        self.position += count;
        Ok(count)
    }

    fn failures(&self) -> u64 {
        self.failures
    }

    fn name(&self) -> &str {
        "memory"
    }
}

/// Gives spaces without end, as many as the buffer has room for.
#[derive(Default, Drop)]
pub struct EndlessSource {
    /// How many were given.
    pub count: usize,
    /// How many reads failed: those that would have passed the last `usize`.
    pub failures: u64,
}

impl Source for EndlessSource {
    ghost given = { λ s. Some (replicate s.count 32) };

    ghost is_at_end = { λ _. false };

    ghost failed = { λ s. s.failures };

    fn read(&mut self, buffer: &mut [u8]) -> Result<usize, Broken> {
        let Some(count) = self.count.checked_add(buffer.len()) else {
            self.failures += 1;
            return Err(Broken);
        };
        buffer.fill(b' ');
        self.count = count;
        Ok(buffer.len())
    }

    fn failures(&self) -> u64 {
        self.failures
    }

    fn name(&self) -> &str {
        "endless"
    }
}

/// Keeps what is written, at most `piece` bytes a call. The call after `good_calls` good ones fails, and those behind it
/// are good again; one for which there is no memory fails too.
#[derive(Drop)]
pub struct MemorySink {
    pub bytes: Vec<u8>,
    pub piece: usize,
    pub good_calls: u64,
    pub failures: u64,
    pub ghost moves: { 0 < piece },
}

impl MemorySink {
    /// A sink that has taken nothing yet.
    pub fn new(alloc: Global, piece: usize, good_calls: u64) -> MemorySink
        requires { 0 < piece }
        ensures bytes { result.bytes.items ≡ [] }
        ensures piece { result.piece ≡ piece }
        ensures good_calls { result.good_calls ≡ good_calls }
        ensures failures { result.failures ≡ 0 }
    {
        MemorySink {
            bytes: Vec::new(alloc),
            piece,
            good_calls,
            failures: 0,
        }
    }
}

impl Sink for MemorySink {
    ghost taken = { λ s. Some s.bytes.items };

    ghost failed = { λ s. s.failures };

    fn write(&mut self, bytes: &[u8]) -> Result<usize, Broken> {
        let count = bytes.len().min(self.piece);
        if self.good_calls == 0 || self.bytes.extend_from_slice(&bytes[..count]).is_err() {
            self.good_calls = NEVER;
            self.failures += 1;
            return Err(Broken);
        }
        self.good_calls -= 1;
        Ok(count)
    }

    fn end(&mut self) -> Result<(), Broken> {
        Ok(())
    }

    fn failures(&self) -> u64 {
        self.failures
    }
}
