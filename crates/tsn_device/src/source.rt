//! Files and standard input, as sources.
ghost use Rattle.std.specs.Prelude.{◌≡◌, ◌≤◌, ◌<◌, ◌+◌, ◌-◌, ◌^◌, ◌↔◌, ◌++◌, IsSome, IsTrue, IfOk, IfSome, if◌then◌else◌, min, option_map, OnOk, OnErr, None, codes, false, length, take};
ghost use Rattle.std.specs.Io.KnownBytes.{Appends, Keeps, ReadConsumes};
ghost use Rattle.either.specs.Either.{either};
ghost use Rattle.tsn_device.specs.Known.{is_over, known_of};

use crate::device::{Broken, Source};
use crate::failure::{Action, Failure};
use crate::reader::LateReader;
use std::io::Error;
use std::rt::Files;

/// A file or standard input. It is opened when it is first read, counts what it gave, and keeps why a read failed.
#[derive(Drop)]
pub struct FileSource<'a, R: Files + Input> {
    reader: LateReader<'a, R>,
    count: usize,
    cause: Option<Error>,
    failures: u64,
    ghost told: { IsSome cause ↔ 0 < failures },
}

impl<'a, R: Files + Input> FileSource<'a, R> {
    /// A network file; `-` is standard input.
    pub fn network(rt: &'a R, name: &'a str) -> FileSource<'a, R>
        ensures input { IsTrue result.reader.is_input ↔ (name.now ≡ codes "-") }
        ensures path { result.reader.path ≡ name.entry }
        ensures unopened { result.reader.reader ≡ None }
        ensures unread { result.count ≡ 0 }
        ensures failures { result.failures ≡ 0 }
    {
        FileSource::new(LateReader::new(rt, name, name == "-"))
    }

    /// A file.
    pub fn file(rt: &'a R, name: &'a str) -> FileSource<'a, R>
        ensures input { result.reader.is_input ≡ false }
        ensures path { result.reader.path ≡ name.entry }
        ensures unopened { result.reader.reader ≡ None }
        ensures unread { result.count ≡ 0 }
        ensures failures { result.failures ≡ 0 }
    {
        FileSource::new(LateReader::new(rt, name, false))
    }

    fn new(reader: LateReader<'a, R>) -> FileSource<'a, R>
        ensures reader { result.reader ≡ reader.entry }
        ensures unread { result.count ≡ 0 }
        ensures failures { result.failures ≡ 0 }
    {
        FileSource {
            reader,
            count: 0,
            cause: None,
            failures: 0,
        }
    }

    /// The path of the file, or that it is standard input.
    pub fn name(&self) -> &'a str
        ensures { result.now ≡ (if self.now.reader.is_input then codes "standard input" else self.now.reader.path.now) }
    {
        self.reader.name()
    }

    /// Why the last read that failed did so, if one failed.
    pub fn failure(&self) -> Option<Failure<'a>>
        ensures some { IsSome result ↔ 0 < self.now.failures }
        ensures action { IfSome result (λ failure. failure.action ≡ Action.Read) }
        ensures name { IfSome result (λ failure. failure.name.now
            ≡ (if self.now.reader.is_input then codes "standard input" else self.now.reader.path.now)) }
        ensures cause { option_map (λ failure. failure.cause) result ≡ self.now.cause }
    {
        match self.cause {
            Some(cause) => Some(Failure {
                name: self.name(),
                action: Action::Read,
                cause,
            }),
            None => None,
        }
    }

    /// How many bytes it gave, or the greatest number where that is more.
    pub fn count(&self) -> usize
        ensures { result ≡ self.now.count }
    {
        self.count
    }
}

impl<'a, R: Files + Input> Source for FileSource<'a, R> {
    ghost given = { λ _. None };

    ghost is_at_end = { λ s. is_over (either R.File.remaining R.Reader.remaining) s.reader.reader };

    ghost failed = { λ s. s.failures };

    fn read(&mut self, buffer: &mut [u8]) -> Result<usize, Broken>
        requires { self.old.failures < 2 ^ 64 - 1 }
        ensures within { IfOk result (λ n. n ≤ length buffer.new) }
        ensures bytes { IfOk result (λ n. Appends None None (take n buffer.new)) }
        ensures end { IfOk result (λ n. n ≡ 0 → 0 < length buffer.new
            → IsTrue (is_over (either R.File.remaining R.Reader.remaining) self.new.reader.reader)) }
        ensures ok { OnOk result (self.new.failures ≡ self.old.failures) }
        ensures broken { OnErr result (self.new.failures ≡ self.old.failures + 1) }
        ensures kept { OnErr result (Keeps None None) }

        // What is given is what the reader had left.
        ensures left { ReadConsumes (known_of (either R.File.remaining R.Reader.remaining) self.old.reader.reader)
            (known_of (either R.File.remaining R.Reader.remaining) self.new.reader.reader) result buffer.new }

        // What is given is counted.
        ensures counted { IfOk result (λ n. self.new.count ≡ min (self.old.count + n) usize.MAX) }
    {
        match self.reader.read(buffer) {
            Ok(count) => {
                self.count = self.count.saturating_add(count);
                Ok(count)
            }
            Err(error) => {
                self.cause = Some(error);
                self.failures += 1;
                Err(Broken)
            }
        }
    }

    fn failures(&self) -> u64 {
        self.failures
    }

    fn name(&self) -> &str {
        FileSource::name(self)
    }
}
