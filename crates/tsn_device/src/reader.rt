//! Readers of the system that are opened when they are first read.
ghost use Rattle.std.specs.Prelude.{◌≡◌, ◌≤◌, ◌<◌, IsTrue, IfOk, None, codes, length, not, if◌then◌else◌};
ghost use Rattle.either.specs.Either.{either, is_left};
ghost use Rattle.std.specs.Io.KnownBytes.{ReadConsumes};
ghost use Rattle.tsn_device.specs.Known.{is_over, known_of};

use either::{Either, Left, Right};
use std::io::Read;
use std::rt::Files;
use std::{fs, io};

/// A file or standard input. It is opened at its first read.
#[derive(Drop)]
pub struct LateReader<'a, R: Files + Input> {
    rt: &'a R,
    /// The path of the file.
    path: &'a str,
    is_input: bool,
    reader: Option<Either<R::File, R::Reader>>,
}

impl<'a, R: Files + Input> LateReader<'a, R> {
    /// A reader of the file of this path, or of standard input.
    pub fn new(rt: &'a R, path: &'a str, is_input: bool) -> LateReader<'a, R>
        ensures input { result.is_input ≡ is_input }
        ensures path { result.path ≡ path.entry }
        ensures unopened { result.reader ≡ None }
    {
        LateReader {
            rt,
            path,
            is_input,
            reader: None,
        }
    }

    /// What is read.
    pub fn name(&self) -> &'a str
        ensures { result.now ≡ (if self.now.is_input then codes "standard input" else self.now.path.now) }
    {
        if self.is_input {
            "standard input"
        } else {
            self.path
        }
    }

    fn open(&self) -> io::Result<Either<R::File, R::Reader>>
        ensures { IfOk result (λ opened. is_left opened ≡ not self.now.is_input) }
    {
        if self.is_input {
            Ok(Right(self.rt.reader()))
        } else {
            Ok(Left(fs::open(self.rt, self.path)?))
        }
    }

    /// Fills a front of the buffer, and says how long it is. In a buffer with room, 0 is the end of what was opened.
    pub fn read(&mut self, buffer: &mut [u8]) -> io::Result<usize>
        ensures within { IfOk result (λ n. n ≤ length buffer.new) }
        ensures end { IfOk result (λ n. n ≡ 0 → 0 < length buffer.new
            → IsTrue (is_over (either R.File.remaining R.Reader.remaining) self.new.reader)) }
        ensures bytes { ReadConsumes (known_of (either R.File.remaining R.Reader.remaining) self.old.reader)
            (known_of (either R.File.remaining R.Reader.remaining) self.new.reader) result buffer.new }
    {
        match &mut self.reader {
            Some(reader) => reader.read(buffer),
            None => {
                let mut reader = self.open()?;
                let count = reader.read(buffer);
                self.reader = Some(reader);
                count
            }
        }
    }
}
