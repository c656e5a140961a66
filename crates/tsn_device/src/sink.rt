//! Files and standard output, as sinks.
ghost use Rattle.std.specs.Prelude.{◌≡◌, ◌≤◌, ◌<◌, ◌+◌, ◌-◌, ◌^◌, ◌↔◌, length, take, option_map, IfErr, IfOk, IfSome, OnOk, OnErr, IsSome, None, Some};
ghost use Rattle.std.specs.Io.{WritesAtMost};
ghost use Rattle.std.specs.Io.KnownBytes.{Appends, Keeps, WriteAppends};
ghost use Rattle.tsn_device.specs.Known.{known_of};

use crate::device::{Broken, Sink};
use crate::failure::{Action, Failure};
use crate::place::{Replacement, place_of};
use std::alloc::Global;
use std::io::{Error, ErrorKind, Write};
use std::rt::Files;
use std::{fs, io};

/// A writer. A write that takes no byte of some is a failure. It keeps why a write failed.
#[derive(Drop)]
pub struct WriterSink<'a, W: Write + Drop> {
    name: &'a str,
    writer: W,
    cause: Option<Error>,
    failures: u64,
    ghost told: { IsSome cause ↔ 0 < failures },
}

impl<'a, W: Write + Drop> WriterSink<'a, W> {
    /// The writer of this name, of which no write has failed yet.
    pub fn new(name: &'a str, writer: W) -> WriterSink<'a, W>
        ensures name { result.name ≡ name.entry }
        ensures writer { result.writer ≡ writer }
        ensures failures { result.failures ≡ 0 }
    {
        WriterSink {
            name,
            writer,
            cause: None,
            failures: 0,
        }
    }

    /// Why the last write that failed did so, if one failed.
    pub fn failure(&self) -> Option<Failure<'a>>
        ensures some { IsSome result ↔ 0 < self.now.failures }
        ensures action { IfSome result (λ failure. failure.action ≡ Action.Write) }
        ensures name { IfSome result (λ failure. failure.name ≡ self.now.name) }
        ensures cause { option_map (λ failure. failure.cause) result ≡ self.now.cause }
    {
        match self.cause {
            Some(cause) => Some(Failure {
                name: self.name,
                action: Action::Write,
                cause,
            }),
            None => None,
        }
    }
}

impl<'a, W: Write + Drop> Sink for WriterSink<'a, W> {
    ghost taken = { λ s. W.contents s.writer };

    ghost failed = { λ s. s.failures };

    fn write(&mut self, bytes: &[u8]) -> Result<usize, Broken> {
        let cause = match self.writer.write(bytes) {
            Ok(count) if count > 0 || bytes.is_empty() => return Ok(count),
            Ok(_) => Error::from(ErrorKind::WriteZero),
            Err(error) => error,
        };
        self.cause = Some(cause);
        self.failures += 1;
        Err(Broken)
    }

    fn end(&mut self) -> Result<(), Broken> {
        Ok(())
    }

    fn failures(&self) -> u64 {
        self.failures
    }
}

// A file that is wanted. It is made when it is first written to.
#[derive(Drop)]
struct Wanted<'a, F> {
    path: &'a str,
    /// How it takes the place of what is there; none where that is opened as it is.
    replacement: Option<Replacement>,
    file: Option<F>,
}

fn write_wanted<R: Files>(
    rt: &R,
    wanted: &mut Wanted<'_, R::File>,
    bytes: &[u8],
) -> io::Result<usize>
    ensures within { WritesAtMost result bytes.now }
    ensures bytes { WriteAppends (known_of R.File.contents wanted.old.file)
        (known_of R.File.contents wanted.new.file) result bytes.now }
    ensures made { OnOk result (IsSome wanted.new.file) }
    ensures path { wanted.new.path ≡ wanted.old.path }
{
    match &mut wanted.file {
        Some(file) => file.write(bytes),
        None => {
            let mut file = make_wanted(rt, wanted.path, &mut wanted.replacement)?;
            let count = file.write(bytes);
            wanted.file = Some(file);
            count
        }
    }
}

fn make_wanted<R: Files>(
    rt: &R,
    path: &str,
    replacement: &mut Option<Replacement>,
) -> io::Result<R::File> {
    match replacement {
        Some(replacement) => replacement.make(rt),
        None => fs::create(rt, path),
    }
}

// Puts a wanted file, of which nothing more is written, into its place.
fn put_wanted<R: Files>(rt: &R, wanted: &mut Wanted<'_, R::File>) -> io::Result<()>
    ensures file { wanted.new.file ≡ wanted.old.file }
    ensures path { wanted.new.path ≡ wanted.old.path }
{
    match (&mut wanted.replacement, &wanted.file) {
        (Some(replacement), Some(file)) => replacement.put(rt, file),
        _ => Ok(()),
    }
}

// Removes what is unfinished of a wanted file.
fn discard_wanted<R: Files>(rt: &R, wanted: &mut Wanted<'_, R::File>)
    ensures file { wanted.new.file ≡ wanted.old.file }
    ensures path { wanted.new.path ≡ wanted.old.path }
{
    if let Some(replacement) = &mut wanted.replacement {
        replacement.discard(rt);
    }
}

/// A file that is made when its first byte is written, and keeps why a write failed. Where no file is asked for, the bytes are
/// dropped.
///
/// A regular file is made anew beside the one that is there, or that is to be, under that one's name with
/// `.tsn-unfinished-` and a number behind it, and takes its place only when all is written. Devices and pipes are written as
/// they are.
#[derive(Drop)]
pub struct FileSink<'a, R: Files> {
    rt: &'a R,
    wanted: Option<Wanted<'a, R::File>>,
    cause: Option<Error>,
    failures: u64,
    ghost told: { IsSome cause ↔ 0 < failures },
    ghost of_a_file: { 0 < failures → IsSome wanted },
}

impl<'a, R: Files> FileSink<'a, R> {
    ghost use Rattle.tsn_device.specs.Wanted.{IsUnwritten, path_in};

    /// The file of this path, if one is asked for, of which no write has failed yet. It is tried whether it can be made; why
    /// it can't is an error, of kind `OutOfMemory` where memory was refused. Nothing is left of that.
    pub fn new(
        rt: &'a R,
        alloc: Global,
        path: Option<&'a str>,
    ) -> Result<FileSink<'a, R>, Failure<'a>>
        ensures wanted { IfOk result (λ sink. path_in sink.wanted ≡ option_map (λ path. path.now) path.entry) }
        ensures unwritten { IfOk result (λ sink. IsUnwritten sink.wanted) }
        ensures failures { IfOk result (λ sink. sink.failures ≡ 0) }
        ensures action { IfErr result (λ failure. failure.action ≡ Action.Write) }
        ensures name { IfErr result (λ failure. Some failure.name.now ≡ option_map (λ path. path.now) path.entry) }
    {
        let wanted = match path {
            Some(path) => Some(wanted_at(rt, alloc, path)?),
            None => None,
        };
        Ok(FileSink {
            rt,
            wanted,
            cause: None,
            failures: 0,
        })
    }

    /// Why the last write to the wanted file that failed did so, if one failed.
    pub fn failure(&self) -> Option<Failure<'a>>
        ensures some { IsSome result ↔ 0 < self.now.failures }
        ensures action { IfSome result (λ failure. failure.action ≡ Action.Write) }
        ensures name { IfSome result (λ failure. Some failure.name.now ≡ path_in self.now.wanted) }
        ensures cause { option_map (λ failure. failure.cause) result ≡ self.now.cause }
    {
        match (&self.wanted, self.cause) {
            (Some(wanted), Some(cause)) => Some(Failure {
                name: wanted.path,
                action: Action::Write,
                cause,
            }),
            _ => None,
        }
    }

    /// Lets the sink go. What is unfinished is removed.
    pub fn close(self) {
        let FileSink {
            rt,
            mut wanted,
            cause: _,
            failures: _,
        } = self;
        if let Some(wanted) = &mut wanted {
            discard_wanted(rt, wanted);
        }
    }
}

// A file that is wanted at a path, where it can be made.
fn wanted_at<'a, R: Files>(
    rt: &R,
    alloc: Global,
    path: &'a str,
) -> Result<Wanted<'a, R::File>, Failure<'a>>
    ensures path { IfOk result (λ wanted. wanted.path ≡ path.entry) }
    ensures unmade { IfOk result (λ wanted. wanted.file ≡ None) }
    ensures action { IfErr result (λ failure. failure.action ≡ Action.Write) }
    ensures name { IfErr result (λ failure. failure.name ≡ path.entry) }
{
    match place_of(rt, alloc, path) {
        Ok(replacement) => Ok(Wanted {
            path,
            replacement,
            file: None,
        }),
        Err(cause) => Err(Failure {
            name: path,
            action: Action::Write,
            cause,
        }),
    }
}

impl<'a, R: Files> Sink for FileSink<'a, R> {
    ghost use Rattle.tsn_device.specs.Wanted.{contents_in, IsMade, path_in};

    ghost taken = { λ s. contents_in R.File.contents s.wanted };

    ghost failed = { λ s. s.failures };

    fn write(&mut self, bytes: &[u8]) -> Result<usize, Broken>
        requires { self.old.failures < 2 ^ 64 - 1 }
        ensures within { IfOk result (λ n. n ≤ length bytes.now) }
        ensures some { IfOk result (λ n. 0 < length bytes.now → 0 < n) }
        ensures bytes { IfOk result (λ n. Appends (contents_in R.File.contents self.old.wanted)
            (contents_in R.File.contents self.new.wanted) (take n bytes.now)) }
        ensures ok { OnOk result (self.new.failures ≡ self.old.failures) }
        ensures broken { OnErr result (self.new.failures ≡ self.old.failures + 1) }
        ensures kept { OnErr result (Keeps (contents_in R.File.contents self.old.wanted)
            (contents_in R.File.contents self.new.wanted)) }

        // No byte of a wanted file is taken unless the file is made.
        ensures made { OnOk result (0 < length bytes.now → IsMade self.new.wanted) }
        ensures wanted { path_in self.new.wanted ≡ path_in self.old.wanted }
    {
        let Some(wanted) = &mut self.wanted else {
            return Ok(bytes.len());
        };
        if bytes.is_empty() {
            return Ok(0);
        }
        let cause = match write_wanted(self.rt, wanted, bytes) {
            Ok(count) if count > 0 => return Ok(count),
            Ok(_) => Error::from(ErrorKind::WriteZero),
            Err(error) => error,
        };
        discard_wanted(self.rt, wanted);
        self.cause = Some(cause);
        self.failures += 1;
        Err(Broken)
    }

    /// Puts the file into its place. It fails where a write has failed before.
    fn end(&mut self) -> Result<(), Broken>
        requires { self.old.failures < 2 ^ 64 - 1 }
        ensures ok { OnOk result (self.new.failures ≡ self.old.failures) }
        ensures broken { OnErr result (self.new.failures ≡ self.old.failures + 1) }
        ensures kept { Keeps (contents_in R.File.contents self.old.wanted)
            (contents_in R.File.contents self.new.wanted) }

        ensures whole { OnOk result (self.old.failures ≡ 0) }
        ensures wanted { path_in self.new.wanted ≡ path_in self.old.wanted }
    {
        let Some(wanted) = &mut self.wanted else {
            return Ok(());
        };
        if self.failures > 0 {
            self.failures += 1;
            return Err(Broken);
        }
        match put_wanted(self.rt, wanted) {
            Ok(()) => Ok(()),
            Err(cause) => {
                discard_wanted(self.rt, wanted);
                self.cause = Some(cause);
                self.failures += 1;
                Err(Broken)
            }
        }
    }

    fn failures(&self) -> u64 {
        self.failures
    }
}
