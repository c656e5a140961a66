//! What a command is given by the system: files, standard streams.
ghost use Rattle.std.specs.Prelude.{◌≡◌, ◌↔◌, IsSome, IsTrue, None, codes, false};
ghost use Rattle.tsn_device.specs.Wanted.{IsUnwritten, path_in};

use crate::devices::Given;
use crate::no_command::STANDARD_OUTPUT;
use std::alloc::Global;
use std::io;
use std::io::Printer;
use std::rt::Files;
use tsn_device::{Failure, FileSink, FileSource, WriterSink};

/// The files of a runtime, standard input, an output and whom to tell.
#[derive(Clone, Copy)]
pub struct System<'a, R, P, E> {
    pub rt: &'a R,
    pub alloc: Global,
    pub output: &'a P,
    pub told: &'a E,
}

impl<'a, R: Files + Input, P: Print, E: Eprint> Given<'a> for System<'a, R, P, E> {
    type Source = FileSource<'a, R>;

    type File = FileSink<'a, R>;

    type Output = WriterSink<'a, Printer<'a, P>>;

    ghost opens_network = { λ _ word s. (IsTrue s.reader.is_input ↔ (word ≡ codes "-")) × (s.reader.path.now ≡ word)
        × (s.reader.reader ≡ None) × (s.count ≡ 0) × (s.failures ≡ 0) };

    ghost opens_plan = { λ _ word s. (s.reader.is_input ≡ false) × (s.reader.path.now ≡ word)
        × (s.reader.reader ≡ None) × (s.count ≡ 0) × (s.failures ≡ 0) };

    ghost opens_cert = { λ _ word s. (s.reader.is_input ≡ false) × (s.reader.path.now ≡ word)
        × (s.reader.reader ≡ None) × (s.count ≡ 0) × (s.failures ≡ 0) };

    ghost makes_plan = { λ _ word s. (path_in s.wanted ≡ word) × IsUnwritten s.wanted × (s.failures ≡ 0) };

    ghost makes_cert = { λ _ word s. (path_in s.wanted ≡ word) × IsUnwritten s.wanted × (s.failures ≡ 0) };

    // (a file that no word names is refused by nobody)
    ghost refuses_plan = { λ _ word. IsSome word };

    ghost refuses_cert = { λ _ word. IsSome word };

    fn network(&self, word: &'a str) -> FileSource<'a, R> {
        FileSource::network(self.rt, word)
    }

    fn plan(&self, word: &'a str) -> FileSource<'a, R> {
        FileSource::file(self.rt, word)
    }

    fn cert(&self, word: &'a str) -> FileSource<'a, R> {
        FileSource::file(self.rt, word)
    }

    fn plan_file(&self, word: Option<&'a str>) -> Result<FileSink<'a, R>, Failure<'a>> {
        FileSink::new(self.rt, self.alloc, word)
    }

    fn cert_file(&self, word: Option<&'a str>) -> Result<FileSink<'a, R>, Failure<'a>> {
        FileSink::new(self.rt, self.alloc, word)
    }

    fn output(&self) -> WriterSink<'a, Printer<'a, P>> {
        WriterSink::new(STANDARD_OUTPUT, io::writer(self.output))
    }

    fn close_plan(&mut self, file: FileSink<'a, R>) {
        file.close();
    }

    fn close_cert(&mut self, file: FileSink<'a, R>) {
        file.close();
    }

    fn close_output(&mut self, output: WriterSink<'a, Printer<'a, P>>) {
        drop(output);
    }

    fn tell(&mut self, line: &str) {
        let _ = eprintln!(self.told; "tsn: {line}");
    }
}
