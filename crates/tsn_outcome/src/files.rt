//! Files of the system and writers, as devices of a command.

use crate::devices::{Made, Opened};
use std::io::Write;
use std::rt::Files;
use tsn_device::{Failure, FileSink, FileSource, WriterSink};

impl<R: Files + Input> Opened for FileSource<'_, R> {
    fn failure(&self) -> Option<Failure<'_>> {
        FileSource::failure(self)
    }

    fn count(&self) -> usize {
        FileSource::count(self)
    }
}

impl<R: Files> Made for FileSink<'_, R> {
    fn failure(&self) -> Option<Failure<'_>> {
        FileSink::failure(self)
    }
}

impl<W: Write + Drop> Made for WriterSink<'_, W> {
    fn failure(&self) -> Option<Failure<'_>> {
        WriterSink::failure(self)
    }
}
