//! A console that fails.
use std::fmt::Display;
use std::io;
use std::io::{Eprint, ErrorKind};
use std::time::{Clock, Duration};

/// A clock and a standard error of which each use fails.
#[derive(Clone, Copy, Debug)]
pub struct NoConsole;

impl Clock for NoConsole {
    fn monotonic(&self) -> io::Result<Duration> {
        Err(io::Error::from(ErrorKind::Unsupported))
    }

    fn since_1970(&self) -> io::Result<Duration> {
        Err(io::Error::from(ErrorKind::Unsupported))
    }
}

impl Eprint for NoConsole {
    fn eprint<D: Display + Drop>(&self, _value: D) -> io::Result<()> {
        Err(io::Error::from(ErrorKind::Unsupported))
    }

    fn eprintln<D: Display + Drop>(&self, _value: D) -> io::Result<()> {
        Err(io::Error::from(ErrorKind::Unsupported))
    }
}
