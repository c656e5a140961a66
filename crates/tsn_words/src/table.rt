//! The commands, and what each takes.

use crate::words::{MAX_STEPS, MAX_TIME};

/// What an argument takes.
#[derive(Clone, Copy)]
pub(crate) enum Takes {
    /// One word, which has to be there: a file.
    File,
    /// One number or more, from 0 to that.
    Numbers(u64),
    /// A number from the first to the second, behind `--` and the argument's name. Help calls it by the text.
    Number(u64, u64, &'static str),
    /// A word, behind `--` and the argument's name. Help calls it by that.
    Word(&'static str),
    /// No word: `--` and the name are all.
    Nothing,
}

/// An argument of a command.
#[derive(Clone, Copy)]
pub(crate) struct Argument {
    pub name: &'static str,
    pub takes: Takes,
    /// What help says of it.
    pub help: &'static str,
}

/// A command.
#[derive(Clone, Copy)]
pub(crate) struct Form {
    pub name: &'static str,
    /// What help says of it.
    pub about: &'static str,
    pub arguments: &'static [Argument],
}

// What several commands take.
pub(crate) const NET: Argument = Argument {
    name: "NET",
    takes: Takes::File,
    help: "The network file, or - for standard input",
};

pub(crate) const OF_PLAN: Argument = Argument {
    name: "PLAN",
    takes: Takes::File,
    help: "The plan file",
};

pub(crate) const OF_CERT: Argument = Argument {
    name: "CERT",
    takes: Takes::File,
    help: "The certificate file",
};

pub(crate) const TO_PLAN: Argument = Argument {
    name: "plan",
    takes: FILE,
    help: "The file to write the plan to",
};

pub(crate) const TO_CERT: Argument = Argument {
    name: "cert",
    takes: FILE,
    help: "The file to write the certificate to",
};

pub(crate) const PROGRESS: Argument = Argument {
    name: "progress",
    takes: Takes::Nothing,
    help: "Tell on standard error, about once a second, how far the search has got",
};

pub(crate) const JSON: Argument = Argument {
    name: "json",
    takes: Takes::Nothing,
    help: "Print the answer as a line of JSON",
};

pub(crate) const MERGE: Argument = Argument {
    name: "merge",
    takes: TIME,
    help: "Make lists whose entries last at least this long, in nanoseconds; the plan's own lists if not given",
};

pub(crate) const FILE: Takes = Takes::Word("FILE");

pub(crate) const FORMAT: Takes = Takes::Word("FORMAT");

pub(crate) const STEPS: Takes = Takes::Number(1, MAX_STEPS as u64, "1..1000000000");

pub(crate) const TIME: Takes = Takes::Number(0, MAX_TIME, "0..1000000000");
