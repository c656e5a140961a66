//! A table's lines, followed one after another.

use crate::command;
use crate::devices::{Devices, RunResult};
use crate::failing::fail_each;
use crate::folder::Folder;
use crate::text::{changed, expanded, words_of};
use anyhow::{Context, Error, Result, bail, ensure};
use std::alloc::Global;
use std::fs;
use std::rt::Files;
use std::sync::Wait;
use std::thread::Threads;

/// How many rows held, and how many did not.
#[derive(Clone, Copy, Default)]
pub struct Tally {
    pub held: u64,
    pub wrong: u64,
}

impl Tally {
    /// How many rows there are.
    pub fn rows(self) -> u64 {
        self.held.saturating_add(self.wrong)
    }

    /// With the rows of another table.
    pub fn with(self, other: Tally) -> Tally {
        Tally {
            held: self.held.saturating_add(other.held),
            wrong: self.wrong.saturating_add(other.wrong),
        }
    }

    fn count(&mut self, holds: bool) {
        if holds {
            self.held = self.held.saturating_add(1);
        } else {
            self.wrong = self.wrong.saturating_add(1);
        }
    }
}

// What a table is in the midst of.
#[derive(Clone, Copy, PartialEq, Eq)]
enum Part {
    /// Nothing yet.
    Head,
    /// A row of several lines.
    Row,
    /// Rows of one line each.
    Table,
    /// Nothing more: it has told how many rows it has.
    Counted,
}

/// The run of a table.
#[derive(Drop)]
pub struct Session<'a, R> {
    rt: &'a R,
    name: &'a str,
    tally: Tally,
    part: Part,
    /// Of a row of several lines: whether it ran a command, and whether all is right so far.
    has_run: bool,
    is_right: bool,
    folder: Folder,
    /// What the last command came to, until a line compares it.
    outcome: Option<RunResult>,
    /// Of rows of one line: their words, and the file in which they differ, with its text.
    words: &'a str,
    varied: &'a str,
    base: String,
}

impl<'a, R: Files + Print + AllocGlobal + Threads + Wait + Sync> Session<'a, R> {
    /// A session before the first line of the table of this name.
    pub fn new(rt: &'a R, name: &'a str) -> Session<'a, R> {
        Session {
            rt,
            name,
            tally: Tally::default(),
            part: Part::Head,
            has_run: false,
            is_right: true,
            folder: Folder::new(rt.alloc()),
            outcome: None,
            words: "",
            varied: "",
            base: String::new(rt.alloc()),
        }
    }

    /// Follows all lines, tells those that go wrong, and counts the table's rows.
    pub fn run(&mut self, text: &'a str) -> Result<Tally> {
        let mut number = 0u64;
        for line in text.lines() {
            number = number.saturating_add(1);
            if let Err(fault) = self.follow(line.trim_ascii()) {
                self.complain(number, line, &fault)?;
            }
        }
        if let Err(fault) = self.end_table() {
            self.complain(number, "the end", &fault)?;
        }
        self.count_row();
        Ok(self.tally)
    }

    // Tells what is wrong with a line. It is a row's, or a row of its own.
    fn complain(&mut self, number: u64, line: &str, fault: &Error) -> Result<()> {
        let name = self.name;
        println!(self.rt; "{name}:{number}: {line}\n  {fault}")?;
        if self.part == Part::Row {
            self.is_right = false;
        } else {
            self.tally.count(false);
        }
        Ok(())
    }

    fn follow(&mut self, line: &'a str) -> Result<()> {
        let (mark, rest) = line.split_once(' ').unwrap_or((line, ""));
        let rest = rest.trim_ascii();
        if mark.is_empty() || mark == "#" {
            return Ok(());
        }
        ensure!(
            self.part != Part::Counted,
            "a line behind the number of rows"
        );
        match mark {
            "row" => self.begin(Part::Row, rest),
            "table" => self.begin(Part::Table, rest),
            "file" => self.put_file(rest),
            "vary" => self.vary(rest),
            "$" => self.run_command(rest),
            "=" => self.compare(rest),
            ">" => self.compare_file(rest),
            "-" => self.run_case(rest),
            "!" => self.compare_reason(rest),
            "cut" => self.run_cuts(rest),
            "beginnings" => self.run_beginnings(rest),
            "fails" => self.run_failing(rest),
            "refused" => self.run_refused(rest),
            "rows" => self.compare_count(rest),
            _ => bail!("a line of no kind"),
        }
    }

    // Begins a row of several lines, or rows of one line each with these words. What went before has to be whole.
    fn begin(&mut self, part: Part, words: &'a str) -> Result<()> {
        let ended = self.end();
        if ended.is_err() {
            self.is_right = false;
        }
        self.count_row();
        self.part = part;
        self.has_run = false;
        self.is_right = true;
        self.folder = Folder::new(self.rt.alloc());
        self.outcome = None;
        self.words = words;
        self.varied = "";
        ended
    }

    // `COUNT`: so many rows are in the table, and none behind this.
    fn compare_count(&mut self, count: &str) -> Result<()> {
        self.begin(Part::Counted, "")?;
        let told = count.parse::<u64>().context("no number of rows")?;
        let found = self.tally.rows();
        ensure!(told == found, "there are {found} rows");
        Ok(())
    }

    // The last row has to be whole, and the table to tell how many it has.
    fn end_table(&mut self) -> Result<()> {
        self.end()?;
        ensure!(
            self.part == Part::Counted,
            "no line tells how many rows there are"
        );
        Ok(())
    }

    // What a command came to has to be compared, and each row has to run one.
    fn end(&mut self) -> Result<()> {
        ensure!(
            self.has_run || self.part != Part::Row,
            "the row that ends here runs no command"
        );
        self.end_command()
    }

    fn end_command(&mut self) -> Result<()> {
        ensure!(
            self.outcome.is_none(),
            "nothing compares the end of the command before this"
        );
        if let Some(name) = self.folder.first_new() {
            bail!("nothing compares the file {name}, which is written before this");
        }
        Ok(())
    }

    fn count_row(&mut self) {
        if self.part == Part::Row {
            self.tally.count(self.is_right);
        }
    }

    // `NAME = CONTENT`: a file that commands may read.
    fn put_file(&mut self, line: &'a str) -> Result<()> {
        let (name, content) = named(line)?;
        ensure!(self.folder.bytes(name).is_none(), "the file is there");
        let text = self.text_of(content)?;
        self.folder
            .put(name, expanded(self.rt.alloc(), text.as_str())?)?;
        Ok(())
    }

    // `NAME = CONTENT`: the file in which the rows differ.
    fn vary(&mut self, line: &'a str) -> Result<()> {
        ensure!(self.part == Part::Table, "no table");
        let (name, content) = named(line)?;
        self.base = self.text_of(content)?;
        self.varied = name;
        Ok(())
    }

    // The bytes of a content: its text with its marks, but a picture as it stands.
    fn bytes_of(&self, content: &str) -> Result<Vec<u8>> {
        let text = self.text_of(content)?;
        if content.ends_with(".svg") {
            return Ok(text.into_bytes());
        }
        expanded(self.rt.alloc(), text.as_str())
    }

    // The text of a content: `@NAME` is a file of the data, and any other text is a line; changes stand behind it.
    fn text_of(&self, content: &str) -> Result<String> {
        let alloc = self.rt.alloc();
        let (source, changes) = match content.split_once(" | ") {
            Some((source, changes)) => (source, Some(changes)),
            None => (content, None),
        };
        let text = match source.strip_prefix('@') {
            Some(name) => fs::read_to_string(self.rt, name).context("no such data")?,
            None => format!(in alloc; "{source}\n")?,
        };
        match changes {
            Some(changes) => changed(alloc, text.as_str(), changes),
            None => Ok(text),
        }
    }

    // Runs a command of a row.
    fn run_command(&mut self, words: &str) -> Result<()> {
        ensure!(self.part == Part::Row, "no row");
        self.end_command()?;
        self.has_run = true;
        self.run_words(words)
    }

    fn run_words(&mut self, text: &str) -> Result<()> {
        let owned = words_of(self.rt.alloc(), text)?;
        let words = lent(self.rt.alloc(), &owned)?;
        self.outcome = Some(command::run(self.rt, words.as_slice(), &mut self.folder)?);
        Ok(())
    }

    // Lets each read and each write of a command fail once, in turn.
    fn run_failing(&mut self, text: &str) -> Result<()> {
        ensure!(self.part == Part::Row, "no row");
        self.end_command()?;
        self.has_run = true;
        let owned = words_of(self.rt.alloc(), text)?;
        let words = lent(self.rt.alloc(), &owned)?;
        fail_each(self.rt, words.as_slice(), &self.folder)?;
        Ok(())
    }

    // `STATUS OUTPUT`: how the last command ended, and what it wrote to standard output; `<..>` at its end stands for the rest.
    fn compare(&mut self, line: &str) -> Result<()> {
        let Some(outcome) = self.outcome.take() else {
            bail!("no command to compare");
        };
        let (status, content) = line.split_once(' ').unwrap_or((line, ""));
        let status = status.parse::<u8>().context("no status")?;
        if outcome.status != status || !self.is_said(content, &outcome.output)? {
            self.show(&outcome.output)?;
            let found = outcome.status;
            bail!("it ends with {found}, and says what is shown above");
        }
        Ok(())
    }

    // Whether this is the content, or begins with it where it ends with `<..>`.
    fn is_said(&self, content: &str, output: &[u8]) -> Result<bool> {
        if let Some(beginning) = content.strip_suffix("<..>") {
            let wanted = expanded(self.rt.alloc(), beginning)?;
            return Ok(output.starts_with(wanted.as_slice()));
        }
        if content.is_empty() {
            return Ok(output.is_empty());
        }
        let wanted = self.bytes_of(content)?;
        Ok(wanted.as_slice() == output)
    }

    // Tells what came out.
    fn show(&self, bytes: &[u8]) -> Result<()> {
        let text = String::from_utf8_lossy(self.rt.alloc(), bytes)?;
        println!(self.rt; "{text}")?;
        Ok(())
    }

    // `NAME = CONTENT`, or `NAME` alone: a file that the last command wrote, and what it holds.
    fn compare_file(&mut self, line: &'a str) -> Result<()> {
        let (name, content) = match line.split_once(" = ") {
            Some((name, content)) => (name, Some(content)),
            None => (line, None),
        };
        ensure!(self.folder.take_new(name), "no such file is written");
        let Some(content) = content else {
            return Ok(());
        };
        let wanted = self.bytes_of(content)?;
        let found = self.folder.bytes(name).unwrap_or(&[]);
        if found != wanted.as_slice() {
            self.show(found)?;
            bail!("the file says what is shown above");
        }
        Ok(())
    }

    // `STATUS OUTPUT`, and changes: what the table's words come to on the varied file with these changes.
    fn run_case(&mut self, line: &'a str) -> Result<()> {
        let (end, changes) = cut_changes(line);
        self.run_on(self.varied_bytes(changes)?, end)?;
        self.tally.count(true);
        Ok(())
    }

    // The varied file with these changes.
    fn varied_bytes(&self, changes: Option<&str>) -> Result<Vec<u8>> {
        let alloc = self.rt.alloc();
        let base = self.base.as_str();
        match changes {
            Some(changes) => Ok(expanded(alloc, changed(alloc, base, changes)?.as_str())?),
            None => expanded(alloc, base),
        }
    }

    // `REASON`, and changes: why the table's words refuse the varied file with these changes; `none` where they don't.
    fn compare_reason(&mut self, line: &'a str) -> Result<()> {
        ensure!(self.part == Part::Table, "no table");
        ensure!(!self.varied.is_empty(), "no file that varies");
        let (reason, changes) = cut_changes(line);
        let bytes = self.varied_bytes(changes)?;
        self.folder.put(self.varied, bytes)?;
        let owned = words_of(self.rt.alloc(), self.words)?;
        let words = lent(self.rt.alloc(), &owned)?;
        let outcome = command::run_over(self.rt, words.as_slice(), &self.folder, Devices::Good)?;
        let wanted = if reason == "none" { "" } else { reason };
        if outcome.told.as_str() != wanted {
            self.show(outcome.told.as_bytes())?;
            bail!("the reason is what is shown above");
        }
        self.tally.count(true);
        Ok(())
    }

    // Runs the table's words on these bytes of the varied file, and compares how that ends.
    fn run_on(&mut self, bytes: Vec<u8>, end: &str) -> Result<()> {
        ensure!(!self.varied.is_empty(), "no file that varies");
        self.folder.put(self.varied, bytes)?;
        self.run_words(self.words)?;
        self.compare(end)?;
        self.end_command()
    }

    // `STATUS..`: the table's words end with one of these statuses on each beginning of the varied file, and with each of
    // them on some.
    fn run_beginnings(&mut self, line: &str) -> Result<()> {
        let whole = expanded(self.rt.alloc(), self.base.as_str())?;
        let mut ends = Vec::new(self.rt.alloc());
        for status in line.split(' ') {
            ends.push((status.parse::<u8>().context("no status")?, false))?;
        }
        for count in 0..=whole.len() {
            self.folder
                .put(self.varied, whole[..count].to_vec(self.rt.alloc())?)?;
            self.run_words(self.words)?;
            let Some(outcome) = self.outcome.take() else {
                bail!("no command to compare");
            };
            ensure!(
                is_met(&mut ends, outcome.status),
                "the beginning of {count} bytes ends otherwise"
            );
        }
        ensure!(
            ends.iter().all(|(_, met)| *met),
            "no beginning ends with one of these"
        );
        self.tally.count(true);
        Ok(())
    }

    // `LESS STATUS OUTPUT`: what the table's words come to on each beginning of the varied file that is so many bytes
    // shorter, or more.
    fn run_cuts(&mut self, line: &'a str) -> Result<()> {
        let (less, end) = line.split_once(' ').context("no status")?;
        let less = less.parse::<usize>().context("no number of bytes")?;
        let whole = expanded(self.rt.alloc(), self.base.as_str())?;
        ensure!(less <= whole.len(), "more bytes than there are");
        for count in 0..=whole.len() - less {
            self.run_on(whole[..count].to_vec(self.rt.alloc())?, end)?;
        }
        self.tally.count(true);
        Ok(())
    }

    // `PART | WORDS`: words that are refused with a text that has this part in it.
    fn run_refused(&mut self, line: &'a str) -> Result<()> {
        ensure!(self.part == Part::Table, "no table");
        let (part, words) = line.split_once(" |").context("no words")?;
        self.run_words(words)?;
        let Some(outcome) = self.outcome.take() else {
            bail!("no command to compare");
        };
        if outcome.status != 2 || !outcome.output.is_empty() || !outcome.told.contains(part) {
            self.show(outcome.told.as_bytes())?;
            let found = outcome.status;
            bail!("it ends with {found}, and tells what is shown above");
        }
        self.tally.count(true);
        Ok(())
    }
}

// Whether the status is one of these; it is met then.
fn is_met(ends: &mut [(u8, bool)], status: u8) -> bool {
    for (end, met) in ends {
        if *end == status {
            *met = true;
            return true;
        }
    }
    false
}

// The words, lent.
fn lent(alloc: Global, owned: &[String]) -> Result<Vec<&str>> {
    let mut words = Vec::new(alloc);
    for word in owned {
        words.push(word.as_str())?;
    }
    Ok(words)
}

// A row's line, and the changes behind it, if there are some.
fn cut_changes(line: &str) -> (&str, Option<&str>) {
    match line.split_once(" | ") {
        Some((row, changes)) => (row, Some(changes)),
        None => (line, None),
    }
}

// The parts of `NAME = CONTENT`.
fn named(line: &str) -> Result<(&str, &str)> {
    line.split_once(" = ").context("no ` = `")
}
