//! A file is written beside the old one, synced, and then put into its place; where that fails nothing unfinished is left.
ghost use Rattle.std.specs.Prelude.{◌<◌, ◌-◌, ◌^◌};

use super::noted::{Failing, NotedFiles, There};
use crate::texts::parted;
use std::alloc::Global;
use std::io::ErrorKind;
use std::process::Abort;
use std::rt::Files;
use std::test::Fail;
use tsn_device::FileSink;
use tsn_device::device::{Sink, write_all, write_whole};

/// How four bytes are written.
#[derive(Clone, Copy)]
struct Case {
    there: There,
    path: &'static str,
    /// Whether it is said that all is written.
    ends: bool,
    failing: Failing,
}

/// A case by what is there and the path; by whether it is ended; and by which calls fail how, as `denied: write 4`.
fn case_of(place: &'static str, end: &str, failing: &'static str) -> Result<Case, Fail> {
    let (there, path) = parted(place)?;
    let (how, calls) = failing.split_once(": ").unwrap_or(("", ""));
    Ok(Case {
        there: there_of(there)?,
        path,
        ends: end == "ended",
        failing: Failing {
            calls,
            kind: kind_of(how),
        },
    })
}

fn there_of(word: &str) -> Result<There, Fail> {
    match word {
        "nothing" => Ok(There::Nothing),
        "file" => Ok(There::File),
        "elsewhere" => Ok(There::Elsewhere),
        _ => Err(Fail::from("no such place")),
    }
}

fn kind_of(word: &str) -> ErrorKind {
    match word {
        "exists" => ErrorKind::AlreadyExists,
        "busy" => ErrorKind::ResourceBusy,
        _ => ErrorKind::PermissionDenied,
    }
}

/// Whether four bytes are written to a file without a failure; the sink is then closed, or only let go.
fn writes<'a, R: Files>(rt: &'a R, alloc: Global, path: &'a str, ends: bool, closes: bool) -> bool {
    match FileSink::new(rt, alloc, Some(path)) {
        Ok(mut sink) => {
            let written = write_to(&mut sink, ends);
            if closes {
                sink.close();
            } else {
                drop(sink);
            }
            written
        }
        Err(_) => false,
    }
}

fn write_to<W: Sink>(sink: &mut W, ends: bool) -> bool
    requires { W.failed sink.old < 2 ^ 64 - 1 }
{
    if ends {
        write_whole(sink, b"four").is_ok()
    } else {
        write_all(sink, b"four").is_ok()
    }
}

/// Four bytes are written so, or aren't, by these calls. Where it is said that all is written, or a call fails, nothing is left to be
/// closed.
fn expect_calls<R: Abort + AllocGlobal>(rt: &R, case: Case, wanted: &str) -> Result<(), Fail> {
    for closes in [true, !case.ends] {
        let files = NotedFiles::new(rt.alloc(), case.there, case.failing)?;
        let is_written = writes(&files, rt.alloc(), case.path, case.ends, closes);
        let calls = files.calls();
        let answer = if is_written { "written" } else { "refused" };
        let found = format!(in rt.alloc(); "{answer} by {calls}")?;
        assert_eq!(rt; found.trim_ascii(), wanted);
    }
    Ok(())
}

/// Over nothing, over an old file, by links to it (by 40 and by more), and where the path leads to a file that it doesn't name: whether
/// four bytes are written, and by which calls, where these fail. While a file is made that replaces an old one nobody else may read it.
const ROWS: &str = "\
nothing plan, ended, = written by make 666 new; remove new; make 666 new; write 4; sync; rename new plan;
file plan, ended, = written by open plan; make 600 new; own new 0 0; mode 100644; remove new; make 600 new; own new 0 0; mode 100644; write 4; sync; rename new plan;
file 1, ended, = written by open 1; make 600 new; own new 0 0; mode 100644; remove new; make 600 new; own new 0 0; mode 100644; write 4; sync; rename new plan;
file 40, ended, = written by open 40; make 600 new; own new 0 0; mode 100644; remove new; make 600 new; own new 0 0; mode 100644; write 4; sync; rename new plan;
file 41, ended, = refused by open 41;
file plan, ended, denied: own new 0 0 = written by open plan; make 600 new; own new 0 0; mode 100644; remove new; make 600 new; own new 0 0; mode 100644; write 4; sync; rename new plan;
elsewhere plan, ended, = written by open plan; create plan; write 4;
nothing plan, ended, exists: make 666 new = written by make 666 new; make 666 plan.tsn-unfinished-11; remove plan.tsn-unfinished-11; make 666 new; make 666 plan.tsn-unfinished-11; write 4; sync; rename plan.tsn-unfinished-11 plan;
nothing plan, ended, busy: rename new plan = written by make 666 new; remove new; make 666 new; write 4; sync; rename new plan; copy new plan; remove new;
nothing plan, unended, = written by make 666 new; remove new; make 666 new; write 4; remove new;
nothing plan, ended, denied: make 666 new = refused by make 666 new;
file plan, ended, denied: open plan = refused by open plan;
file plan, ended, denied: mode 100644 = refused by open plan; make 600 new; own new 0 0; mode 100644; remove new;
nothing plan, ended, denied: write 4 = refused by make 666 new; remove new; make 666 new; write 4; remove new;
nothing plan, ended, denied: sync = refused by make 666 new; remove new; make 666 new; write 4; sync; remove new;
nothing plan, ended, denied: rename new plan = refused by make 666 new; remove new; make 666 new; write 4; sync; rename new plan; remove new;
nothing plan, ended, busy: rename new plan; copy new plan = refused by make 666 new; remove new; make 666 new; write 4; sync; rename new plan; copy new plan; remove new;";

#[test]
fn files_are_put_into_their_places(rt: HostRuntime) -> Result<(), Fail> {
    for row in ROWS.lines() {
        let (asked, wanted) = row.split_once(" = ").ok_or("no answer")?;
        let (place, rest) = asked.split_once(", ").ok_or("no end")?;
        let (end, failing) = rest.split_once(",").ok_or("no failing")?;
        expect_calls(&rt, case_of(place, end, failing.trim_ascii())?, wanted)?;
    }
    Ok(())
}
