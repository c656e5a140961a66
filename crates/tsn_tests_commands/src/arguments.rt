//! What no words of a command line ask for: offsets above their greatest, none at all, and no word.

use std::process::Abort;
use tsn_memory::{MemorySink, MemorySource, NEVER};
use tsn_networks::TWO;
use tsn_runs::valid_run;
use tsn_words::{Words, WordsFault, words_from};

/// The run ends with this line and status 6.
fn rejects<R: Abort + AllocGlobal>(rt: &R, offsets: &[u64], line: &str) {
    let alloc = rt.alloc();
    let file = TWO.file(alloc, 1_000_000).expect(rt, "memory");
    let mut source = MemorySource::new(file.as_bytes(), 100, NEVER);
    let mut sink = MemorySink::new(alloc, 3, NEVER);
    let status = valid_run(alloc, &mut source, offsets, &mut sink);
    assert_eq!(rt; status, 6, "{line}");
    assert!(rt; sink.bytes.as_slice() == line.as_bytes(), "{line}");
}

#[test]
fn judges_offsets_of_any_size(rt: HostRuntime) {
    rejects(&rt, &[], "not valid V1\n");
    rejects(&rt, &[0, u64::MAX], "not valid V2 stream 1\n");
    rejects(&rt, &[u64::MAX, u64::MAX], "not valid V2 stream 0\n");
}

#[test]
fn refuses_no_word_at_all(rt: HostRuntime) {
    match words_from(rt.alloc(), &[]) {
        Err(WordsFault::Refused(text)) => {
            assert!(rt; text.as_str().contains("requires a subcommand"), "{text}")
        }
        Err(fault) => assert!(rt; false, "{fault}"),
        Ok(_) => assert!(rt; false, "no word is taken"),
    }
}

/// How many settlements the words allow a plan.
fn steps_of(words: &Words<'_>) -> Option<usize> {
    match words {
        Words::Plan(plan) => Some(plan.steps),
        _ => None,
    }
}

fn steps_by(words: &Result<Words<'_>, WordsFault>) -> Option<usize> {
    match words {
        Ok(words) => steps_of(words),
        Err(_) => None,
    }
}

#[test]
fn a_plan_takes_a_million_steps_by_default(rt: HostRuntime) {
    let words = words_from(rt.alloc(), &["tsn", "plan", "net"]);
    assert!(rt; steps_by(&words) == Some(1_000_000));
}
