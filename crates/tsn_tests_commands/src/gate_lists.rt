//! Gate control lists of entries that are handed in.

use std::alloc::Global;
use std::process::Abort;
use std::test::Fail;
use tsn_gate::{GateEntry, GateList};
use tsn_model::NoMemory;
use tsn_networks::TWO;
use tsn_timing::Problem;

fn table_of(
    rt: &impl Abort,
    alloc: Global,
    list: &GateList,
    problem: &Problem,
) -> Result<String, NoMemory> {
    assert!(rt; list.link() < problem.links());
    list.to_text(alloc, problem)
}

fn entry(interval: u64, octet: u8) -> GateEntry {
    GateEntry { interval, octet }
}

/// Entries stay as they are handed in, neighbours of one octet too.
#[test]
fn keeps_entries(rt: HostRuntime) -> Result<(), Fail> {
    let entries = [entry(5, 0x0A), entry(5, 0x0A), entry(1, 0x80)];
    let list = GateList::new(rt.alloc(), 4, &entries).map_err(|_| "the entries are refused")?;
    assert!(&rt; list.entries() == entries.as_slice());
    let problem = TWO.problem(rt.alloc(), 1_000_000).ok_or("no network")?;
    let table = table_of(&rt, rt.alloc(), &list, &problem);
    drop(problem);
    assert_eq!(&rt; table?.as_str(), "link 4 S C 3\n0A 5\n0A 5\n80 1\n");
    Ok(())
}
