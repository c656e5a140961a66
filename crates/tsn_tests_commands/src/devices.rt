//! Reading a source whole, up to a limit.

ghost use Rattle.std.specs.Prelude.{◌<◌, ◌≤◌};

use std::process::Abort;
use tsn_device::device::{PIECE, ReadFault, read_all};
use tsn_memory::{EndlessSource, MemorySource, NEVER};

/// The bytes are read whole, in such pieces, where they fit into the limit.
fn reads(rt: &(impl Abort + AllocGlobal), bytes: &[u8], piece: usize, limit: usize, fits: bool)
    requires some { 0 < piece }
    requires few { limit ≤ 1000 }
{
    let mut source = MemorySource::new(bytes, piece, NEVER);
    match read_all(rt.alloc(), &mut source, limit) {
        Ok(read) => assert!(rt; fits && read.as_slice() == bytes, "{limit}"),
        Err(fault) => assert!(rt; !fits && fault == ReadFault::TooLong, "{limit}"),
    }
}

#[test]
fn reads_up_to_a_limit(rt: HostRuntime) {
    for piece in [1, 5, 4096] {
        for (limit, fits) in [(0, false), (11, false), (12, true), (13, true)] {
            reads(&rt, b"twelve bytes", piece, limit, fits);
        }
    }
    reads(&rt, b"", 1, 0, true);
}

#[test]
fn reads_no_further_than_a_limit(rt: HostRuntime) {
    let mut source = EndlessSource::default();
    let outcome = read_all(rt.alloc(), &mut source, 100_000);
    assert!(rt; matches!(outcome, Err(ReadFault::TooLong)));
    assert!(rt; source.count > 100_000 && source.count <= 100_000 + PIECE);
}
