//! Which links a stream uses, and when.
ghost use Rattle.std.specs.Prelude.{◌≡◌, ◌<◌, length, slice_index_or, List, [], map, filter, All, IfOk};
ghost use Rattle.std.specs.List.{range_with_len};
ghost use Rattle.tsn_model.specs.Network.{stream_count};
ghost use Rattle.tsn_conflict.specs.Kept.{use_at, use_in, uses_of};
ghost use Rattle.tsn_conflict.specs.Rows.{is_kept, uses_in};

use std::alloc::{AllocError, Global};
use tsn_timing::Timing;

/// When a stream's frame starts on a link, counted from the offset, and how long it keeps it. Where the stream
/// doesn't use the link, it keeps it for no time.
#[derive(Clone, Copy)]
pub struct Use {
    pub start: u64,
    pub separation: u64,
}

/// A stream's use of each link.
#[derive(Drop)]
pub struct Row {
    pub uses: Vec<Use>,
}

fn use_of(timing: &Timing, stream: usize, link: usize) -> Use
    requires { stream < stream_count timing.now }
    ensures { result ≡ use_at timing.now stream link }
{
    match timing.hop_on(stream, link) {
        Some(hop) => Use {
            start: timing.start(stream, hop),
            separation: timing.separation(stream, hop),
        },
        None => Use {
            start: 0,
            separation: 0,
        },
    }
}

fn row_of(alloc: Global, timing: &Timing, stream: usize) -> Result<Row, AllocError>
    requires { stream < stream_count timing.now }
    ensures { IfOk result (λ row. row.uses.items ≡ map (use_at timing.now stream) (range_with_len 0 (length timing.now.links))) }
{
    let mut uses = Vec::new(alloc);
    for link in 0..timing.links() {
        uses.push(use_of(timing, stream, link))?;
    }
    Ok(Row { uses })
}

/// Each stream's use of each link.
pub fn rows_of(alloc: Global, timing: &Timing) -> Result<Vec<Row>, AllocError>
    ensures { IfOk result (λ rows. uses_in rows.items ≡ uses_of timing.now) }
{
    let mut rows = Vec::new(alloc);
    for stream in 0..timing.streams() {
        rows.push(row_of(alloc, timing, stream)?)?;
    }
    Ok(rows)
}

/// A stream's use of a link, as the rows have it.
pub fn look_up(rows: &[Row], stream: usize, link: usize) -> Use
    requires stream { stream < length (uses_in rows.now) }
    requires link { link < length (slice_index_or (uses_in rows.now) stream []) }
    ensures { result ≡ use_in (uses_in rows.now) stream link }
{
    rows[stream].uses[link]
}

/// All links.
pub fn links_of(alloc: Global, timing: &Timing) -> Result<Vec<usize>, AllocError>
    ensures { IfOk result (λ links. links.items ≡ range_with_len 0 (length timing.now.links)) }
{
    let mut links = Vec::new(alloc);
    for link in 0..timing.links() {
        links.push(link)?;
    }
    Ok(links)
}

/// Those of some links that a stream uses.
pub fn used_of(
    alloc: Global,
    rows: &[Row],
    stream: usize,
    links: &[usize],
) -> Result<Vec<usize>, AllocError>
    requires stream { stream < length (uses_in rows.now) }
    requires links { All (λ link. link < length (slice_index_or (uses_in rows.now) stream [])) links.now }
    ensures { IfOk result (λ used. used.items ≡ filter (is_kept (uses_in rows.now) stream) links.now) }
{
    let mut used = Vec::new(alloc);
    for &link in links {
        if look_up(rows, stream, link).separation > 0 {
            used.push(link)?;
        }
    }
    Ok(used)
}
