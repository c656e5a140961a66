//! The hops of a stream that end at a listener.
ghost use Rattle.std.specs.Prelude.{◌≡◌, ◌<◌, ◌↔◌, [], All, IfOk, IsTrue, false, length};
ghost use Rattle.tsn_model.specs.Network.{IsHeard, hop_count, route_of, stream_count};
ghost use Rattle.tsn_timing.specs.Ends.{ends_of, goes_on, has_several, is_heard, several_ends};

use crate::timing::Timing;
use std::alloc::{AllocError, Global};

// Whether some link of a stream's route begins at a node.
fn goes_on(timing: &Timing, stream: usize, node: usize) -> bool
    requires { stream < stream_count timing.now }
    ensures { result ≡ goes_on timing.now (route_of timing.now stream) node }
{
    for hop in 0..timing.hops(stream) {
        if timing.link(timing.route_link(stream, hop)).from == node {
            return true;
        }
    }
    false
}

/// Whether no link of a stream's route continues that of a hop: it ends at a listener.
#[tactic(auto, unfolding(crate::specs::Ends::is_heard))]
pub fn is_heard(timing: &Timing, stream: usize, hop: usize) -> bool
    requires stream { stream < stream_count timing.now }
    requires hop { hop < hop_count timing.now stream }
    ensures value { result ≡ is_heard timing.now (route_of timing.now stream) hop }
    ensures heard { IsTrue result ↔ IsHeard timing.now (route_of timing.now stream) hop }
{
    !goes_on(
        timing,
        stream,
        timing.link(timing.route_link(stream, hop)).to,
    )
}

/// How many hops of a stream end at a listener.
pub fn end_count(timing: &Timing, stream: usize) -> usize
    requires { stream < stream_count timing.now }
    ensures { result ≡ length (ends_of timing.now stream) }
{
    let mut count = 0;
    for hop in 0..timing.hops(stream) {
        if is_heard(timing, stream, hop) {
            count += 1;
        }
    }
    count
}

/// Whether several hops of a stream end at a listener: it has several listeners, or one that hears it by two ways.
#[tactic(auto, unfolding(crate::specs::Ends::has_several))]
pub fn has_several(timing: &Timing, stream: usize) -> bool
    requires { stream < stream_count timing.now }
    ensures { result ≡ has_several timing.now stream }
{
    end_count(timing, stream) > 1
}

/// Where a stream arrives, in words that stand behind 'arrives': none where one listener hears it by one way.
pub fn arrival_words(timing: &Timing, stream: usize) -> &'static str
    requires { stream < stream_count timing.now }
    ensures { has_several timing.now stream ≡ false → result.now ≡ [] }
{
    if !has_several(timing, stream) {
        ""
    } else if has_one_listener(timing, stream) {
        " by the slower way"
    } else {
        " at its last listener"
    }
}

// Whether all hops of a stream that end at a listener end where the last one does.
fn has_one_listener(timing: &Timing, stream: usize) -> bool
    requires { stream < stream_count timing.now }
{
    let hops = timing.hops(stream);
    let listener = timing.link(timing.route_link(stream, hops - 1)).to;
    for hop in 0..hops {
        let node = timing.link(timing.route_link(stream, hop)).to;
        if node != listener && is_heard(timing, stream, hop) {
            return false;
        }
    }
    true
}

/// The hops of a stream that end at a listener, in the order of its route, where they are several; else none.
///
/// # Errors
///
/// There was no memory.
#[tactic(auto, unfolding(crate::specs::Ends::several_ends))]
pub fn several_ends(alloc: Global, timing: &Timing, stream: usize) -> Result<Vec<usize>, AllocError>
    requires { stream < stream_count timing.now }
    ensures value { IfOk result (λ ends. ends.items ≡ several_ends timing.now stream) }
    ensures exist { IfOk result (λ ends. All (λ hop. hop < hop_count timing.now stream) ends.items) }
{
    if has_several(timing, stream) {
        ends_of(alloc, timing, stream)
    } else {
        Ok(Vec::new(alloc))
    }
}

// The hops of a stream that end at a listener.
fn ends_of(alloc: Global, timing: &Timing, stream: usize) -> Result<Vec<usize>, AllocError>
    requires { stream < stream_count timing.now }
    ensures value { IfOk result (λ ends. ends.items ≡ ends_of timing.now stream) }
    ensures exist { IfOk result (λ ends. All (λ hop. hop < hop_count timing.now stream) ends.items) }
{
    let mut ends = Vec::new(alloc);
    for hop in 0..timing.hops(stream) {
        if is_heard(timing, stream, hop) {
            ends.push(hop)?;
        }
    }
    Ok(ends)
}
