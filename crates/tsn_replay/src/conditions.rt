//! What is asked of gate control lists and of a background before a replay.
ghost use Rattle.std.specs.Prelude.{◌≡◌, ◌≢◌, ◌*◌, ◌≤◌, ◌<◌, ◌↔◌, IsTrue, ℕ, length, All, AllPairs, MatchOption};
ghost use Rattle.tsn_model.specs.Network.{stream_count, hop_count};
ghost use Rattle.tsn_model.specs.Gates.{cycle_of};
ghost use Rattle.tsn_model.specs.Bridge.{LinkGates};
ghost use Rattle.tsn_replay.specs.Feeding.{background_of};
ghost use Rattle.tsn_replay.specs.Values.{FrameValue};
ghost use Rattle.tsn_replay.specs.Faults.{frames_of, IsListed, HasListedRoute, NamesLinks, IsWithin, KeepsLimits, HasReplayFault};

use crate::background::{Background, BackgroundFrame};
use crate::replay_fault::ReplayFault;
use tsn_gate::GateList;
use tsn_model::bounds::{MAX_OCTETS, MIN_OCTETS};
use tsn_model::plain::PlainNetwork;

// The most background frames of a list.
const MOST_FRAMES: usize = 10_000;

/// The first cause for which the cycles can't be replayed, but for memory.
pub fn first_fault(
    network: &PlainNetwork,
    lists: &[GateList],
    cycles: usize,
    background: &Background,
) -> Option<ReplayFault>
    requires { cycles ≤ 16 }
    ensures { MatchOption result
        (NamesLinks network.now lists.now (background_of background.now) × KeepsLimits network.now lists.now cycles (background_of background.now))
        (HasReplayFault network.now lists.now cycles (background_of background.now)) }
{
    if !names_links(network, lists, background) {
        return Some(ReplayFault::UnknownLink);
    }
    if !keeps_limits(network, lists, cycles, background) {
        return Some(ReplayFault::Limit);
    }
    None
}

// Whether each list has its own link, and each link that is used or waited on its list.
fn names_links(network: &PlainNetwork, lists: &[GateList], background: &Background) -> bool
    ensures { IsTrue result ↔ NamesLinks network.now lists.now (background_of background.now) }
{
    if !all_exist(lists, network.links()) || !are_distinct(lists) {
        return false;
    }
    if !all_used_listed(network, lists) {
        return false;
    }
    all_waited_listed(lists, background.frames())
}

fn all_exist(lists: &[GateList], links: usize) -> bool
    ensures { IsTrue result ↔ All (λ (list : LinkGates). list.link < links) lists.now }
{
    for list in lists {
        if list.link() >= links {
            return false;
        }
    }
    true
}

fn is_listed(lists: &[GateList], link: usize) -> bool
    ensures { IsTrue result ↔ IsListed lists.now link }
{
    for list in lists {
        if list.link() == link {
            return true;
        }
    }
    false
}

// Whether no two lists are of one link.
fn are_distinct(lists: &[GateList]) -> bool
    ensures { IsTrue result ↔ AllPairs (λ (a b : LinkGates). a.link ≢ b.link) lists.now }
{
    for number in 0..lists.len() {
        if is_listed(&lists[..number], lists[number].link()) {
            return false;
        }
    }
    true
}

// Whether each link that a stream uses has a list.
fn all_used_listed(network: &PlainNetwork, lists: &[GateList]) -> bool
    ensures { IsTrue result ↔ ((i : ℕ) → i < stream_count network.now → HasListedRoute network.now lists.now i) }
{
    for stream in 0..network.streams() {
        if !is_route_listed(network, lists, stream) {
            return false;
        }
    }
    true
}

// Whether each link of a stream's route has a list.
fn is_route_listed(network: &PlainNetwork, lists: &[GateList], stream: usize) -> bool
    requires { stream < stream_count network.now }
    ensures { IsTrue result ↔ HasListedRoute network.now lists.now stream }
{
    for hop in 0..network.hops(stream) {
        if !is_listed(lists, network.route_link(stream, hop)) {
            return false;
        }
    }
    true
}

fn all_waited_listed(lists: &[GateList], frames: &[BackgroundFrame]) -> bool
    ensures { IsTrue result ↔ All (λ (frame : FrameValue). IsListed lists.now frame.link) frames.now }
{
    for frame in frames {
        if !is_listed(lists, frame.link) {
            return false;
        }
    }
    true
}

// Whether each list lasts the cycle, and the background frames are within their limits.
fn keeps_limits(
    network: &PlainNetwork,
    lists: &[GateList],
    cycles: usize,
    background: &Background,
) -> bool
    requires { cycles ≤ 16 }
    ensures { IsTrue result ↔ KeepsLimits network.now lists.now cycles (background_of background.now) }
{
    let cycle = network.cycle();
    let end = cycles as u64 * cycle;
    let frames = background.frames();
    all_last(lists, cycle) && frames.len() <= MOST_FRAMES && all_within(frames, end)
}

fn all_last(lists: &[GateList], cycle: u64) -> bool
    ensures { IsTrue result ↔ All (λ (list : LinkGates). cycle_of list.entries ≡ cycle) lists.now }
{
    for list in lists {
        if list.cycle() != cycle {
            return false;
        }
    }
    true
}

// Whether each background frame has 64 to 1522 octets, and waits from an instant before the end on.
fn all_within(frames: &[BackgroundFrame], end: u64) -> bool
    ensures { IsTrue result ↔ All (IsWithin end) frames.now }
{
    for frame in frames {
        if !is_within(frame, end) {
            return false;
        }
    }
    true
}

fn is_within(frame: &BackgroundFrame, end: u64) -> bool
    ensures { IsTrue result ↔ IsWithin end frame.now }
{
    MIN_OCTETS <= frame.octets && frame.octets <= MAX_OCTETS && frame.wanted < end
}
