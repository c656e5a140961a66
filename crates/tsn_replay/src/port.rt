//! What starts next on a link.
ghost use Rattle.std.specs.Prelude.{◌≡◌, ◌≤◌, ◌<◌, ℕ, length, All, Some, MatchOption};
ghost use Rattle.tsn_model.specs.Network.{stream_count, hop_count};
ghost use Rattle.tsn_model.specs.Bridge.{length_of};
ghost use Rattle.tsn_replay.specs.Bounds.{latest_instant};
ghost use Rattle.tsn_replay.specs.Openings.{IsOpenFor};
ghost use Rattle.tsn_replay.specs.Queue.{Waits, IsHead, AreInLine, AreVisits, passage_of};
ghost use Rattle.tsn_replay.specs.Ports.{IsScheduledNext, IsBackgroundNext, IsPort, IsFirstPort, port_time, port_in};

use crate::feed::Waiting;
use crate::openings::Openings;
use crate::queue::{Frame, head};
use crate::visits::Visit;
use tsn_model::plain::PlainNetwork;

/// The frames of so many cycles of a network, among them the queue of the list's link.
#[derive(Clone, Copy)]
pub struct LinkQueue<'a> {
    pub network: &'a PlainNetwork,
    pub cycles: usize,
    pub frames: &'a [Frame],
    pub list: &'a Openings,
}

/// The first frame of a link's queue, and when it and the background frame that waits can start.
#[derive(Clone, Copy)]
pub struct Port {
    pub head: Option<usize>,
    pub scheduled: u64,
    pub background: u64,
}

impl Port {
    /// The port of a link, from an instant on. The visits are all hops on the link.
    pub fn of(
        queue: LinkQueue<'_>,
        visits: &[Visit],
        waiting: Option<Waiting>,
        from: u64,
        end: u64,
    ) -> Port
        requires streams { All (λ (frame : Frame). frame.stream < stream_count queue.network.now) queue.frames.now }
        requires line { AreInLine queue.network.now queue.cycles queue.frames.now }
        requires visits { AreVisits queue.network.now queue.list.now.link visits.now }
        requires ready { All (λ (frame : Frame). frame.ready ≤ latest_instant) queue.frames.now }
        requires wanted { (frame : Waiting) → waiting ≡ Some frame → frame.wanted ≤ latest_instant }
        requires from { from ≤ latest_instant }
        requires end { end ≤ latest_instant }
        ensures { IsPort queue.entry.network.now queue.entry.list.now.entries queue.entry.frames.now waiting queue.entry.list.now.link from end result }
    {
        let head = head(
            queue.network,
            queue.frames,
            queue.cycles,
            queue.list.link(),
            visits,
        );
        Port {
            head,
            scheduled: scheduled_on(queue, head, from, end),
            background: background_on(queue.list, waiting, from, end),
        }
    }

    /// The port once the background frame that waited has started: its queue is as it was.
    pub fn after_sent(
        self,
        queue: LinkQueue<'_>,
        waiting: Option<Waiting>,
        from: u64,
        end: u64,
    ) -> Port
        requires streams { All (λ (frame : Frame). frame.stream < stream_count queue.network.now) queue.frames.now }
        requires line { AreInLine queue.network.now queue.cycles queue.frames.now }
        requires ready { All (λ (frame : Frame). frame.ready ≤ latest_instant) queue.frames.now }
        requires wanted { (frame : Waiting) → waiting ≡ Some frame → frame.wanted ≤ latest_instant }
        requires from { from ≤ latest_instant }
        requires end { end ≤ latest_instant }
        requires head { IsHead queue.network.now queue.frames.now queue.list.now.link self.head }
        requires still { from ≤ self.scheduled → IsScheduledNext queue.network.now queue.list.now.entries queue.frames.now self.head from end self.scheduled }
        ensures { IsPort queue.entry.network.now queue.entry.list.now.entries queue.entry.frames.now waiting queue.entry.list.now.link from end result }
    {
        let scheduled = if from <= self.scheduled {
            self.scheduled
        } else {
            scheduled_on(queue, self.head, from, end)
        };
        Port {
            head: self.head,
            scheduled,
            background: background_on(queue.list, waiting, from, end),
        }
    }

    /// When something starts.
    pub fn time(&self) -> u64
        ensures { result ≡ port_time self.now }
    {
        self.scheduled.min(self.background)
    }
}

// When the first frame of the list's queue can start, from that instant on.
fn scheduled_on(queue: LinkQueue<'_>, first: Option<usize>, from: u64, end: u64) -> u64
    requires first { IsHead queue.network.now queue.frames.now queue.list.now.link first }
    requires streams { All (λ (frame : Frame). frame.stream < stream_count queue.network.now) queue.frames.now }
    requires line { AreInLine queue.network.now queue.cycles queue.frames.now }
    requires ready { All (λ (frame : Frame). frame.ready ≤ latest_instant) queue.frames.now }
    requires from { from ≤ latest_instant }
    requires end { end ≤ latest_instant }
    ensures { IsScheduledNext queue.entry.network.now queue.entry.list.now.entries queue.entry.frames.now first from end result }
{
    match first {
        Some(number) => start_of(queue.network, &queue.frames[number], queue.list, from, end),
        None => from.max(end),
    }
}

// When the background frame that waits can start, from that instant on.
fn background_on(list: &Openings, waiting: Option<Waiting>, from: u64, end: u64) -> u64
    requires wanted { (frame : Waiting) → waiting ≡ Some frame → frame.wanted ≤ latest_instant }
    requires from { from ≤ latest_instant }
    requires end { end ≤ latest_instant }
    ensures { IsBackgroundNext list.now.entries waiting from end result }
{
    match waiting {
        Some(frame) => list.first_background(from.max(frame.wanted), end),
        None => from.max(end),
    }
}

// When a frame can start on the list's link, from that instant on.
fn start_of(network: &PlainNetwork, frame: &Frame, list: &Openings, from: u64, end: u64) -> u64
    requires stream { frame.now.stream < stream_count network.now }
    requires hop { frame.now.hop < hop_count network.now frame.now.stream }
    requires waits { Waits network.now list.now.link frame.now }
    requires ready { frame.now.ready ≤ latest_instant }
    requires from { from ≤ latest_instant }
    requires end { end ≤ latest_instant }
    ensures forward { from ≤ result }
    ensures ready { frame.now.ready ≤ result }
    ensures none { (u : ℕ) → from ≤ u → frame.now.ready ≤ u → u < result → u < end → ¬ IsOpenFor list.now.entries (length_of network.now (passage_of frame.now)) u }
    ensures here { result < end → IsOpenFor list.now.entries (length_of network.now (passage_of frame.now)) result }
{
    let link = network.route_link(frame.stream, frame.hop);
    list.first_fit(
        from.max(frame.ready),
        network.occupancy(frame.stream, link),
        end,
    )
}
