//! The replay, one start after another.
ghost use Rattle.std.specs.Prelude.{◌≡◌, ◌≢◌, ◌+◌, ◌≤◌, ◌<◌, ◌^◌, ℕ, length, max, All, AllPairs, IfOk, Some, None, slice_index_or};
ghost use Rattle.tsn_model.specs.Network.{stream_count, route_of, hop_count, route_link, link_at, Continues};
ghost use Rattle.tsn_model.specs.Bridge.{LinkGates};
ghost use Rattle.tsn_replay.specs.Bounds.{latest_free, latest_instant};
ghost use Rattle.tsn_replay.specs.Openings.{AreListNumbers};
ghost use Rattle.tsn_replay.specs.Queue.{AreInLine, IsOneVisit, passage_of, frame_in, free_on};
ghost use Rattle.tsn_replay.specs.Feeding.{waiting_on, no_start, HasLink};
ghost use Rattle.tsn_replay.specs.Ports.{IsPort, IsFirstPort, port_in};
ghost use Rattle.tsn_replay.specs.Records.{noted};
ghost use Rattle.tsn_replay.specs.Progress.{setting_of, IsSetting, IsUnderWay, IsPortAt, IsState, IsRenewed, IsSending, IsOnward, AreMoved, arrived, AreBegun, AreStarts, time_left};

use crate::alternation::Alternation;
use crate::background::Background;
use crate::feed::{Feed, Waiting};
use crate::openings::Openings;
use crate::port::{LinkQueue, Port};
use crate::queue::{Frame, Haste, Stage, arrive, continues, frames_of, turned};
use crate::starts::Starts;
use crate::tournament::PortQueue;
use crate::visits::{Visit, frame_count, visits_of};
use std::alloc::{AllocError, Global};
use tsn_model::bounds::OVERHEAD_OCTETS;
use tsn_model::plain::PlainNetwork;

/// What is replayed: the cycles of a network with these offsets (nanoseconds, one a stream), by gate control lists, each
/// of its own link and one for each link that a stream uses; whether the starts of background frames are kept; and by how
/// much frames are ready early (nanoseconds), and which.
#[derive(Clone, Copy)]
pub struct Replay<'a> {
    pub network: &'a PlainNetwork,
    pub offsets: &'a [u64],
    pub gates: &'a [Openings],
    pub cycles: usize,
    pub background: &'a Background,
    pub keeps: bool,
    pub slack: u64,
    pub early: &'a Alternation,
}

/// A replay that is under way: its end and the present instant, in nanoseconds; the frames that wait or are still to come;
/// by link when its wire is free, the number of its list, and the hops on it; a port for each list; and what is kept of the
/// starts.
#[derive(Drop)]
pub struct State {
    end: u64,
    time: u64,
    frames: Vec<Frame>,
    free: Vec<u64>,
    numbers: Vec<usize>,
    visits: Vec<Vec<Visit>>,
    feed: Feed,
    ports: PortQueue,
    starts: Starts,
}

impl State {
    ghost use Rattle.std.specs.Prelude.{◌≡◌};

    // What is kept of the starts.
    fn into_starts(self) -> Starts
        ensures { result ≡ self.starts }
    {
        self.starts
    }
}

/// A background frame that starts on a link, and when the wire is free again.
#[derive(Clone, Copy)]
pub struct Sending {
    link: usize,
    waiting: Waiting,
    until: u64,
}

impl Replay<'_> {
    /// Replays all cycles.
    pub fn run(&self, alloc: Global) -> Result<Starts, AllocError>
        requires { IsSetting (setting_of self.now) }
        ensures { IfOk result (AreStarts (setting_of self.now)) }
    {
        let mut state = self.begin(alloc)?;
        let taken = self.take_steps(&mut state);
        let starts = state.into_starts();
        taken?;
        Ok(starts)
    }

    // Takes what starts first of all starts, until there is nothing more before the end.
    fn take_steps(&self, state: &mut State) -> Result<(), AllocError>
        requires setting { IsSetting (setting_of self.now) }
        requires state { IsState (setting_of self.now) state.old }
        ensures { IfOk result (λ _. AreStarts (setting_of self.now) state.new.starts) }
    {
        while let Some(number) = state.ports.first(state.end) {
            self.step(state, number)?;
        }
        Ok(())
    }

    // The state before any start.
    fn begin(&self, alloc: Global) -> Result<State, AllocError>
        requires { IsSetting (setting_of self.now) }
        ensures { IfOk result (IsState (setting_of self.now)) }
    {
        let links = self.network.links();
        let mut state = State {
            end: self.cycles as u64 * self.network.cycle(),
            time: 0,
            frames: self.frames(alloc)?,
            free: vec![in alloc; 0u64; links]?,
            numbers: numbers_by_link(alloc, self.gates, links)?,
            visits: visits_of(alloc, self.network)?,
            feed: Feed::of(alloc, self.background, links)?,
            ports: PortQueue::new(alloc, self.gates.len())?,
            starts: Starts::new(alloc),
        };
        self.renew_all(&mut state);
        Ok(state)
    }

    // The frames before any start.
    fn frames(&self, alloc: Global) -> Result<Vec<Frame>, AllocError>
        requires { IsSetting (setting_of self.now) }
        ensures begun { IfOk result (λ frames. AreBegun self.now.network.now self.now.offsets.now self.now.slack self.now.cycles no_start frames.items) }
        ensures line { IfOk result (λ frames. AreInLine self.now.network.now self.now.cycles frames.items) }
        ensures ready { IfOk result (λ frames. All (λ (frame : Frame). frame.ready ≤ latest_instant) frames.items) }
    {
        let mut frames = frames_of(alloc, self.network, self.offsets, self.cycles)?;
        for number in 0..frames.len() {
            let frame = frames[number];
            let haste = self.haste(&frame);
            let first = turned(self.network, &frames, number, frame, 0, haste);
            frames[number] = first;
        }
        Ok(frames)
    }

    fn renew_all(&self, state: &mut State)
        requires setting { IsSetting (setting_of self.now) }
        requires state { IsUnderWay (setting_of self.now) state.old }
        requires count { length state.old.ports ≡ length self.now.gates.now }
        ensures { IsState (setting_of self.now) state.new }
    {
        for number in 0..self.gates.len() {
            self.renew_port(state, number);
        }
    }

    fn renew_port(&self, state: &mut State, number: usize)
        requires setting { IsSetting (setting_of self.now) }
        requires state { IsUnderWay (setting_of self.now) state.old }
        requires list { number < length self.now.gates.now }
        requires port { number < length state.old.ports }
        ensures { IsRenewed (setting_of self.now) number state.old state.new }
    {
        let port = self.port(state, &self.gates[number]);
        state.ports.set(number, port);
    }

    fn port(&self, state: &State, list: &Openings) -> Port
        requires setting { IsSetting (setting_of self.now) }
        requires state { IsUnderWay (setting_of self.now) state.now }
        requires exists { list.now.link < length self.now.network.now.links }
        ensures { IsPort self.now.network.now list.now.entries state.now.frames.items (waiting_on state.now.feed list.now.link) list.now.link
            (max (free_on state.now.free.items list.now.link) state.now.time) state.now.end result }
    {
        let link = list.link();
        let queue = LinkQueue {
            network: self.network,
            cycles: self.cycles,
            frames: &state.frames,
            list,
        };
        Port::of(
            queue,
            &state.visits[link],
            state.feed.waiting(link),
            state.free[link].max(state.time),
            state.end,
        )
    }

    // What starts first of all starts.
    fn step(&self, state: &mut State, number: usize) -> Result<(), AllocError>
        requires setting { IsSetting (setting_of self.now) }
        requires state { IsState (setting_of self.now) state.old }
        requires first { IsFirstPort state.old.ports state.old.end number }
        ensures state { IfOk result (λ _. IsState (setting_of self.now) state.new) }
        ensures falls { IfOk result (λ _. time_left state.new < time_left state.old) }
    {
        let port = state.ports.get(number);
        match port.head {
            Some(frame) if port.scheduled <= port.background => {
                self.start(state, number, frame, port.scheduled)
            }
            _ => self.send(state, number, port),
        }
    }

    // A scheduled frame starts on the link of a list.
    fn start(
        &self,
        state: &mut State,
        number: usize,
        waiting: usize,
        time: u64,
    ) -> Result<(), AllocError>
        requires setting { IsSetting (setting_of self.now) }
        requires state { IsState (setting_of self.now) state.old }
        requires first { IsFirstPort state.old.ports state.old.end number }
        requires head { (port_in state.old.ports number).head ≡ Some waiting }
        requires time { (port_in state.old.ports number).scheduled ≡ time }
        requires order { time ≤ (port_in state.old.ports number).background }
        ensures state { IfOk result (λ _. IsState (setting_of self.now) state.new) }
        ensures falls { IfOk result (λ _. time_left state.new < time_left state.old) }
    {
        let link = self.gates[number].link();
        let frame = state.frames[waiting];
        state.starts.start(&frame, time)?;
        state.time = time;
        state.free[link] = time + self.network.occupancy(frame.stream, link);
        self.hand_on(&mut state.frames, waiting, time);
        self.renew(state, number, &frame);
        Ok(())
    }

    // The frame of an item has started at an instant: it is gone there, and has come to each hop that continues this one.
    fn hand_on(&self, frames: &mut Vec<Frame>, number: usize, time: u64)
        requires setting { IsSetting (setting_of self.now) }
        requires number { number < length frames.old.items }
        requires line { AreInLine self.now.network.now self.now.cycles frames.old.items }
        requires streams { All (λ (frame : Frame). frame.stream < stream_count self.now.network.now) frames.old.items }
        requires distinct { (a b : ℕ) → a < length frames.old.items → b < length frames.old.items
            → passage_of (frame_in frames.old.items a) ≡ passage_of (frame_in frames.old.items b) → a ≡ b }
        requires time { time ≤ latest_free }
        requires ready { All (λ (frame : Frame). frame.ready ≤ latest_instant) frames.old.items }
        requires sooner { (before other : ℕ) → other < length frames.old.items → other ≡ before + 1
            → IsOnward self.now.network.now (passage_of (frame_in frames.old.items number)) (passage_of (frame_in frames.old.items other))
            → IsOneVisit (frame_in frames.old.items before) (frame_in frames.old.items other)
            → (frame_in frames.old.items before).stage ≡ Stage.Queued
            → (frame_in frames.old.items before).ready
            < (arrived self.now.network.now (frame_in frames.old.items number) time (frame_in frames.old.items other)).ready }
        ensures moved { AreMoved self.now.network.now self.now.slack frames.old.items number time frames.new.items }
        ensures ready { All (λ (frame : Frame). frame.ready ≤ latest_instant) frames.new.items }
    {
        let frame = frames[number];
        let block = frame_count(self.network, frame.stream) * self.cycles;
        frames[number] = Frame {
            stream: frame.stream,
            hop: frame.hop,
            shift: frame.shift,
            cycle: frame.cycle,
            stage: Stage::Gone,
            ready: frame.ready,
            rank: frame.rank,
        };
        for hop in frame.hop + 1..self.network.hops(frame.stream) {
            if continues(self.network, frame.stream, frame.hop, hop) {
                let other = number + (hop - frame.hop) * block;
                let next = frames[other];
                let haste = self.haste(&next);
                let come = arrive(self.network, frames, other, &frame, time, haste);
                frames[other] = come;
            }
        }
    }

    // Whether the frame of an item is ready early there.
    fn haste(&self, frame: &Frame) -> Haste
        requires setting { IsSetting (setting_of self.now) }
        requires stream { frame.now.stream < stream_count self.now.network.now }
        ensures { result.slack ≡ self.now.slack }
    {
        let early = self.slack > 0
            && self.early.is_early(
                self.network,
                self.offsets,
                frame.stream,
                frame.shift,
                frame.cycle,
                frame.hop,
            );
        Haste {
            slack: self.slack,
            early,
        }
    }

    // The port of a list, and those of the links to which the frame has come that started, anew.
    fn renew(&self, state: &mut State, number: usize, started: &Frame)
        requires setting { IsSetting (setting_of self.now) }
        requires state { IsUnderWay (setting_of self.now) state.old }
        requires stream { started.now.stream < stream_count self.now.network.now }
        requires hop { started.now.hop < hop_count self.now.network.now started.now.stream }
        requires list { number < length self.now.gates.now }
        requires count { length state.old.ports ≡ length self.now.gates.now }
        requires others { (other : ℕ) → other < length self.now.gates.now → (number ≡ other → ⊥)
            → ((hop : ℕ) (d : LinkGates) → hop < hop_count self.now.network.now started.now.stream
            → Continues self.now.network.now (route_of self.now.network.now started.now.stream) started.now.hop hop
            → (slice_index_or self.now.gates.now other d).link ≡ route_link self.now.network.now started.now.stream hop → ⊥)
            → IsPortAt (setting_of self.now) state.old other (port_in state.old.ports other) }
        ensures state { IsState (setting_of self.now) state.new }
        ensures end { state.new.end ≡ state.old.end }
        ensures free { state.new.free ≡ state.old.free }
    {
        self.renew_port(state, number);
        for hop in 0..self.network.hops(started.stream) {
            if continues(self.network, started.stream, started.hop, hop) {
                let next = self.list_of(state, started.stream, hop);
                self.renew_port(state, next);
            }
        }
    }

    // The list of a hop's link.
    fn list_of(&self, state: &State, stream: usize, hop: usize) -> usize
        requires setting { IsSetting (setting_of self.now) }
        requires state { IsUnderWay (setting_of self.now) state.now }
        requires stream { stream < stream_count self.now.network.now }
        requires hop { hop < hop_count self.now.network.now stream }
        ensures list { result < length self.now.gates.now }
        ensures of { (number : ℕ) (d : LinkGates) → number < length self.now.gates.now
            → (slice_index_or self.now.gates.now number d).link ≡ route_link self.now.network.now stream hop → number ≡ result }
    {
        state.numbers[self.network.route_link(stream, hop)]
    }

    // The background frame that waits starts on the link of a list.
    fn send(&self, state: &mut State, number: usize, port: Port) -> Result<(), AllocError>
        requires setting { IsSetting (setting_of self.now) }
        requires state { IsState (setting_of self.now) state.old }
        requires first { IsFirstPort state.old.ports state.old.end number }
        requires port { port_in state.old.ports number ≡ port }
        requires order { port.scheduled ≤ port.background → port.head ≡ None }
        ensures state { IfOk result (λ _. IsState (setting_of self.now) state.new) }
        ensures falls { IfOk result (λ _. time_left state.new < time_left state.old) }
    {
        let sending = self.sending(state, number, port);
        self.note(&mut state.starts, sending.waiting, port.background)?;
        state.time = port.background;
        state.free[sending.link] = sending.until;
        state.feed.sent(sending.link);
        let next = state.feed.waiting(sending.link);
        let queue = LinkQueue {
            network: self.network,
            cycles: self.cycles,
            frames: &state.frames,
            list: &self.gates[number],
        };
        let renewed = port.after_sent(queue, next, sending.until, state.end);
        state.ports.set(number, renewed);
        Ok(())
    }

    // The background frame that waits on the link of a list, when it starts at the port's instant.
    fn sending(&self, state: &State, number: usize, port: Port) -> Sending
        requires setting { IsSetting (setting_of self.now) }
        requires state { IsState (setting_of self.now) state.now }
        requires first { IsFirstPort state.now.ports state.now.end number }
        requires port { port_in state.now.ports number ≡ port }
        requires order { port.scheduled ≤ port.background → port.head ≡ None }
        ensures { IsSending (setting_of self.now) state.now number port result }
    {
        let link = self.gates[number].link();
        let Some(waiting) = state.feed.waiting(link) else {
            unreachable!()
        };
        let duration = (waiting.octets + OVERHEAD_OCTETS) * rate(self.network, link);
        Sending {
            link,
            waiting,
            until: port.background + duration,
        }
    }

    // Keeps the start of a background frame, if such starts are kept.
    fn note(&self, starts: &mut Starts, waiting: Waiting, time: u64) -> Result<(), AllocError>
        ensures { IfOk result (λ _. starts.new ≡ noted self.now.keeps starts.old
            (record { link = waiting.link; time = time; octets = waiting.octets; number = waiting.number })) }
    {
        if self.keeps {
            starts.send(waiting, time)
        } else {
            Ok(())
        }
    }
}

fn numbers_by_link(
    alloc: Global,
    gates: &[Openings],
    links: usize,
) -> Result<Vec<usize>, AllocError>
    requires exist { All (λ (list : LinkGates). list.link < links) gates.now }
    requires distinct { AllPairs (λ (a b : LinkGates). a.link ≢ b.link) gates.now }
    ensures { IfOk result (λ numbers. AreListNumbers gates.now links numbers.items) }
{
    let mut numbers = vec![in alloc; 0usize; links]?;
    for number in 0..gates.len() {
        let link = gates[number].link();
        numbers[link] = number;
    }
    Ok(numbers)
}

// How long an octet takes on a link.
fn rate(network: &PlainNetwork, link: usize) -> u64
    requires { link < length network.now.links }
    ensures value { result ≡ (link_at network.now link).octet_time }
    ensures some { 1 ≤ result }
    ensures limit { result ≤ 800 }
{
    let _limits = network.cycle();
    network.link(link).octet_time
}
