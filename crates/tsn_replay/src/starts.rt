//! What has started in a replay.
ghost use Rattle.std.specs.Prelude.{◌≡◌, ◌++◌, [], ◌∷◌, IfOk};
ghost use Rattle.tsn_replay.specs.Queue.{passage_of};
ghost use Rattle.tsn_replay.specs.Feeding.{no_start};

use crate::feed::Waiting;
use crate::queue::Frame;
use std::alloc::{AllocError, Global};
use std::marker::Model;

/// The start of a stream's frame on a hop, in a cycle.
#[derive(Drop)]
pub struct Started {
    stream: usize,
    shift: u64,
    cycle: usize,
    hop: usize,
    time: u64,
}

impl Model for Started {
    ghost use Rattle.tsn_model.specs.Bridge.{ScheduledStart};

    ghost Value = { ScheduledStart };

    ghost view = { λ s. record { passage = record { stream = s.stream; shift = s.shift; cycle = s.cycle; hop = s.hop }; time = s.time } };
}

/// The start of a background frame on a link.
#[derive(Drop)]
pub struct Sent {
    link: usize,
    start: u64,
    octets: u64,
    number: usize,
}

impl Model for Sent {
    ghost use Rattle.tsn_model.specs.Bridge.{BackgroundStart};

    ghost Value = { BackgroundStart };

    ghost view = { λ s. record { link = s.link; time = s.start; octets = s.octets; number = s.number } };
}

impl Started {
    ghost use Rattle.std.specs.Prelude.{◌≡◌};

    /// The stream.
    pub(crate) fn stream(&self) -> usize
        ensures { result ≡ self.now.passage.stream }
    {
        self.stream
    }

    /// How long after the stream's offset the frame starts.
    pub(crate) fn shift(&self) -> u64
        ensures { result ≡ self.now.passage.shift }
    {
        self.shift
    }

    /// The cycle.
    pub(crate) fn cycle(&self) -> usize
        ensures { result ≡ self.now.passage.cycle }
    {
        self.cycle
    }

    /// The hop.
    pub(crate) fn hop(&self) -> usize
        ensures { result ≡ self.now.passage.hop }
    {
        self.hop
    }

    /// The instant of the start.
    pub(crate) fn time(&self) -> u64
        ensures { result ≡ self.now.time }
    {
        self.time
    }
}

impl Sent {
    ghost use Rattle.std.specs.Prelude.{◌≡◌};

    /// The directed link on which it starts.
    pub fn link(&self) -> usize
        ensures { result ≡ self.now.link }
    {
        self.link
    }

    /// The instant of the start, in nanoseconds from the replay's beginning.
    pub fn start(&self) -> u64
        ensures { result ≡ self.now.time }
    {
        self.start
    }

    /// The octets from the destination address to the check sequence.
    pub fn octets(&self) -> u64
        ensures { result ≡ self.now.octets }
    {
        self.octets
    }

    /// The number in the list of frames that was handed in; 0 for a greedy background.
    pub fn number(&self) -> usize
        ensures { result ≡ self.now.number }
    {
        self.number
    }
}

/// Everything that has started, in the order of its start.
#[derive(Drop)]
pub struct Starts {
    scheduled: Vec<Started>,
    background: Vec<Sent>,
}

impl Model for Starts {
    ghost use Rattle.tsn_model.specs.Bridge.{BridgeRun};

    ghost Value = { BridgeRun };

    ghost view = { λ t. record { scheduled = t.scheduled.items; background = t.background.items } };
}

impl Starts {
    /// Nothing has started.
    pub(crate) fn new(alloc: Global) -> Self
        ensures { result ≡ no_start }
    {
        Starts {
            scheduled: Vec::new(alloc),
            background: Vec::new(alloc),
        }
    }

    /// The starts of scheduled frames.
    pub(crate) fn scheduled(&self) -> &[Started]
        ensures { result.now ≡ self.now.scheduled }
    {
        &self.scheduled
    }

    /// The starts of background frames.
    pub(crate) fn background(&self) -> &[Sent]
        ensures { result.now ≡ self.now.background }
    {
        &self.background
    }

    /// Adds the start of a scheduled frame.
    pub(crate) fn start(&mut self, frame: &Frame, time: u64) -> Result<(), AllocError>
        ensures { IfOk result (λ _. self.new ≡ record self.old { scheduled = self.old.scheduled ++ (record { passage = passage_of frame.now; time = time }) ∷ [] }) }
    {
        self.scheduled.push(Started {
            stream: frame.stream,
            shift: frame.shift,
            cycle: frame.cycle,
            hop: frame.hop,
            time,
        })?;
        Ok(())
    }

    /// Adds the start of a background frame.
    pub(crate) fn send(&mut self, waiting: Waiting, time: u64) -> Result<(), AllocError>
        ensures { IfOk result (λ _. self.new ≡ record self.old {
          background = self.old.background
              ++ (record { link = waiting.link; time = time; octets = waiting.octets; number = waiting.number }) ∷ [];
        }) }
    {
        self.background.push(Sent {
            link: waiting.link,
            start: time,
            octets: waiting.octets,
            number: waiting.number,
        })?;
        Ok(())
    }
}
