//! Networks that several tests plan: stations round bridges, and streams between them.
#![tactic(auto)]

use std::alloc::{AllocError, Global};
use tsn_net::read_problem;
use tsn_timing::{Problem, Timing};

/// A network, but for its cycle. Its nodes are the stations and then the bridges.
#[derive(Clone, Copy)]
pub struct Network {
    pub stations: &'static [&'static str],
    /// Each with its processing time, in nanoseconds.
    pub bridges: &'static [(&'static str, u64)],
    pub cables: &'static [Cable],
    /// Each with the octets of a frame, and its route in quotes.
    pub streams: &'static [(&'static str, u64, &'static str)],
}

/// Its two ends, its rate in Mb/s, and its propagation delay in nanoseconds.
pub type Cable = (&'static str, &'static str, u64, u64);

impl Network {
    /// The network of a cycle of so many nanoseconds; none where there is no memory, or its file is refused.
    pub fn problem(self, alloc: Global, cycle: u64) -> Option<Problem> {
        let file = self.file(alloc, cycle).ok()?;
        read_problem(alloc, file.as_bytes()).ok()
    }

    /// Its times.
    pub fn timing(self, alloc: Global, cycle: u64) -> Option<Timing> {
        let problem = self.problem(alloc, cycle)?;
        let timing = problem.timing().copy(alloc);
        drop(problem);
        timing.ok()
    }

    /// Its file.
    pub fn file(self, alloc: Global, cycle: u64) -> Result<String, AllocError> {
        let mut file = format!(in alloc; "cycle = {cycle}\n")?;
        self.write_nodes(alloc, &mut file)?;
        self.write_cables(alloc, &mut file)?;
        self.write_streams(alloc, &mut file)?;
        Ok(file)
    }

    fn write_nodes(self, alloc: Global, file: &mut String) -> Result<(), AllocError> {
        for name in self.stations {
            let node = format!(in alloc; "[[node]]\nname = '{name}'\nkind = 'station'\n")?;
            file.push_str(node.as_str())?;
        }
        for (name, proc) in self.bridges {
            let node = format!(in alloc;
                "[[node]]\nname = '{name}'\nkind = 'bridge'\nproc = {proc}\n"
            )?;
            file.push_str(node.as_str())?;
        }
        Ok(())
    }

    fn write_cables(self, alloc: Global, file: &mut String) -> Result<(), AllocError> {
        for (a, b, mbps, prop) in self.cables {
            let link = format!(in alloc;
                "[[link]]\na = '{a}'\nb = '{b}'\nmbps = {mbps}\nprop = {prop}\n"
            )?;
            file.push_str(link.as_str())?;
        }
        Ok(())
    }

    fn write_streams(self, alloc: Global, file: &mut String) -> Result<(), AllocError> {
        for (name, octets, route) in self.streams {
            let stream = format!(in alloc;
                "[[stream]]\nname = '{name}'\noctets = {octets}\nroute = [{route}]\n"
            )?;
            file.push_str(stream.as_str())?;
        }
        Ok(())
    }
}

/// Stations A, B and C round bridge S, and two streams that share link 4, from there to C.
pub const TWO: Network = Network {
    stations: &["A", "B", "C"],
    bridges: &[("S", 1000)],
    cables: &[
        ("A", "S", 1000, 50),
        ("B", "S", 1000, 50),
        ("S", "C", 1000, 50),
    ],
    streams: &[("one", 64, "'A', 'S', 'C'"), ("two", 64, "'B', 'S', 'C'")],
};

/// Its first stream alone.
pub const ONE: Network = Network {
    streams: &[("one", 64, "'A', 'S', 'C'")],
    ..TWO
};

/// The second stream is of 1522 octets.
pub const LONG: Network = Network {
    streams: &[("one", 64, "'A', 'S', 'C'"), ("two", 1522, "'B', 'S', 'C'")],
    ..TWO
};

/// Two streams that share no link.
pub const THERE_AND_BACK: Network = Network {
    streams: &[("one", 64, "'A', 'S', 'C'"), ("two", 64, "'C', 'S', 'A'")],
    ..TWO
};

/// Bridges without processing time, and two streams that share links 4 and 12, which lie apart: the cable between, from T to V, is long.
pub const LOOP: Network = Network {
    stations: &["A", "B", "C"],
    bridges: &[("S", 0), ("T", 0), ("V", 0), ("U", 0)],
    cables: &[
        ("A", "S", 1000, 0),
        ("B", "S", 1000, 0),
        ("S", "T", 1000, 0),
        ("T", "V", 1000, 768),
        ("V", "U", 1000, 0),
        ("T", "U", 1000, 0),
        ("U", "C", 1000, 0),
    ],
    streams: &[
        ("one", 64, "'A', 'S', 'T', 'V', 'U', 'C'"),
        ("two", 64, "'B', 'S', 'T', 'U', 'C'"),
    ],
};

/// Two bridges in a line, without delays but those of the frames, and two streams that share the links from S to T and from there to C.
pub const LINE: Network = Network {
    stations: &["A", "B", "C"],
    bridges: &[("S", 0), ("T", 0)],
    cables: &[
        ("A", "S", 1000, 0),
        ("B", "S", 1000, 0),
        ("S", "T", 1000, 0),
        ("T", "C", 1000, 0),
    ],
    streams: &[
        ("one", 64, "'A', 'S', 'T', 'C'"),
        ("two", 64, "'B', 'S', 'T', 'C'"),
    ],
};

/// Ten streams, each from a station of its own over one bridge to the same station.
pub const TEN: Network = Network {
    stations: &[
        "A0", "A1", "A2", "A3", "A4", "A5", "A6", "A7", "A8", "A9", "C",
    ],
    bridges: &[("S", 1000)],
    cables: &[
        ("A0", "S", 1000, 50),
        ("A1", "S", 1000, 50),
        ("A2", "S", 1000, 50),
        ("A3", "S", 1000, 50),
        ("A4", "S", 1000, 50),
        ("A5", "S", 1000, 50),
        ("A6", "S", 1000, 50),
        ("A7", "S", 1000, 50),
        ("A8", "S", 1000, 50),
        ("A9", "S", 1000, 50),
        ("S", "C", 1000, 50),
    ],
    streams: &[
        ("s0", 64, "'A0', 'S', 'C'"),
        ("s1", 64, "'A1', 'S', 'C'"),
        ("s2", 64, "'A2', 'S', 'C'"),
        ("s3", 64, "'A3', 'S', 'C'"),
        ("s4", 64, "'A4', 'S', 'C'"),
        ("s5", 64, "'A5', 'S', 'C'"),
        ("s6", 64, "'A6', 'S', 'C'"),
        ("s7", 64, "'A7', 'S', 'C'"),
        ("s8", 64, "'A8', 'S', 'C'"),
        ("s9", 64, "'A9', 'S', 'C'"),
    ],
};

/// Twelve streams of one route of two links: 66 conflicts are decided above the first schedule.
pub const TWELVE: Network = Network {
    stations: &["A", "C"],
    bridges: &[("S", 1000)],
    cables: &[("A", "S", 1000, 50), ("S", "C", 1000, 50)],
    streams: &[
        ("s0", 64, "'A', 'S', 'C'"),
        ("s1", 64, "'A', 'S', 'C'"),
        ("s2", 64, "'A', 'S', 'C'"),
        ("s3", 64, "'A', 'S', 'C'"),
        ("s4", 64, "'A', 'S', 'C'"),
        ("s5", 64, "'A', 'S', 'C'"),
        ("s6", 64, "'A', 'S', 'C'"),
        ("s7", 64, "'A', 'S', 'C'"),
        ("s8", 64, "'A', 'S', 'C'"),
        ("s9", 64, "'A', 'S', 'C'"),
        ("s10", 64, "'A', 'S', 'C'"),
        ("s11", 64, "'A', 'S', 'C'"),
    ],
};
