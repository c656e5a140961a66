//! What a command answers.
ghost use Rattle.std.specs.Prelude.{◌≡◌, IfOk, Some, option_map, string_bytes};
ghost use Rattle.tsn_outcome.specs.Said.{code_of, flowspan_of, line_of, place_of, settled_of, status_of, stop_of, text_if, violation_number};

use crate::run::{DEVICE, DONE, MEMORY, NO_SCHEDULE, REFUSED, REJECTED, STOPPED};
use crate::stop::{SpanOr, Stop};
use std::alloc::Global;
use std::fmt;
use tsn_cert::FileFault;
use tsn_check::CheckFault;
use tsn_model::{NetFault, NoMemory, Triple, Violation};

/// The kind of a file that is refused.
#[derive(Clone, Copy)]
pub enum FileKind {
    Plan,
    Cert,
}

impl fmt::Display for FileKind {
    ghost use Rattle.tsn_outcome.specs.Said.{kind_text};

    ghost output = { λ kind. Some (kind_text kind) };

    fn fmt<W: fmt::Write>(&self, f: &mut fmt::Formatter<W>) -> fmt::Result {
        match self {
            FileKind::Plan => write!(f, "plan"),
            FileKind::Cert => write!(f, "cert"),
        }
    }
}

/// What a command answers. Flowspans are in nanoseconds. What was settled are nodes of a search, the steps of an argument that was
/// found, or the conflicts that the search for one met. It prints its line, without the line's end.
#[derive(Clone, Copy)]
pub enum Outcome {
    /// The network is taken, and nothing is said of it.
    Taken,
    /// The offsets are a valid schedule.
    Valid {
        flowspan: u64,
    },
    /// They are none, and this is the first reason.
    NotValid(Violation),
    /// The first schedule of least flowspan was found.
    Optimal {
        flowspan: u64,
        settled: usize,
    },
    /// There is no valid schedule.
    NoSchedule {
        settled: usize,
    },
    /// The limit was met, and this is known then.
    Stopped {
        known: Stop,
        settled: usize,
    },
    /// No valid schedule undercuts the plan, of this flowspan where it is a schedule.
    Proved {
        stated: Option<u64>,
        settled: usize,
    },
    /// A valid schedule does.
    Undercut {
        stated: Option<u64>,
        better: u64,
        settled: usize,
    },
    /// The certificate shows that no valid schedule has a lesser flowspan than the plan.
    AcceptedOptimal {
        flowspan: u64,
    },
    /// Nor does another one of that flowspan come before it.
    AcceptedFirst {
        flowspan: u64,
    },
    /// The certificate shows that there is no valid schedule.
    AcceptedNone,
    /// The network file is refused.
    RefusedNetwork(NetFault),
    /// A plan or certificate file is refused.
    RefusedFile(FileKind, FileFault),
    /// The plan isn't as it says.
    RefusedPlan(CheckFault),
    /// The certificate doesn't show what the plan says.
    RefusedCert(CheckFault),
    /// A file is too long.
    TooLong,
    /// There are more streams than the search that was asked for takes.
    TooMany,
    /// A growth was refused.
    NoMemory,
    /// A device failed, of which nothing is said on standard output.
    Failed,
}

impl Outcome {
    /// The status of a run that ends so.
    pub fn status(self) -> u8
        ensures { result ≡ status_of self }
    {
        match self {
            Outcome::Taken
            | Outcome::Valid { .. }
            | Outcome::Optimal { .. }
            | Outcome::Proved { .. }
            | Outcome::AcceptedOptimal { .. }
            | Outcome::AcceptedFirst { .. }
            | Outcome::AcceptedNone => DONE,
            Outcome::RefusedNetwork(_)
            | Outcome::RefusedFile(..)
            | Outcome::TooLong
            | Outcome::TooMany => REFUSED,
            Outcome::NoSchedule { .. } => NO_SCHEDULE,
            Outcome::Stopped { .. } => STOPPED,
            Outcome::NotValid(_)
            | Outcome::Undercut { .. }
            | Outcome::RefusedPlan(_)
            | Outcome::RefusedCert(_) => REJECTED,
            Outcome::NoMemory => MEMORY,
            Outcome::Failed => DEVICE,
        }
    }

    /// The line, with its end; empty where nothing is said.
    #[tactic(auto, using(crate::proofs::SaidLemmas::ended_more))]
    pub fn line(self, alloc: Global) -> Result<String, NoMemory>
        ensures { IfOk result (λ line. string_bytes line ≡ line_of self) }
    {
        let mut line = format!(in alloc; "{self}")?;
        if !line.is_empty() {
            line.push_str("\n")?;
        }
        Ok(line)
    }

    /// The flowspan of the schedule; of an undercut plan and the better one, that of the better one.
    pub fn flowspan(self) -> Option<u64>
        ensures { result ≡ flowspan_of self }
    {
        match self {
            Outcome::Valid { flowspan }
            | Outcome::Optimal { flowspan, .. }
            | Outcome::AcceptedOptimal { flowspan }
            | Outcome::AcceptedFirst { flowspan } => Some(flowspan),
            Outcome::Undercut { better, .. } => Some(better),
            Outcome::Stopped { known, .. } => known.best,
            Outcome::Proved { stated, .. } => stated,
            _ => None,
        }
    }

    /// How many nodes were settled, how many steps an argument has, or how many conflicts were met.
    pub fn settled(self) -> Option<usize>
        ensures { result ≡ settled_of self }
    {
        match self {
            Outcome::Optimal { settled, .. }
            | Outcome::NoSchedule { settled }
            | Outcome::Stopped { settled, .. }
            | Outcome::Proved { settled, .. }
            | Outcome::Undercut { settled, .. } => Some(settled),
            _ => None,
        }
    }

    /// What is known where the limit was met.
    pub fn stop(self) -> Option<Stop>
        ensures { result ≡ stop_of self }
    {
        match self {
            Outcome::Stopped { known, .. } => Some(known),
            _ => None,
        }
    }

    /// The code of what is refused, as `N8`.
    pub fn code(self, alloc: Global) -> Result<Option<String>, NoMemory>
        ensures { IfOk result (λ code. option_map string_bytes code ≡ code_of self) }
    {
        let code = match self {
            Outcome::NotValid(violation) => format!(in alloc; "V{}", violation_number(violation))?,
            Outcome::RefusedNetwork(fault) => format!(in alloc; "{}", fault.code)?,
            Outcome::RefusedFile(_, fault) => format!(in alloc; "C{}", fault.number())?,
            Outcome::RefusedPlan(fault) | Outcome::RefusedCert(fault) => {
                format!(in alloc; "K{}", fault.number())?
            }
            _ => return Ok(None),
        };
        Ok(Some(code))
    }

    /// The place of a fault: a stream, two streams, their link and a lag that isn't 0, or a node or step; of a file, which of them it is.
    pub fn place(self, alloc: Global) -> Result<Option<String>, NoMemory>
        ensures { IfOk result (λ place. option_map string_bytes place ≡ place_of self) }
    {
        Ok(text_if(format!(in alloc; "{}", Place("", self))?))
    }
}

/// A text, where it isn't empty.
#[tactic(auto, using(crate::proofs::SaidLemmas::some_text))]
pub(crate) fn text_if(text: String) -> Option<String>
    ensures { option_map string_bytes result ≡ text_if (string_bytes text) }
{
    if text.is_empty() { None } else { Some(text) }
}

fn violation_number(violation: Violation) -> u8
    ensures { result ≡ violation_number violation }
{
    match violation {
        Violation::WrongCount => 1,
        Violation::PastCycle(_) => 2,
        Violation::Overlap(_) => 3,
        Violation::Early(_) => 4,
        Violation::TooLate(_) => 5,
    }
}

impl fmt::Display for Outcome {
    ghost use Rattle.tsn_outcome.specs.Said.{said};

    ghost output = { λ outcome. Some (said outcome) };

    fn fmt<W: fmt::Write>(&self, f: &mut fmt::Formatter<W>) -> fmt::Result {
        let place = Place(" ", *self);
        match *self {
            Outcome::Taken | Outcome::Failed => Ok(()),
            Outcome::Valid { flowspan } => write!(f, "valid flowspan {flowspan}"),
            Outcome::NotValid(violation) => {
                let number = violation_number(violation);
                write!(f, "not valid V{number}{place}")
            }
            Outcome::Optimal { flowspan, settled } => {
                write!(f, "optimal {flowspan} settled {settled}")
            }
            Outcome::NoSchedule { settled } => write!(f, "no schedule settled {settled}"),
            Outcome::Stopped { known, settled } => {
                let best = SpanOr("none", known.best);
                write!(f, "stopped {best} settled {settled}")
            }
            Outcome::Proved { stated, settled } => {
                let stated = SpanOr("no schedule", stated);
                write!(f, "proved {stated} settled {settled}")
            }
            Outcome::Undercut {
                stated,
                better,
                settled,
            } => {
                let stated = SpanOr("none", stated);
                write!(f, "undercut {stated} by {better} settled {settled}")
            }
            Outcome::AcceptedOptimal { flowspan } => write!(f, "accepted optimal {flowspan}"),
            Outcome::AcceptedFirst { flowspan } => write!(f, "accepted first {flowspan}"),
            Outcome::AcceptedNone => write!(f, "accepted no schedule"),
            Outcome::RefusedNetwork(fault) => write!(f, "refused {fault}"),
            Outcome::RefusedFile(kind, fault) => write!(f, "refused {kind} C{}", fault.number()),
            Outcome::RefusedPlan(fault) => { write!(f, "plan refused K{}{place}", fault.number()) }
            Outcome::RefusedCert(fault) => {
                write!(f, "certificate refused K{}{place}", fault.number())
            }
            Outcome::TooLong => write!(f, "too long"),
            Outcome::TooMany => write!(f, "too many streams"),
            Outcome::NoMemory => write!(f, "no memory"),
        }
    }
}

/// The place of a fault behind a text; nothing where it has none.
#[derive(Clone, Copy)]
struct Place(&'static str, Outcome);

impl fmt::Display for Place {
    ghost use Rattle.tsn_outcome.specs.Said.{place_behind};

    ghost output = { λ place. Some (place_behind place.0.now place.1) };

    fn fmt<W: fmt::Write>(&self, f: &mut fmt::Formatter<W>) -> fmt::Result {
        let before = self.0;
        match self.1 {
            Outcome::NotValid(violation) => match violation {
                Violation::WrongCount => Ok(()),
                Violation::PastCycle(stream)
                | Violation::Early(stream)
                | Violation::TooLate(stream) => write!(f, "{before}stream {stream}"),
                Violation::Overlap(triple) => {
                    let Triple {
                        left,
                        right,
                        link,
                        ..
                    } = triple;
                    write!(f, "{before}{left} {right} {link}{}", Behind(triple.lag))
                }
            },
            Outcome::RefusedNetwork(fault) => write!(f, "{before}{}", fault.place),
            Outcome::RefusedFile(kind, _) => write!(f, "{before}{kind}"),
            Outcome::RefusedPlan(fault) | Outcome::RefusedCert(fault) => match fault.node() {
                Some(node) => write!(f, "{before}node {node}"),
                None => Ok(()),
            },
            _ => Ok(()),
        }
    }
}

/// What follows the link of an overlap: its lag, where that isn't 0.
#[derive(Clone, Copy)]
struct Behind(i64);

impl fmt::Display for Behind {
    ghost use Rattle.tsn_outcome.specs.Said.{lag_text};

    ghost output = { λ lag. Some (lag_text lag.0) };

    fn fmt<W: fmt::Write>(&self, f: &mut fmt::Formatter<W>) -> fmt::Result {
        if self.0 == 0 {
            return Ok(());
        }
        write!(f, " {}", self.0)
    }
}
