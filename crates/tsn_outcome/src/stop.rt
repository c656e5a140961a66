//! What is known where a search was stopped.
ghost use Rattle.std.specs.Prelude.{◌≡◌, IfOk, Some, string_bytes, true};
ghost use Rattle.tsn_outcome.specs.Stop.{is_least, known_text, stop_text};

use std::alloc::Global;
use std::fmt;
use tsn_model::NoMemory;

/// What is known where a search was stopped, in nanoseconds.
#[derive(Clone, Copy)]
pub struct Stop {
    /// The least flowspan of a schedule that is known, if any.
    pub best: Option<u64>,
    /// What no valid schedule's flowspan is below.
    pub bound: u64,
}

/// A number of nanoseconds, printed as these words where there is none.
#[derive(Clone, Copy)]
pub(crate) struct SpanOr(pub(crate) &'static str, pub(crate) Option<u64>);

impl fmt::Display for SpanOr {
    ghost use Rattle.tsn_outcome.specs.Stop.{span_or};

    ghost output = { λ span. Some (span_or span.0.now span.1) };

    fn fmt<W: fmt::Write>(&self, f: &mut fmt::Formatter<W>) -> fmt::Result {
        match self.1 {
            Some(span) => write!(f, "{span}"),
            None => f.write_str(self.0),
        }
    }
}

impl Stop {
    /// The line on it. Where the flowspan is shown to be the least it says so, and what writes a certificate of that: this command.
    /// The error says that there was no memory.
    pub fn line(&self, alloc: Global, writer: &str) -> Result<String, NoMemory>
        ensures { IfOk result (λ line. string_bytes line ≡ stop_text self.now writer.now) }
    {
        let Stop { best, bound } = *self;
        if is_least(best, bound) {
            return line_of_least(alloc, best, bound, writer);
        }
        Ok(format!(in alloc;
            "best {}, and no schedule finishes before {bound}",
            SpanOr("none", best)
        )?)
    }
}

/// The line where the schedule that is known is the least.
fn line_of_least(
    alloc: Global,
    best: Option<u64>,
    bound: u64,
    writer: &str,
) -> Result<String, NoMemory>
    ensures { IfOk result (λ line. string_bytes line ≡ known_text true best bound writer.now) }
{
    let best = SpanOr("none", best);
    Ok(format!(in alloc;
        "best {best}, and no schedule finishes before {bound}: that is the least flowspan, and {writer} writes its certificate"
    )?)
}

/// Whether the best schedule is known to be the least: none finishes before it.
fn is_least(best: Option<u64>, bound: u64) -> bool
    ensures { result ≡ is_least best bound }
{
    match best {
        Some(best) => best == bound,
        None => false,
    }
}
