//! The lines of a table.
ghost use Rattle.std.specs.Prelude.{◌≡◌, ◌++◌, ◌<◌, All, OnOk, length, string_bytes};
ghost use Rattle.std.specs.List.{flat_map};
ghost use Rattle.tsn_gate.specs.Table.{name_at};
ghost use Rattle.tsn_model.specs.Network.{link_at};
ghost use Rattle.tsn_chart.specs.Listeners.{listener_shares};
ghost use Rattle.tsn_chart.specs.Table.{link_end, link_head, link_line, link_numbers, listener_head, listener_line, listener_numbers, slack_line, stream_end, stream_line, stream_lines, stream_numbers};

use crate::format::Format;
use crate::frames::sends_several;
use crate::link::LinkShare;
use crate::listener::{ListenerShare, listeners_of};
use crate::stream::StreamShare;
use std::alloc::AllocError;
use std::fmt::Write;
use tsn_gate::list::names;
use tsn_timing::Problem;

/// A table: a line for each stream and each of its listeners where they are several, one for each link, and one for the least
/// slack.
pub struct Table;

impl Format for Table {
    ghost stream_text = { stream_lines };

    ghost link_text = { link_line };

    ghost slack_text = { λ problem slack. slack_line slack };

    fn stream(text: &mut String, problem: &Problem, share: &StreamShare) -> Result<(), AllocError> {
        write_stream(text, problem, share)?;
        write_listeners(text, problem, share)
    }

    fn link(text: &mut String, problem: &Problem, share: &LinkShare) -> Result<(), AllocError> {
        begin_link(text, problem, share.link)?;
        write_link_numbers(text, share)?;
        end_link(text, problem, share)
    }

    #[tactic(auto, unfolding(crate::specs::Table::slack_line))]
    fn slack(text: &mut String, _problem: &Problem, slack: u64) -> Result<(), AllocError> {
        write!(text, "slack {slack}\n")
    }
}

// Writes a stream's line.
fn write_stream(text: &mut String, problem: &Problem, share: &StreamShare) -> Result<(), AllocError>
    requires { share.now.stream < length problem.now.stream_names }
    ensures { OnOk result (string_bytes text.new ≡ string_bytes text.old ++ stream_line problem.now share.now) }
{
    text.push_str("stream ")?;
    text.push_str(problem.stream_name(share.stream))?;
    write_stream_numbers(text, share)?;
    end_stream(text, problem, share)
}

// Writes a stream's numbers, each after its word.
#[tactic(auto, unfolding(crate::specs::Table::stream_numbers))]
fn write_stream_numbers(text: &mut String, share: &StreamShare) -> Result<(), AllocError>
    ensures { OnOk result (string_bytes text.new ≡ string_bytes text.old ++ stream_numbers share.now) }
{
    write!(
        text,
        " offset {} latency {} arrival {} to_latest {} span {} to_period_end {}",
        share.offset, share.latency, share.arrival, share.to_latest, share.span, share.to_period_end
    )
}

// Writes a line for each listener of a stream, where they are several.
fn write_listeners(
    text: &mut String,
    problem: &Problem,
    share: &StreamShare,
) -> Result<(), AllocError>
    requires { share.now.stream < length problem.now.stream_names }
    ensures { OnOk result (string_bytes text.new ≡ string_bytes text.old ++ flat_map (listener_line problem.now share.now.stream) (listener_shares problem.now.network share.now)) }
{
    // Each stream has a name.
    let _streams = problem.streams();
    let listeners = listeners_of(*text.allocator(), problem.timing(), share)?;
    write_each(text, problem, share.stream, &listeners)?;
    Ok(())
}

// Writes a line for each of these listeners of a stream.
fn write_each(
    text: &mut String,
    problem: &Problem,
    stream: usize,
    listeners: &[ListenerShare],
) -> Result<(), AllocError>
    requires stream { stream < length problem.now.stream_names }
    requires links { All (λ (listener : ListenerShare). listener.link < length problem.now.network.links) listeners.now }
    ensures { OnOk result (string_bytes text.new ≡ string_bytes text.old ++ flat_map (listener_line problem.now stream) listeners.now) }
{
    for listener in listeners {
        write_listener(text, problem, stream, listener)?;
    }
    Ok(())
}

// Writes the line of a listener of a stream.
fn write_listener(
    text: &mut String,
    problem: &Problem,
    stream: usize,
    share: &ListenerShare,
) -> Result<(), AllocError>
    requires stream { stream < length problem.now.stream_names }
    requires link { share.now.link < length problem.now.network.links }
    ensures { OnOk result (string_bytes text.new ≡ string_bytes text.old ++ listener_line problem.now stream share.now) }
{
    let (_, listener) = names(problem, share.link);
    begin_listener(text, listener, problem.stream_name(stream))?;
    write_listener_numbers(text, share)
}

// Begins a listener's line: with its name, and that of the stream that it hears.
#[tactic(auto, unfolding(crate::specs::Table::listener_head))]
fn begin_listener(text: &mut String, listener: &str, stream: &str) -> Result<(), AllocError>
    ensures { OnOk result (string_bytes text.new ≡ string_bytes text.old ++ listener_head listener.now stream.now) }
{
    write!(text, "listener {listener} stream {stream}")
}

// Ends a listener's line: with its numbers, each after its word.
#[tactic(auto, unfolding(crate::specs::Table::listener_numbers))]
fn write_listener_numbers(text: &mut String, share: &ListenerShare) -> Result<(), AllocError>
    ensures { OnOk result (string_bytes text.new ≡ string_bytes text.old ++ listener_numbers share.now) }
{
    write!(
        text,
        " link {} latency {} arrival {} to_latest {}\n",
        share.link, share.latency, share.arrival, share.to_latest
    )
}

// Begins a link's line: with its number, and the names of the nodes that it joins.
#[tactic(auto, unfolding(crate::specs::Table::link_head))]
fn begin_link(text: &mut String, problem: &Problem, link: usize) -> Result<(), AllocError>
    requires { link < length problem.now.network.links }
    ensures { OnOk result (string_bytes text.new ≡ string_bytes text.old ++ link_head link (name_at problem.now (link_at problem.now.network link).from) (name_at problem.now (link_at problem.now.network link).to)) }
{
    let (from, to) = names(problem, link);
    write!(text, "link {link} {from} {to}")
}

// Writes a link's numbers, each after its word.
#[tactic(auto, unfolding(crate::specs::Table::link_numbers))]
fn write_link_numbers(text: &mut String, share: &LinkShare) -> Result<(), AllocError>
    ensures { OnOk result (string_bytes text.new ≡ string_bytes text.old ++ link_numbers share.now) }
{
    write!(
        text,
        " scheduled {} guard {} open {} longest_open {} slack {}",
        share.scheduled, share.guard, share.open, share.longest_open, share.slack
    )
}

// Ends a stream's line: with its period and its frames in it, where some stream sends several a cycle.
#[tactic(auto, unfolding(crate::specs::Table::stream_end))]
fn end_stream(text: &mut String, problem: &Problem, share: &StreamShare) -> Result<(), AllocError>
    ensures { OnOk result (string_bytes text.new ≡ string_bytes text.old ++ stream_end problem.now.network share.now) }
{
    let period = share.period;
    let frames = share.frames;
    if sends_several(problem) {
        write!(text, " period {period} frames {frames}\n")
    } else {
        text.push_str("\n")
    }
}

// Ends a link's line: with how many windows it has, where some stream sends several frames a cycle.
#[tactic(auto, unfolding(crate::specs::Table::link_end))]
fn end_link(text: &mut String, problem: &Problem, share: &LinkShare) -> Result<(), AllocError>
    ensures { OnOk result (string_bytes text.new ≡ string_bytes text.old ++ link_end problem.now.network share.now) }
{
    let windows = share.windows;
    if sends_several(problem) {
        write!(text, " windows {windows}\n")
    } else {
        text.push_str("\n")
    }
}
