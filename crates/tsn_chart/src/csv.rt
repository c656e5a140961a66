//! The records of comma-separated values (RFC 4180).
ghost use Rattle.std.specs.Prelude.{◌≡◌, ◌++◌, ◌<◌, All, IfOk, OnOk, codes, length, string_bytes};
ghost use Rattle.std.specs.List.{flat_map};
ghost use Rattle.tsn_gate.specs.Table.{name_at};
ghost use Rattle.tsn_model.specs.Network.{link_at};
ghost use Rattle.tsn_text.specs.Field.{quoted_field};
ghost use Rattle.tsn_chart.specs.Csv.{header_text, link_end, link_numbers, link_record, listener_numbers, listener_record, plain_end, slack_record, stream_end, stream_numbers, stream_record, stream_records};
ghost use Rattle.tsn_chart.specs.Listeners.{listener_shares};

use crate::format::Format;
use crate::frames::sends_several;
use crate::link::LinkShare;
use crate::listener::{ListenerShare, listeners_of};
use crate::stream::StreamShare;
use std::alloc::{AllocError, Global};
use std::fmt::Write;
use tsn_gate::list::names;
use tsn_text::write_quoted;
use tsn_timing::Problem;

// The names of the fields that each record has.
const HEADER: &str =
    "stream,offset,latency,arrival,to_latest,span,to_period_end,link,from,to,scheduled,guard,open,longest_open,slack";

/// Comma-separated values: a record for each stream and each of its listeners where they are several, one for each link, and
/// one for the least slack.
pub struct Csv;

impl Format for Csv {
    ghost stream_text = { stream_records };

    ghost link_text = { link_record };

    ghost slack_text = { λ problem slack. slack_record problem.network slack };

    fn stream(text: &mut String, problem: &Problem, share: &StreamShare) -> Result<(), AllocError> {
        write_stream(text, problem, share)?;
        write_listeners(text, problem, share)
    }

    #[tactic(auto, unfolding(crate::specs::Csv::link_head))]
    fn link(text: &mut String, problem: &Problem, share: &LinkShare) -> Result<(), AllocError> {
        write!(text, ",,,,,,,{},", share.link)?;
        write_names(text, problem, share.link)?;
        write_link_numbers(text, share)?;
        end_link(text, problem, share)
    }

    fn slack(text: &mut String, problem: &Problem, slack: u64) -> Result<(), AllocError> {
        write!(text, ",,,,,,,,,,,,,,{slack}")?;
        end_plain(text, problem)
    }
}

/// The first line: the names of the fields, with those of frames where some stream sends several a cycle.
pub fn header(alloc: Global, problem: &Problem) -> Result<String, AllocError>
    ensures { IfOk result (λ text. string_bytes text ≡ header_text problem.now.network) }
{
    let mut text = String::from_str(alloc, HEADER)?;
    if sends_several(problem) {
        text.push_str(",period,frames,windows\r\n")?;
    } else {
        text.push_str("\r\n")?;
    }
    Ok(text)
}

// Writes a stream's record.
fn write_stream(text: &mut String, problem: &Problem, share: &StreamShare) -> Result<(), AllocError>
    requires { share.now.stream < length problem.now.stream_names }
    ensures { OnOk result (string_bytes text.new ≡ string_bytes text.old ++ stream_record problem.now share.now) }
{
    write_quoted(text, problem.stream_name(share.stream))?;
    write_stream_numbers(text, share)?;
    end_stream(text, problem, share)
}

// Writes a stream's numbers, each after a comma, and the empty fields of a link.
#[tactic(auto, unfolding(crate::specs::Csv::stream_numbers))]
fn write_stream_numbers(text: &mut String, share: &StreamShare) -> Result<(), AllocError>
    ensures { OnOk result (string_bytes text.new ≡ string_bytes text.old ++ stream_numbers share.now) }
{
    write!(
        text,
        ",{},{},{},{},{},{},,,,,,,,",
        share.offset, share.latency, share.arrival, share.to_latest, share.span, share.to_period_end
    )
}

// Writes a record for each listener of a stream, where they are several.
fn write_listeners(
    text: &mut String,
    problem: &Problem,
    share: &StreamShare,
) -> Result<(), AllocError>
    requires { share.now.stream < length problem.now.stream_names }
    ensures { OnOk result (string_bytes text.new ≡ string_bytes text.old ++ flat_map (listener_record problem.now share.now.stream) (listener_shares problem.now.network share.now)) }
{
    // Each stream has a name.
    let _streams = problem.streams();
    let listeners = listeners_of(*text.allocator(), problem.timing(), share)?;
    write_each(text, problem, share.stream, &listeners)?;
    Ok(())
}

// Writes a record for each of these listeners of a stream.
fn write_each(
    text: &mut String,
    problem: &Problem,
    stream: usize,
    listeners: &[ListenerShare],
) -> Result<(), AllocError>
    requires stream { stream < length problem.now.stream_names }
    requires links { All (λ (listener : ListenerShare). listener.link < length problem.now.network.links) listeners.now }
    ensures { OnOk result (string_bytes text.new ≡ string_bytes text.old ++ flat_map (listener_record problem.now stream) listeners.now) }
{
    for listener in listeners {
        write_listener(text, problem, stream, listener)?;
    }
    Ok(())
}

// Writes the record of a listener of a stream.
fn write_listener(
    text: &mut String,
    problem: &Problem,
    stream: usize,
    share: &ListenerShare,
) -> Result<(), AllocError>
    requires stream { stream < length problem.now.stream_names }
    requires link { share.now.link < length problem.now.network.links }
    ensures { OnOk result (string_bytes text.new ≡ string_bytes text.old ++ listener_record problem.now stream share.now) }
{
    write_quoted(text, problem.stream_name(stream))?;
    write_listener_numbers(text, share)?;
    write_names(text, problem, share.link)?;
    text.push_str(",,,,,")?;
    end_plain(text, problem)
}

// Writes a listener's numbers of those that a stream has, each after a comma, and its link's number.
#[tactic(auto, unfolding(crate::specs::Csv::listener_numbers))]
fn write_listener_numbers(text: &mut String, share: &ListenerShare) -> Result<(), AllocError>
    ensures { OnOk result (string_bytes text.new ≡ string_bytes text.old ++ listener_numbers share.now) }
{
    write!(
        text,
        ",,{},{},{},,,{},",
        share.latency, share.arrival, share.to_latest, share.link
    )
}

// Writes the names in quotes of the nodes that a link joins.
fn write_names(text: &mut String, problem: &Problem, link: usize) -> Result<(), AllocError>
    requires { link < length problem.now.network.links }
    ensures { OnOk result (string_bytes text.new ≡ string_bytes text.old ++ (quoted_field (name_at problem.now (link_at problem.now.network link).from) ++ (codes "," ++ quoted_field (name_at problem.now (link_at problem.now.network link).to)))) }
{
    let (from, to) = names(problem, link);
    write_quoted(text, from)?;
    text.push_str(",")?;
    write_quoted(text, to)
}

// Writes a link's numbers, each after a comma.
#[tactic(auto, unfolding(crate::specs::Csv::link_numbers))]
fn write_link_numbers(text: &mut String, share: &LinkShare) -> Result<(), AllocError>
    ensures { OnOk result (string_bytes text.new ≡ string_bytes text.old ++ link_numbers share.now) }
{
    write!(
        text,
        ",{},{},{},{},{}",
        share.scheduled, share.guard, share.open, share.longest_open, share.slack
    )
}

// Ends a stream's record: with its period and its frames in it, where some stream sends several a cycle.
#[tactic(auto, unfolding(crate::specs::Csv::stream_end))]
fn end_stream(text: &mut String, problem: &Problem, share: &StreamShare) -> Result<(), AllocError>
    ensures { OnOk result (string_bytes text.new ≡ string_bytes text.old ++ stream_end problem.now.network share.now) }
{
    let period = share.period;
    let frames = share.frames;
    if sends_several(problem) {
        write!(text, ",{period},{frames},\r\n")
    } else {
        text.push_str("\r\n")
    }
}

// Ends a link's record: with how many windows it has, where some stream sends several frames a cycle.
#[tactic(auto, unfolding(crate::specs::Csv::link_end))]
fn end_link(text: &mut String, problem: &Problem, share: &LinkShare) -> Result<(), AllocError>
    ensures { OnOk result (string_bytes text.new ≡ string_bytes text.old ++ link_end problem.now.network share.now) }
{
    let windows = share.windows;
    if sends_several(problem) {
        write!(text, ",,,{windows}\r\n")
    } else {
        text.push_str("\r\n")
    }
}

// Ends a record with none of these: with their empty fields, where some stream sends several frames a cycle.
#[tactic(auto, unfolding(crate::specs::Csv::plain_end))]
fn end_plain(text: &mut String, problem: &Problem) -> Result<(), AllocError>
    ensures { OnOk result (string_bytes text.new ≡ string_bytes text.old ++ plain_end problem.now.network) }
{
    if sends_several(problem) {
        text.push_str(",,,\r\n")
    } else {
        text.push_str("\r\n")
    }
}
