//! The lines of JSON.
ghost use Rattle.std.specs.Prelude.{◌≡◌, ◌++◌, ◌<◌, All, IfOk, OnOk, false, length, string_bytes};
ghost use Rattle.serde_json.specs.Data.{no_members, object};
ghost use Rattle.serde_json.specs.View.{members_view, view};
ghost use Rattle.serde_json.specs.Written.{has_float};
ghost use Rattle.tsn_chart.specs.Json.{line_text, link_json, link_value, listener_value, listener_values, slack_json, slack_value, stream_json, stream_members, stream_value, windows_value, with_frames, with_listeners};

use crate::format::Format;
use crate::frames::sends_several;
use crate::link::LinkShare;
use crate::listener::{ListenerShare, listeners_of};
use crate::stream::StreamShare;
use serde_json::{Map, Value, put};
use std::alloc::{AllocError, Global};
use tsn_gate::json::{put_number, put_text};
use tsn_gate::list::names;
use tsn_timing::{Problem, has_several};

/// Lines of JSON: an object for each stream and each link, and one for the least slack.
pub struct Json;

impl Format for Json {
    ghost stream_text = { stream_json };

    ghost link_text = { link_json };

    ghost slack_text = { λ problem slack. slack_json slack };

    fn stream(text: &mut String, problem: &Problem, share: &StreamShare) -> Result<(), AllocError> {
        let value = stream_value(*text.allocator(), problem, share)?;
        write_line(text, &value)
    }

    fn link(text: &mut String, problem: &Problem, share: &LinkShare) -> Result<(), AllocError> {
        if sends_several(problem) {
            let value = windows_value(*text.allocator(), problem, share)?;
            write_line(text, &value)
        } else {
            let value = link_value(*text.allocator(), problem, share)?;
            write_line(text, &value)
        }
    }

    fn slack(text: &mut String, _problem: &Problem, slack: u64) -> Result<(), AllocError> {
        let value = slack_value(*text.allocator(), slack)?;
        write_line(text, &value)
    }
}

fn stream_value(alloc: Global, problem: &Problem, share: &StreamShare) -> Result<Value, AllocError>
    requires { share.now.stream < length problem.now.stream_names }
    ensures value { IfOk result (λ value. view value ≡ stream_value problem.now share.now) }
    ensures plain { IfOk result (λ value. has_float (view value) ≡ false) }
{
    let mut members = stream_members(alloc, problem, share)?;
    put_frames(&mut members, alloc, problem, share)?;
    put_listeners(&mut members, alloc, problem, share)?;
    Ok(Value::Object(members))
}

fn stream_members(
    alloc: Global,
    problem: &Problem,
    share: &StreamShare,
) -> Result<Map<String, Value>, AllocError>
    requires { share.now.stream < length problem.now.stream_names }
    ensures { IfOk result (λ members. members_view members.entries ≡ stream_members problem.now share.now) }
{
    let mut members = Map::new(alloc);
    put_stream(&mut members, alloc, problem, share)?;
    Ok(members)
}

// Makes the members of a stream's object.
fn put_stream(
    members: &mut Map<String, Value>,
    alloc: Global,
    problem: &Problem,
    share: &StreamShare,
) -> Result<(), AllocError>
    requires none { members_view members.old.entries ≡ no_members }
    requires stream { share.now.stream < length problem.now.stream_names }
    ensures { OnOk result (members_view members.new.entries ≡ stream_members problem.now share.now) }
{
    put_number(members, alloc, "arrival", share.arrival)?;
    put_number(members, alloc, "latency", share.latency)?;
    put_number(members, alloc, "offset", share.offset)?;
    put_number(members, alloc, "span", share.span)?;
    put_text(members, alloc, "stream", problem.stream_name(share.stream))?;
    put_number(members, alloc, "to_latest", share.to_latest)?;
    put_number(members, alloc, "to_period_end", share.to_period_end)
}

// Adds the period of a stream and its frames in it, where some stream sends several a cycle.
fn put_frames(
    members: &mut Map<String, Value>,
    alloc: Global,
    problem: &Problem,
    share: &StreamShare,
) -> Result<(), AllocError>
    ensures { OnOk result (members_view members.new.entries ≡ with_frames problem.now.network share.now (members_view members.old.entries)) }
{
    let period = share.period;
    let frames = share.frames;
    if sends_several(problem) {
        put_number(members, alloc, "frames", frames)?;
        put_number(members, alloc, "period", period)
    } else {
        Ok(())
    }
}

// Adds the listeners of a stream, where they are several.
fn put_listeners(
    members: &mut Map<String, Value>,
    alloc: Global,
    problem: &Problem,
    share: &StreamShare,
) -> Result<(), AllocError>
    requires { share.now.stream < length problem.now.stream_names }
    ensures { OnOk result (members_view members.new.entries ≡ with_listeners problem.now share.now (members_view members.old.entries)) }
{
    // Each stream has a name.
    let _streams = problem.streams();
    if has_several(problem.timing(), share.stream) {
        let listeners = listeners_of(alloc, problem.timing(), share)?;
        let values = listener_values(alloc, problem, &listeners)?;
        put(members, alloc, "listeners", values)
    } else {
        Ok(())
    }
}

fn listener_values(
    alloc: Global,
    problem: &Problem,
    listeners: &[ListenerShare],
) -> Result<Value, AllocError>
    requires { All (λ (listener : ListenerShare). listener.link < length problem.now.network.links) listeners.now }
    ensures { IfOk result (λ value. view value ≡ listener_values problem.now listeners.now) }
{
    let mut values = Vec::with_capacity(alloc, listeners.len())?;
    for listener in listeners {
        values.push(listener_value(alloc, problem, listener)?)?;
    }
    Ok(Value::Array(values))
}

fn listener_value(
    alloc: Global,
    problem: &Problem,
    share: &ListenerShare,
) -> Result<Value, AllocError>
    requires { share.now.link < length problem.now.network.links }
    ensures { IfOk result (λ value. view value ≡ listener_value problem.now share.now) }
{
    let mut members = Map::new(alloc);
    put_listener(&mut members, alloc, problem, share)?;
    Ok(Value::Object(members))
}

// Makes the members of a listener's object.
fn put_listener(
    members: &mut Map<String, Value>,
    alloc: Global,
    problem: &Problem,
    share: &ListenerShare,
) -> Result<(), AllocError>
    requires none { members_view members.old.entries ≡ no_members }
    requires link { share.now.link < length problem.now.network.links }
    ensures { OnOk result (object (members_view members.new.entries) ≡ listener_value problem.now share.now) }
{
    let (_, listener) = names(problem, share.link);
    put_number(members, alloc, "arrival", share.arrival)?;
    put_number(members, alloc, "latency", share.latency)?;
    put_number(members, alloc, "link", share.link as u64)?;
    put_text(members, alloc, "listener", listener)?;
    put_number(members, alloc, "to_latest", share.to_latest)
}

fn link_value(alloc: Global, problem: &Problem, share: &LinkShare) -> Result<Value, AllocError>
    requires { share.now.link < length problem.now.network.links }
    ensures { IfOk result (λ value. view value ≡ link_value problem.now share.now) }
{
    let members = link_members(alloc, problem, share)?;
    Ok(Value::Object(members))
}

fn windows_value(alloc: Global, problem: &Problem, share: &LinkShare) -> Result<Value, AllocError>
    requires { share.now.link < length problem.now.network.links }
    ensures { IfOk result (λ value. view value ≡ windows_value problem.now share.now) }
{
    let mut members = link_members(alloc, problem, share)?;
    put_number(&mut members, alloc, "windows", share.windows)?;
    Ok(Value::Object(members))
}

fn link_members(
    alloc: Global,
    problem: &Problem,
    share: &LinkShare,
) -> Result<Map<String, Value>, AllocError>
    requires { share.now.link < length problem.now.network.links }
    ensures { IfOk result (λ members. object (members_view members.entries) ≡ link_value problem.now share.now) }
{
    let mut members = Map::new(alloc);
    put_link(&mut members, alloc, problem, share)?;
    Ok(members)
}

// Makes the members of a link's object.
fn put_link(
    members: &mut Map<String, Value>,
    alloc: Global,
    problem: &Problem,
    share: &LinkShare,
) -> Result<(), AllocError>
    requires none { members_view members.old.entries ≡ no_members }
    requires link { share.now.link < length problem.now.network.links }
    ensures { OnOk result (object (members_view members.new.entries) ≡ link_value problem.now share.now) }
{
    let (from, to) = names(problem, share.link);
    put_text(members, alloc, "from", from)?;
    put_number(members, alloc, "guard", share.guard)?;
    put_number(members, alloc, "link", share.link as u64)?;
    put_number(members, alloc, "longest_open", share.longest_open)?;
    put_number(members, alloc, "open", share.open)?;
    put_number(members, alloc, "scheduled", share.scheduled)?;
    put_number(members, alloc, "slack", share.slack)?;
    put_text(members, alloc, "to", to)
}

fn slack_value(alloc: Global, slack: u64) -> Result<Value, AllocError>
    ensures { IfOk result (λ value. view value ≡ slack_value slack) }
{
    let mut members = Map::new(alloc);
    put_number(&mut members, alloc, "slack", slack)?;
    Ok(Value::Object(members))
}

fn write_line(text: &mut String, value: &Value) -> Result<(), AllocError>
    requires { has_float (view value.now) ≡ false }
    ensures { OnOk result (string_bytes text.new ≡ string_bytes text.old ++ line_text (view value.now)) }
{
    let line = value.to_string(*text.allocator())?;
    text.push_str(line.as_str())?;
    text.push_str("\n")
}
