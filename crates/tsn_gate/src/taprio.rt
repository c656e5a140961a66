//! Gate control lists as a script for Linux's taprio.
ghost use Rattle.std.specs.Prelude.{◌≡◌, ◌++◌, ◌<◌, OnOk, IfOk, length, string_bytes, All};
ghost use Rattle.std.specs.List.{flat_map};
ghost use Rattle.tsn_gate.specs.Taprio.{escaped, escaped_byte, is_plain, comment_text, limits_text, link_comment, variable_text, device_text, step_text, opening_text, command_text, commands_text, first_lines, last_lines, middle_lines, part_text, setting_lines, variables_text, script_text, script_text_within, shortest_entry};

use crate::list::{GateList, names};
use std::alloc::{AllocError, Global};
use std::fmt::Write;
use tsn_model::{GateEntry, NoMemory};
use tsn_timing::Problem;

// The first lines of a script, with its variables.
const FIRST_LINES: &str =
    "#!/bin/sh\n# Each list is set on the device that its variable names, and none where that is empty.\n# BASE_TIME: when the first cycle begins, in nanoseconds of the clock CLOCKID.\n# FLAGS: empty where the kernel runs the lists, 0x2 where the device does, 0x1 for launch times, with TXTIME_DELAY.\n# MOST, LEAST: the most entries and the least nanoseconds of one that a device takes; LEAST empty: as long as 60 octets on its link.\n# DRY=1: print the commands and run none. FORCE=1: set lists that are refused for MOST or LEAST, too.\nset -eu\nCLOCKID=${CLOCKID:-CLOCK_TAI}\nBASE_TIME=${BASE_TIME:-0}\nFLAGS=${FLAGS:-}\nTXTIME_DELAY=${TXTIME_DELAY:-0}\nDRY=${DRY:-}\nFORCE=${FORCE:-}\n";

// The lines behind the variables of the devices: what the variables make.
const SETTING_LINES: &str =
    "\ncase $FLAGS in\n'') CLOCK=\"clockid $CLOCKID\" ;;\n0x1 | 1) CLOCK=\"flags $FLAGS txtime-delay $TXTIME_DELAY clockid $CLOCKID\" ;;\n*) CLOCK=\"flags $FLAGS\" ;;\nesac\n\n# Ends the script where a variable is no number.\nnumber() {\n    case $2 in\n    '' | *[!0123456789]* | ???????????????????*)\n        echo \"$1 is no number of at most 18 digits: $2\" >&2\n        exit 1\n        ;;\n    esac\n}\nnumber MOST \"$MOST\"\nnumber LEAST \"${LEAST:-0}\"\n";

// The lines before the lists: what is done with each list.
const MIDDLE_LINES: &str =
    "REFUSED=\n\n# Tells what a device doesn't take of its list: more than MOST entries, or one shorter than LEAST nanoseconds.\njudge() {\n    least=${LEAST:-$1}\n    device=$2\n    shift 2\n    entries=0\n    shortest=$least\n    while [ $# -gt 0 ]; do\n        if [ \"$1\" = sched-entry ]; then\n            entries=$((entries + 1))\n            [ \"$4\" -ge \"$shortest\" ] || shortest=$4\n            shift 3\n        fi\n        shift\n    done\n    if [ \"$entries\" -gt \"$MOST\" ]; then\n        echo \"$device: $entries entries, more than $MOST\" >&2\n        REFUSED=1\n    fi\n    if [ \"$shortest\" -lt \"$least\" ]; then\n        echo \"$device: an entry of $shortest ns, shorter than $least\" >&2\n        REFUSED=1\n    fi\n}\n\n# Sets a list on its device.\nput() {\n    device=$2\n    shift 2\n    if [ -n \"$DRY\" ]; then\n        echo tc qdisc replace dev \"$device\" \"$@\"\n    else\n        tc qdisc replace dev \"$device\" \"$@\"\n    fi\n}\n\neach_list() {\n    :\n";

// The last lines: each list is judged before any is set.
const LAST_LINES: &str =
    "}\n\neach_list judge\nif [ -n \"$REFUSED\" ] && [ -z \"$FORCE\" ]; then\n    echo \"No list is set; FORCE=1 sets them all.\" >&2\n    exit 1\nfi\neach_list put\n";

// The last line of a link's list.
const LAST_LINE: &str = "    $CLOCK\n";

/// What a device takes of a gate control list.
#[derive(Clone, Copy)]
pub struct DeviceLimits {
    /// The most entries.
    pub most: usize,
    /// The shortest entry, in nanoseconds; if it isn't given, as long as 60 octets take on the list's link.
    pub least: Option<u64>,
}

/// What Linux takes: 30 entries fit into a message of `tc`, and the kernel refuses an entry within which 60 octets don't fit,
/// 480 ns at 1000 Mb/s, 4,800 at 100 and 48,000 at 10.
pub const LINUX: DeviceLimits = DeviceLimits {
    most: 30,
    least: None,
};

// How many octets have to fit into an entry, for Linux.
const SHORTEST_OCTETS: u64 = 60;

/// The script of `to_taprio_within` for what Linux takes.
///
/// # Errors
///
/// There was no memory.
pub fn to_taprio(alloc: Global, problem: &Problem, lists: &[GateList]) -> Result<String, NoMemory>
    requires { All (λ list. list.link < length problem.now.network.links) lists.now }
    ensures { IfOk result (λ text. string_bytes text ≡ script_text problem.now lists.now) }
{
    to_taprio_within(alloc, problem, lists, LINUX)
}

/// The lists as a shell script, with a command of `tc` for each that sets it on a device of eight queues, one for each traffic
/// class. The device of link 4 is in the variable `DEV_4`, the clock in `CLOCKID` and the instant at which the first cycle
/// begins in `BASE_TIME`; the caller's environment may set them, and `FLAGS`, `TXTIME_DELAY`, `DRY`, `FORCE`, `MOST` and
/// `LEAST`, whose meaning the script says. It sets no list where a device's has more entries than the limits allow, or a
/// shorter one, unless `FORCE` is set, nor where `MOST` or `LEAST` is no number. A comment on each link names the nodes that
/// it joins: in it a byte of no printable ASCII character, or of a backslash, stands as `\x` and its two hexadecimal digits.
///
/// # Errors
///
/// There was no memory.
pub fn to_taprio_within(
    alloc: Global,
    problem: &Problem,
    lists: &[GateList],
    limits: DeviceLimits,
) -> Result<String, NoMemory>
    requires { All (λ list. list.link < length problem.now.network.links) lists.now }
    ensures { IfOk result (λ text. string_bytes text ≡ script_text_within limits.most limits.least problem.now lists.now) }
{
    let mut text = first_text(alloc)?;
    write_variables(&mut text, problem, lists, limits)?;
    write_commands(&mut text, problem, lists)?;
    Ok(text)
}

// Writes the variables of what a device takes, and those of the devices.
fn write_variables(
    text: &mut String,
    problem: &Problem,
    lists: &[GateList],
    limits: DeviceLimits,
) -> Result<(), AllocError>
    requires { All (λ list. list.link < length problem.now.network.links) lists.now }
    ensures { OnOk result (string_bytes text.new ≡ string_bytes text.old ++ variables_text limits.most limits.least problem.now lists.now) }
{
    write_limits(text, limits)?;
    write_devices(text, problem, lists)
}

// Writes what is done with each list, and the lists' commands.
fn write_commands(
    text: &mut String,
    problem: &Problem,
    lists: &[GateList],
) -> Result<(), AllocError>
    requires { All (λ list. list.link < length problem.now.network.links) lists.now }
    ensures { OnOk result (string_bytes text.new ≡ string_bytes text.old ++ commands_text problem.now lists.now) }
{
    write_setting(text)?;
    write_middle(text)?;
    write_parts(text, problem, lists)?;
    write_last(text)
}

// A script's first lines.
#[tactic(auto, unfolding(crate::specs::Taprio::first_lines))]
fn first_text(alloc: Global) -> Result<String, AllocError>
    ensures { IfOk result (λ text. string_bytes text ≡ first_lines) }
{
    String::from_str(alloc, FIRST_LINES)
}

// Writes the lines behind the variables.
#[tactic(auto, unfolding(crate::specs::Taprio::setting_lines))]
fn write_setting(text: &mut String) -> Result<(), AllocError>
    ensures { OnOk result (string_bytes text.new ≡ string_bytes text.old ++ setting_lines) }
{
    text.push_str(SETTING_LINES)
}

// Writes the lines before the lists.
#[tactic(auto, unfolding(crate::specs::Taprio::middle_lines))]
fn write_middle(text: &mut String) -> Result<(), AllocError>
    ensures { OnOk result (string_bytes text.new ≡ string_bytes text.old ++ middle_lines) }
{
    text.push_str(MIDDLE_LINES)
}

// Writes the lines behind the lists.
#[tactic(auto, unfolding(crate::specs::Taprio::last_lines))]
fn write_last(text: &mut String) -> Result<(), AllocError>
    ensures { OnOk result (string_bytes text.new ≡ string_bytes text.old ++ last_lines) }
{
    text.push_str(LAST_LINES)
}

// Writes the variables of what a device takes.
#[tactic(auto, unfolding(crate::specs::Taprio::limits_text))]
fn write_limits(text: &mut String, limits: DeviceLimits) -> Result<(), AllocError>
    ensures { OnOk result (string_bytes text.new ≡ string_bytes text.old ++ limits_text limits.most limits.least) }
{
    let most = limits.most;
    match limits.least {
        None => write!(text, "MOST=${{MOST:-{most}}}\nLEAST=${{LEAST:-}}\n"),
        Some(least) => write!(text, "MOST=${{MOST:-{most}}}\nLEAST=${{LEAST:-{least}}}\n"),
    }
}

// Writes the variables of the devices.
fn write_devices(text: &mut String, problem: &Problem, lists: &[GateList]) -> Result<(), AllocError>
    requires { All (λ list. list.link < length problem.now.network.links) lists.now }
    ensures { OnOk result (string_bytes text.new ≡ string_bytes text.old ++ flat_map (device_text problem.now) lists.now) }
{
    for list in lists {
        write_link(text, problem, list.link())?;
        write_variable(text, list.link())?;
    }
    Ok(())
}

fn write_parts(text: &mut String, problem: &Problem, lists: &[GateList]) -> Result<(), AllocError>
    requires { All (λ list. list.link < length problem.now.network.links) lists.now }
    ensures { OnOk result (string_bytes text.new ≡ string_bytes text.old ++ flat_map (part_text problem.now) lists.now) }
{
    for list in lists {
        write_part(text, problem, list)?;
    }
    Ok(())
}

fn write_part(text: &mut String, problem: &Problem, list: &GateList) -> Result<(), AllocError>
    requires { list.now.link < length problem.now.network.links }
    ensures { OnOk result (string_bytes text.new ≡ string_bytes text.old ++ part_text problem.now list.now) }
{
    text.push_str("\n")?;
    write_link(text, problem, list.link())?;
    write_command(text, problem, list)
}

#[tactic(auto, unfolding(crate::specs::Taprio::command_text))]
fn write_command(text: &mut String, problem: &Problem, list: &GateList) -> Result<(), AllocError>
    ensures { OnOk result (string_bytes text.new ≡ string_bytes text.old ++ command_text problem.now.network list.now) }
{
    let shortest = shortest_entry(problem, list.link());
    write_opening(text, list.link(), shortest, list.cycle())?;
    write_steps(text, list.entries())?;
    text.push_str(LAST_LINE)
}

/// The shortest entry that Linux takes on a link, in nanoseconds: as long as 60 octets. 0 where the network has no such link.
pub(crate) fn shortest_entry(problem: &Problem, link: usize) -> u64
    ensures { result ≡ shortest_entry problem.now.network link }
{
    if link >= problem.links() {
        return 0;
    }
    // The network is within its limits.
    let _limits = problem.cycle();
    SHORTEST_OCTETS * problem.link(link).octet_time
}

// Writes the lines of the entries.
fn write_steps(text: &mut String, entries: &[GateEntry]) -> Result<(), AllocError>
    ensures { OnOk result (string_bytes text.new ≡ string_bytes text.old ++ flat_map step_text entries.now) }
{
    for entry in entries {
        write_step(text, *entry)?;
    }
    Ok(())
}

fn write_link(text: &mut String, problem: &Problem, link: usize) -> Result<(), AllocError>
    requires { link < length problem.now.network.links }
    ensures { OnOk result (string_bytes text.new ≡ string_bytes text.old ++ link_comment problem.now link) }
{
    let (from, to) = names(problem, link);
    write_comment(text, link, from, to)
}

// Writes a comment with a link's number and the names of its ends.
#[tactic(auto, unfolding(crate::specs::Taprio::comment_text))]
fn write_comment(text: &mut String, link: usize, from: &str, to: &str) -> Result<(), AllocError>
    ensures { OnOk result (string_bytes text.new ≡ string_bytes text.old ++ comment_text link from.now to.now) }
{
    write!(text, "# link {link}: ")?;
    write_escaped(text, from)?;
    text.push_str(" to ")?;
    write_escaped(text, to)?;
    text.push_str("\n")
}

// Writes a name so that a comment may hold it.
fn write_escaped(text: &mut String, name: &str) -> Result<(), AllocError>
    ensures { OnOk result (string_bytes text.new ≡ string_bytes text.old ++ escaped name.now) }
{
    for byte in name.as_bytes() {
        write_escaped_byte(text, *byte)?;
    }
    Ok(())
}

// Writes a byte of a name.
#[tactic(auto, using(std::proofs::lemmas::Fmt::hex_byte), unfolding(crate::specs::Taprio::escaped_byte))]
fn write_escaped_byte(text: &mut String, byte: u8) -> Result<(), AllocError>
    ensures { OnOk result (string_bytes text.new ≡ string_bytes text.old ++ escaped_byte byte) }
{
    if is_plain(byte) {
        text.push(char::from(byte))
    } else {
        write!(text, "\\x{byte:02X}")
    }
}

// Whether a byte is a printable ASCII character but the backslash.
fn is_plain(byte: u8) -> bool
    ensures { result ≡ is_plain byte }
{
    32 <= byte && byte < 127 && byte != b'\\'
}

// Writes the variable of a link's device.
#[tactic(auto, unfolding(crate::specs::Taprio::variable_text))]
fn write_variable(text: &mut String, link: usize) -> Result<(), AllocError>
    ensures { OnOk result (string_bytes text.new ≡ string_bytes text.old ++ variable_text link) }
{
    write!(text, "DEV_{link}=${{DEV_{link}:-}}\n")
}

// Writes the head of a link's command.
#[tactic(auto, unfolding(crate::specs::Taprio::opening_text))]
fn write_opening(
    text: &mut String,
    link: usize,
    shortest: u64,
    cycle: u64,
) -> Result<(), AllocError>
    ensures { OnOk result (string_bytes text.new ≡ string_bytes text.old ++ opening_text link shortest cycle) }
{
    write!(
        text,
        "[ -z \"$DEV_{link}\" ] || \"$1\" {shortest} \"$DEV_{link}\" parent root handle 100 taprio \\\n    num_tc 8 map 0 1 2 3 4 5 6 7 0 0 0 0 0 0 0 0 \\\n    queues 1@0 1@1 1@2 1@3 1@4 1@5 1@6 1@7 \\\n    base-time \"$BASE_TIME\" cycle-time {cycle} \\\n"
    )
}

#[tactic(auto, using(std::proofs::lemmas::Fmt::hex_byte), unfolding(crate::specs::Taprio::step_text))]
fn write_step(text: &mut String, entry: GateEntry) -> Result<(), AllocError>
    ensures { OnOk result (string_bytes text.new ≡ string_bytes text.old ++ step_text entry) }
{
    let octet = entry.octet;
    let interval = entry.interval;
    write!(text, "    sched-entry S {octet:02X} {interval} \\\n")
}
