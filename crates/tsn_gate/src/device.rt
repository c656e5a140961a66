//! What a device doesn't take of gate control lists.
ghost use Rattle.std.specs.Prelude.{◌≡◌, ◌++◌, IfOk, OnOk, string_bytes};
ghost use Rattle.tsn_gate.specs.Device.{closed_lines, closed_text, device_line, has_background, is_short, least_on, limits_lines, long_text, short_text};

use crate::list::GateList;
use crate::taprio::{DeviceLimits, shortest_entry};
use crate::timeline::BACKGROUND;
use std::alloc::{AllocError, Global};
use std::fmt::Write;
use tsn_model::{GateEntry, NoMemory};
use tsn_timing::Problem;

/// A line for each list that has more entries than a device takes, and one for each that has an entry shorter than it takes on
/// the list's link; the lists in their order. No text where the device takes them all.
///
/// # Errors
///
/// There was no memory.
pub fn device_lines(
    alloc: Global,
    problem: &Problem,
    lists: &[GateList],
    limits: DeviceLimits,
) -> Result<String, NoMemory>
    ensures { IfOk result (λ text. string_bytes text ≡ limits_lines problem.now.network limits.most limits.least lists.now) }
{
    let mut text = String::new(alloc);
    for list in lists {
        write_lines(&mut text, problem, list, limits)?;
    }
    Ok(text)
}

/// A line for each list in which the background's gates are never open; the lists in their order. No text where there is none.
///
/// # Errors
///
/// There was no memory.
pub fn closed_lines(alloc: Global, lists: &[GateList]) -> Result<String, NoMemory>
    ensures { IfOk result (λ text. string_bytes text ≡ closed_lines lists.now) }
{
    let mut text = String::new(alloc);
    for list in lists {
        write_closed(&mut text, list)?;
    }
    Ok(text)
}

// Writes that a list leaves others no time, where it doesn't.
#[tactic(auto, unfolding(crate::specs::Device::closed_text))]
fn write_closed(text: &mut String, list: &GateList) -> Result<(), AllocError>
    ensures { OnOk result (string_bytes text.new ≡ string_bytes text.old ++ closed_text list.now) }
{
    let link = list.link();
    if has_background(list.entries()) {
        Ok(())
    } else {
        write!(text, "link {link}: no time is left to other frames\n")
    }
}

// Whether the background's gates are open in an entry.
fn has_background(entries: &[GateEntry]) -> bool
    ensures { result ≡ has_background entries.now }
{
    for entry in entries {
        if entry.octet == BACKGROUND {
            return true;
        }
    }
    false
}

// Writes what a device doesn't take of a list.
fn write_lines(
    text: &mut String,
    problem: &Problem,
    list: &GateList,
    limits: DeviceLimits,
) -> Result<(), AllocError>
    ensures { OnOk result (string_bytes text.new ≡ string_bytes text.old ++ device_line problem.now.network limits.most limits.least list.now) }
{
    write_long(text, list, limits.most)?;
    write_short(text, list, least_on(problem, limits.least, list.link()))
}

// The shortest entry that a device takes on a link, in nanoseconds.
fn least_on(problem: &Problem, least: Option<u64>, link: usize) -> u64
    ensures { result ≡ least_on problem.now.network least link }
{
    match least {
        Some(least) => least,
        None => shortest_entry(problem, link),
    }
}

// Writes that a list has too many entries, where it has.
#[tactic(auto, unfolding(crate::specs::Device::long_text))]
fn write_long(text: &mut String, list: &GateList, most: usize) -> Result<(), AllocError>
    ensures { OnOk result (string_bytes text.new ≡ string_bytes text.old ++ long_text most list.now) }
{
    let link = list.link();
    let entries = list.entries().len();
    if entries > most {
        write!(text, "link {link}: {entries} entries, more than {most}\n")
    } else {
        Ok(())
    }
}

// Writes that a list has an entry that is too short, where it has.
#[tactic(auto, unfolding(crate::specs::Device::short_text))]
fn write_short(text: &mut String, list: &GateList, least: u64) -> Result<(), AllocError>
    ensures { OnOk result (string_bytes text.new ≡ string_bytes text.old ++ short_text least list.now) }
{
    let link = list.link();
    if is_short(list.entries(), least) {
        write!(text, "link {link}: an entry shorter than {least} ns\n")
    } else {
        Ok(())
    }
}

fn is_short(entries: &[GateEntry], least: u64) -> bool
    ensures { result ≡ is_short least entries.now }
{
    for entry in entries {
        if entry.interval < least {
            return true;
        }
    }
    false
}
