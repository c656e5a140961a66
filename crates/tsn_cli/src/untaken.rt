//! What a device doesn't take of gate control lists, which leave others no time, and what isn't promised of merged ones.

use crate::options::GatesOptions;
use std::alloc::Global;
use tsn_gate::{GateList, closed_lines, device_lines};
use tsn_model::NoMemory;
use tsn_timing::Problem;
use tsn_words::GatesFormat;

/// A line where merged lists aren't promised to bear the network's slack; and where they are printed as a script for a device, one for
/// each merged list that leaves others no time, and for each that has more entries than the device takes, or a shorter one than it takes.
pub(crate) fn untaken(
    alloc: Global,
    problem: &Problem,
    lists: &[GateList],
    options: GatesOptions,
) -> Result<String, NoMemory> {
    let mut text = unborne(alloc, problem, options.merge)?;
    match options.format {
        GatesFormat::Taprio => push_lines(&mut text, problem, lists, options)?,
        GatesFormat::Table | GatesFormat::Json => (),
    }
    Ok(text)
}

fn push_lines(
    text: &mut String,
    problem: &Problem,
    lists: &[GateList],
    options: GatesOptions,
) -> Result<(), NoMemory> {
    let alloc = *text.allocator();
    match options.merge {
        Some(_) => text.push_str(closed_lines(alloc, lists)?.as_str())?,
        None => (),
    }
    text.push_str(device_lines(alloc, problem, lists, options.limits)?.as_str())?;
    Ok(())
}

/// A line where merged lists aren't promised to bear the slack that the network asks for.
pub(crate) fn unborne(
    alloc: Global,
    problem: &Problem,
    merge: Option<u64>,
) -> Result<String, NoMemory> {
    let mut text = String::new(alloc);
    let slack = problem.timing().slack();
    match merge {
        Some(_) if slack > 0 => write!(
            text,
            "merged lists: frames that are ready early by the slack of {slack} ns aren't promised to start when planned\n"
        )?,
        _ => (),
    }
    Ok(text)
}
