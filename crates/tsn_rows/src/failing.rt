//! Commands whose devices fail: each read and each write once, in turn.

use crate::command::run_over;
use crate::devices::{Device, Devices, RunResult};
use crate::folder::Folder;
use anyhow::{Result, ensure};
use std::sync::Wait;
use std::thread::Threads;

/// Runs the words over devices that move a byte a call, and then once for each call of each device, which fails. How many
/// failed, which is at least one.
pub fn fail_each<R: AllocGlobal + Threads + Wait + Sync>(
    rt: &R,
    words: &[&str],
    folder: &Folder,
) -> Result<u64> {
    let whole = run_over(rt, words, folder, Devices::Slow)?;
    let mut failed = 0u64;
    for device in [
        Device::Network,
        Device::Plan,
        Device::Cert,
        Device::PlanFile,
        Device::CertFile,
        Device::Output,
    ] {
        failed = failed.saturating_add(fail_calls(rt, words, folder, device, &whole)?);
    }
    ensure!(failed > 0, "no device has a call that fails");
    Ok(failed)
}

// Lets each call of a device fail, until a run has fewer calls: how many there are.
fn fail_calls<R: AllocGlobal + Threads + Wait + Sync>(
    rt: &R,
    words: &[&str],
    folder: &Folder,
    device: Device,
    whole: &RunResult,
) -> Result<u64> {
    for good_calls in 0..u64::MAX {
        let found = run_over(rt, words, folder, Devices::Failing(device, good_calls))?;
        if found == *whole {
            return Ok(good_calls);
        }
        ensure!(
            found.status == 8,
            "call {good_calls} of a device fails, and it ends with another status"
        );
        ensure!(
            is_cut(device, good_calls, whole, &found),
            "call {good_calls} of a device fails, and something else is written than the text before it"
        );
        ensure!(
            is_told(device, found.told.as_str()),
            "call {good_calls} of a device fails, and standard error doesn't say which"
        );
    }
    Ok(u64::MAX)
}

// Whether what was written is whole before the device that failed, ends where that did, and nothing stands behind it.
fn is_cut(device: Device, good_calls: u64, whole: &RunResult, found: &RunResult) -> bool {
    let (plan, cert, output) = match device {
        Device::PlanFile => (good_calls, 0, 0),
        Device::CertFile => (u64::MAX, good_calls, 0),
        Device::Output => (u64::MAX, u64::MAX, good_calls),
        _ => (0, 0, 0),
    };
    is_beginning(plan, &whole.plan, &found.plan)
        && is_beginning(cert, &whole.cert, &found.cert)
        && is_beginning(output, &whole.output, &found.output)
}

// Whether this is the line on a device that failed.
fn is_told(device: Device, line: &str) -> bool {
    match device {
        Device::PlanFile => line.starts_with("the plan: cannot be written: "),
        Device::CertFile => line.starts_with("the certificate: cannot be written: "),
        Device::Output => line.starts_with("standard output: cannot be written: "),
        _ => line.contains(": cannot be read: "),
    }
}

// Whether these are the first so many bytes, or all where there are fewer.
fn is_beginning(count: u64, whole: &[u8], found: &[u8]) -> bool {
    found.len() as u64 == count.min(whole.len() as u64) && whole.starts_with(found)
}
