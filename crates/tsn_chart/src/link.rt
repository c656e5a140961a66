//! What a link gets.
ghost use Rattle.std.specs.Prelude.{◌≡◌, ◌++◌, ◌≤◌, ◌<◌, ◌↔◌, ℕ, [], ◌∷◌, All, IfOk, OnOk, length};
ghost use Rattle.tsn_model.specs.Schedule.{IsValid};
ghost use Rattle.tsn_model.specs.Early.{ToleratesOn};
ghost use Rattle.tsn_gate.specs.GateLists.{IsUsed};
ghost use Rattle.tsn_chart.specs.Shares.{AreLinkShares, IsLinkShare, time_in, time_of};

use crate::frames::windows_on;
use crate::rest::{BACKGROUND, longest_open};
use std::alloc::{AllocError, Global};
use tsn_gate::{GateEntry, GateList, slack_on};
use tsn_model::NoMemory;
use tsn_timing::{Timing, Valid};

// The gate of the scheduled class (7) alone open.
const SCHEDULED: u8 = 0x80;

// All gates closed.
const CLOSED: u8 = 0x00;

/// What a link gets in each cycle of its gate control list, in nanoseconds.
#[derive(Clone, Copy)]
pub struct LinkShare {
    /// The directed link.
    pub link: usize,
    /// How long it is open for the scheduled class alone.
    pub scheduled: u64,
    /// How long all its gates are closed.
    pub guard: u64,
    /// How long it is open for the background classes alone.
    pub open: u64,
    /// The longest time of those without a break, which may go on over the cycle's end; a link that is always open has the
    /// cycle.
    pub longest_open: u64,
    /// The greatest slack that it tolerates: scheduled frames that are ready for it by at most that much sooner than planned
    /// still start when planned.
    pub slack: u64,
    /// How many scheduled frames occupy it.
    pub windows: u64,
}

/// What a list's link, which some stream uses, gets by the list and a valid schedule.
///
/// # Errors
///
/// There was no memory.
pub fn link_share(
    alloc: Global,
    timing: &Timing,
    valid: &Valid,
    list: &GateList,
) -> Result<LinkShare, NoMemory>
    requires valid { IsValid timing.now valid.now }
    requires used { IsUsed timing.now list.now.link }
    ensures { IfOk result (IsLinkShare timing.now valid.now list.now) }
{
    let slack = slack_of(alloc, timing, valid, list)?;
    Ok(LinkShare {
        link: list.link(),
        scheduled: time_of(list, SCHEDULED),
        guard: time_of(list, CLOSED),
        open: time_of(list, BACKGROUND),
        longest_open: longest_open(list),
        slack,
        windows: windows_on(timing.plain(), list.link()),
    })
}

/// What the link of each list gets, in their order.
///
/// # Errors
///
/// There was no memory.
pub fn link_shares(
    alloc: Global,
    timing: &Timing,
    valid: &Valid,
    lists: &[GateList],
) -> Result<Vec<LinkShare>, NoMemory>
    requires valid { IsValid timing.now valid.now }
    requires used { All (λ list. IsUsed timing.now list.link) lists.now }
    ensures { IfOk result (λ shares. AreLinkShares timing.now valid.now lists.now shares.items) }
{
    let mut shares = Vec::new(alloc);
    for list in lists {
        let share = link_share(alloc, timing, valid, list)?;
        add(&mut shares, share)?;
    }
    Ok(shares)
}

fn add(shares: &mut Vec<LinkShare>, share: LinkShare) -> Result<(), AllocError>
    ensures { OnOk result (shares.new.items ≡ shares.old.items ++ share ∷ []) }
{
    shares.push(share)?;
    Ok(())
}

/// The least slack of some links, one at least.
pub fn least_slack(shares: &[LinkShare]) -> u64
    requires { 0 < length shares.now }
    ensures { (n : ℕ) → All (λ (share : LinkShare). n ≤ share.slack) shares.now ↔ (n ≤ result) }
{
    let mut least = shares[0].slack;
    for share in shares {
        least = least.min(share.slack);
    }
    least
}

// How early frames may be ready for a list's link.
fn slack_of(alloc: Global, timing: &Timing, valid: &Valid, list: &GateList) -> Result<u64, NoMemory>
    requires valid { IsValid timing.now valid.now }
    requires used { IsUsed timing.now list.now.link }
    ensures { IfOk result (λ slack. (n : ℕ) → ToleratesOn timing.now valid.now list.now.link n ↔ (n ≤ slack)) }
{
    slack_on(alloc, timing, valid, list.link())
}

// How long the gates are as the octet says.
fn time_of(list: &GateList, octet: u8) -> u64
    ensures { result ≡ time_of octet list.now.entries }
{
    time_in_all(list.entries(), octet)
}

// How long the entries show the octet.
fn time_in_all(entries: &[GateEntry], octet: u8) -> u64
    requires { time_of octet entries.now ≤ 1_000_000_000 }
    ensures { result ≡ time_of octet entries.now }
{
    let mut time = 0;
    for entry in entries {
        time += time_in(*entry, octet);
    }
    time
}

// How long an entry shows the octet.
fn time_in(entry: GateEntry, octet: u8) -> u64
    ensures { result ≡ time_in octet entry }
{
    if entry.octet == octet {
        entry.interval
    } else {
        0
    }
}
