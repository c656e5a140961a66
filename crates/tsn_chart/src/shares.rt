//! What all streams and links get.
ghost use Rattle.std.specs.Prelude.{◌≡◌, ◌+◌, ◌≤◌, ◌<◌, ◌↔◌, ℕ, All, IfOk, length};
ghost use Rattle.tsn_model.specs.Schedule.{IsValid};
ghost use Rattle.tsn_model.specs.Early.{Tolerates};
ghost use Rattle.tsn_chart.specs.Shares.{AreSharesOfLinks, stream_shares};

use crate::link::{LinkShare, least_slack, link_shares};
use crate::stream::{StreamShare, stream_shares};
use std::alloc::Global;
use tsn_gate::gate_lists;
use tsn_model::NoMemory;
use tsn_timing::{Problem, Valid};

/// What each stream gets by a schedule, in stream order, and each directed link that a stream uses, by link number.
#[derive(Drop)]
pub struct Shares {
    pub streams: Vec<StreamShare>,
    pub links: Vec<LinkShare>,
    /// The greatest slack that all links tolerate.
    pub slack: u64,
}

/// What the streams and links get by a valid schedule, the links by the gate control lists that it asks for.
///
/// # Errors
///
/// There was no memory.
pub fn plan_shares(alloc: Global, problem: &Problem, valid: &Valid) -> Result<Shares, NoMemory>
    requires { IsValid problem.now.network valid.now }
    ensures streams { IfOk result (λ shares. shares.streams.items ≡ stream_shares problem.now.network valid.now) }
    ensures links { IfOk result (λ shares. AreSharesOfLinks problem.now.network valid.now shares.links.items) }
    ensures whole { IfOk result (λ shares. All (λ (share : LinkShare). share.scheduled + share.guard + share.open ≡ problem.now.network.cycle) shares.links.items) }
    ensures named { IfOk result (λ shares. All (λ (share : StreamShare). share.stream < length problem.now.stream_names) shares.streams.items) }
    ensures exist { IfOk result (λ shares. All (λ (share : LinkShare). share.link < length problem.now.network.links) shares.links.items) }
    ensures slack { IfOk result (λ shares. (n : ℕ) → Tolerates problem.now.network valid.now (λ link. n) ↔ (n ≤ shares.slack)) }
{
    // The network is within its limits, so some link is used.
    let _limits = problem.cycle();
    let streams = of_streams(alloc, problem, valid)?;
    let links = of_links(alloc, problem, valid)?;
    let slack = least_slack(&links);
    Ok(Shares {
        streams,
        links,
        slack,
    })
}

fn of_streams(alloc: Global, problem: &Problem, valid: &Valid) -> Result<Vec<StreamShare>, NoMemory>
    requires { IsValid problem.now.network valid.now }
    ensures value { IfOk result (λ shares. shares.items ≡ stream_shares problem.now.network valid.now) }
    ensures named { IfOk result (λ shares. All (λ (share : StreamShare). share.stream < length problem.now.stream_names) shares.items) }
{
    // Each stream has a name.
    let _streams = problem.streams();
    stream_shares(alloc, problem.timing(), valid)
}

fn of_links(alloc: Global, problem: &Problem, valid: &Valid) -> Result<Vec<LinkShare>, NoMemory>
    requires { IsValid problem.now.network valid.now }
    ensures value { IfOk result (λ shares. AreSharesOfLinks problem.now.network valid.now shares.items) }
    ensures whole { IfOk result (λ shares. All (λ (share : LinkShare). share.scheduled + share.guard + share.open ≡ problem.now.network.cycle) shares.items) }
    ensures exist { IfOk result (λ shares. All (λ (share : LinkShare). share.link < length problem.now.network.links) shares.items) }
{
    let lists = gate_lists(alloc, problem, valid)?;
    let shares = link_shares(alloc, problem.timing(), valid, &lists);
    drop(lists);
    shares
}
