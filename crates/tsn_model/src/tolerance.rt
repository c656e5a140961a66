//! How early frames may be ready on a link, in nanoseconds.

ghost use Rattle.std.specs.Prelude.{◌≡◌, ◌+◌, ◌≤◌, ◌<◌, ◌↔◌, ℕ, List, length, All, AllPairs};
ghost use Rattle.tsn_model.specs.Network.{stream_count, route_of, hop_count, route_link, Continues};
ghost use Rattle.tsn_model.specs.Timing.{hop_delay};
ghost use Rattle.tsn_model.specs.Schedule.{IsValid};
ghost use Rattle.tsn_model.specs.Early.{ToleratesOn};
ghost use Rattle.tsn_model.specs.Tolerance.{AreStartsOn, AreFar};
ghost use Rattle.tsn_model.specs.PlainWords.{Under};

use crate::plain::PlainNetwork;

/// The greatest slack that a valid schedule tolerates on a link, whose planned starts in a cycle are these, one at least.
pub fn tolerance(network: &PlainNetwork, link: usize, starts: &[u64]) -> u64
    ghost offsets: { List ℕ }
    requires valid { IsValid network.now offsets }
    requires starts { AreStartsOn network.now offsets link starts.now }
    requires some { 0 < length starts.now }
    ensures { (slack : ℕ) → ToleratesOn network.now offsets link slack ↔ (slack ≤ result) }
{
    let gap = least_gap(network.cycle(), starts);
    least_delay(network, link, gap) - 1
}

// The least time from one of these instants of the cycle to the next, over the cycle's end too.
fn least_gap(cycle: u64, starts: &[u64]) -> u64
    requires cycle { cycle ≤ 1_000_000_000 }
    requires some { 0 < length starts.now }
    requires in_order { AllPairs ◌<◌ starts.now }
    requires within { All (λ start. start < cycle) starts.now }
    ensures { (slack : ℕ) → (slack < result) ↔ AreFar cycle starts.now slack }
{
    let mut least = starts[0] + cycle - starts[starts.len() - 1];
    for k in 1..starts.len() {
        least = least.min(starts[k] - starts[k - 1]);
    }
    least
}

// The least delay of a hop that one over the link continues, at most `most`.
fn least_delay(network: &PlainNetwork, link: usize, most: u64) -> u64
    ensures { Under result most (λ slack. (i : ℕ) → i < stream_count network.now
        → ((before k : ℕ) → before < hop_count network.now i → k < hop_count network.now i → Continues network.now (route_of network.now i) before k → route_link network.now i k ≡ link → slack < hop_delay network.now i (route_link network.now i before))) }
{
    let mut least = most;
    for i in 0..network.streams() {
        least = delay_before(network, link, i, least);
    }
    least
}

// The delay of the hop of stream `i` that its hop over the link continues, if there is one, at most `most`.
fn delay_before(network: &PlainNetwork, link: usize, i: usize, most: u64) -> u64
    requires { i < stream_count network.now }
    ensures { Under result most (λ slack. (before k : ℕ) → before < hop_count network.now i → k < hop_count network.now i → Continues network.now (route_of network.now i) before k → route_link network.now i k ≡ link → slack < hop_delay network.now i (route_link network.now i before)) }
{
    // The network is within its limits.
    let _limits = network.cycle();
    if network.hop_on(i, link).is_none() {
        return most;
    }
    let from = network.link(link).from;
    let mut least = most;
    for k in 0..network.hops(i) {
        let before = network.route_link(i, k);
        if network.link(before).to == from {
            least = least.min(network.hop_delay(i, before));
        }
    }
    least
}
