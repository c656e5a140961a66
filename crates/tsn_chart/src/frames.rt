//! How many frames the streams send in a cycle.
ghost use Rattle.std.specs.Prelude.{◌≡◌, ◌*◌, ◌<◌};
ghost use Rattle.tsn_model.specs.Network.{stream_count, turns_of, burst_of, frame_count};
ghost use Rattle.tsn_chart.specs.Shares.{frames_on, sends_several, windows_on};

use tsn_model::plain::PlainNetwork;

/// Whether the streams send more frames in a cycle than there are streams.
#[tactic(auto, unfolding(crate::specs::Shares::sends_several))]
pub fn sends_several(network: &PlainNetwork) -> bool
    ensures { result ≡ sends_several network.now }
{
    frame_count(network) > network.streams() as u64
}

// How many frames all streams send in a cycle.
fn frame_count(network: &PlainNetwork) -> u64
    ensures { result ≡ frame_count network.now }
{
    // The network is within its limits, so they are few.
    let _limits = network.cycle();
    let mut frames = 0;
    for stream in 0..network.streams() {
        frames += frames_of(network, stream);
    }
    frames
}

/// How many frames occupy a link in a cycle.
pub fn windows_on(network: &PlainNetwork, link: usize) -> u64
    ensures { result ≡ windows_on network.now link }
{
    // The network is within its limits, so they are few.
    let _limits = network.cycle();
    let mut windows = 0;
    for stream in 0..network.streams() {
        windows += frames_on(network, link, stream);
    }
    windows
}

// How many frames of a stream occupy a link in a cycle.
#[tactic(auto, unfolding(crate::specs::Shares::frames_on))]
fn frames_on(network: &PlainNetwork, link: usize, stream: usize) -> u64
    requires { stream < stream_count network.now }
    ensures { result ≡ frames_on network.now link stream }
{
    if network.hop_on(stream, link).is_some() {
        frames_of(network, stream)
    } else {
        0
    }
}

// How many frames a stream sends in a cycle.
fn frames_of(network: &PlainNetwork, stream: usize) -> u64
    requires { stream < stream_count network.now }
    ensures { result ≡ turns_of network.now stream * burst_of network.now stream }
{
    // The network is within its limits, so they are few.
    let _limits = network.cycle();
    network.turns(stream) * network.burst(stream)
}
