//! What is the same in each format of the shares: a text for each stream, then one for each link, then one of the least slack.
ghost use Rattle.std.specs.Prelude.{◌≡◌, ◌++◌, ◌<◌, ℕ, All, IfOk, List, OnOk, length, string_bytes};
ghost use Rattle.std.specs.List.{flat_map};
ghost use Rattle.tsn_timing.specs.Problem.{NamedNetwork};

use crate::link::LinkShare;
use crate::stream::StreamShare;
use std::alloc::AllocError;
use tsn_model::NoMemory;
use tsn_timing::Problem;

/// A format of the shares.
pub trait Format {
    ghost use Rattle.tsn_chart.specs.declared.link.LinkShare.{LinkShare};
    ghost use Rattle.tsn_chart.specs.declared.stream.StreamShare.{StreamShare};

    /// The text of a stream.
    ghost stream_text: { NamedNetwork → StreamShare → List ℕ };

    /// The text of a link.
    ghost link_text: { NamedNetwork → LinkShare → List ℕ };

    /// The text of the least slack.
    ghost slack_text: { NamedNetwork → ℕ → List ℕ };

    /// Writes the text of a stream.
    fn stream(text: &mut String, problem: &Problem, share: &StreamShare) -> Result<(), AllocError>
        requires { share.now.stream < length problem.now.stream_names }
        ensures { OnOk result (string_bytes text.new ≡ string_bytes text.old ++ stream_text problem.now share.now) };

    /// Writes the text of a link.
    fn link(text: &mut String, problem: &Problem, share: &LinkShare) -> Result<(), AllocError>
        requires { share.now.link < length problem.now.network.links }
        ensures { OnOk result (string_bytes text.new ≡ string_bytes text.old ++ link_text problem.now share.now) };

    /// Writes the text of the least slack.
    fn slack(text: &mut String, problem: &Problem, slack: u64) -> Result<(), AllocError>
        ensures { OnOk result (string_bytes text.new ≡ string_bytes text.old ++ slack_text problem.now slack) };
}

/// The text, with that of each stream behind it, then that of each link, then that of the least slack.
pub fn append_shares<F: Format>(
    mut text: String,
    problem: &Problem,
    streams: &[StreamShare],
    links: &[LinkShare],
    slack: u64,
) -> Result<String, NoMemory>
    requires streams { All (λ (share : StreamShare). share.stream < length problem.now.stream_names) streams.now }
    requires links { All (λ (share : LinkShare). share.link < length problem.now.network.links) links.now }
    ensures { IfOk result (λ whole. string_bytes whole ≡ string_bytes text ++ (flat_map (F.stream_text problem.now) streams.now ++ (flat_map (F.link_text problem.now) links.now ++ F.slack_text problem.now slack))) }
{
    for share in streams {
        F::stream(&mut text, problem, share)?;
    }
    for share in links {
        F::link(&mut text, problem, share)?;
    }
    F::slack(&mut text, problem, slack)?;
    Ok(text)
}
