//! What a plan is shown by, and its options, of the words of the command.
ghost use Rattle.std.specs.Prelude.{◌≡◌};
ghost use Rattle.tsn_cli.specs.Options.{gates_options, replay_options, IsDrawingOf};

use tsn_chart::{Drawing, LinkChoice};
use tsn_gate::DeviceLimits;
use tsn_words::{ChartWords, GatesFormat, GatesWords, ReplayFormat, ReplayWords, StreamsFormat};

/// How the gate control lists of a plan are printed, and of how many nanoseconds an entry is to be at least: with `merge`,
/// lists that keep the wanted gates take the place of those that the schedule asks for. A script has the limits of a device.
#[derive(Clone, Copy)]
pub struct GatesOptions {
    pub format: GatesFormat,
    pub merge: Option<u64>,
    pub limits: DeviceLimits,
}

/// A replay of so many cycles, with no background or a greedy one, how it is printed, and the lists by which it runs, as
/// `GatesOptions` has them. Where frames are ready early, by how many nanoseconds.
#[derive(Clone, Copy)]
pub struct ReplayOptions {
    pub cycles: usize,
    pub greedy: bool,
    pub format: ReplayFormat,
    pub merge: Option<u64>,
    pub early: Option<u64>,
}

/// What a plan may be shown by.
#[derive(Clone, Copy)]
pub enum Table {
    /// Its gate control lists.
    Gates(GatesOptions),
    /// A replay.
    Replay(ReplayOptions),
    /// A picture of it.
    Chart(Drawing),
    /// What each stream and each link gets.
    Streams(StreamsFormat),
}

/// How gate lists are made and printed.
pub fn gates_options(words: GatesWords<'_>) -> GatesOptions
    ensures { result ≡ gates_options words.entry }
{
    GatesOptions {
        format: words.format,
        merge: words.merge,
        limits: DeviceLimits {
            most: words.most,
            least: words.least,
        },
    }
}

/// How a replay is made and printed.
pub fn replay_options(words: ReplayWords<'_>) -> ReplayOptions
    ensures { result ≡ replay_options words.entry }
{
    ReplayOptions {
        cycles: words.cycles,
        greedy: words.greedy,
        format: words.format,
        merge: words.merge,
        early: words.early,
    }
}

/// What is drawn: one link where the words name it, and else all links in use where the words ask for them.
pub fn drawing_of(words: ChartWords<'_>) -> Drawing
    ensures { IsDrawingOf words.entry result }
{
    let shown = match words.link {
        Some(link) => LinkChoice::Link(link),
        None if words.all => LinkChoice::All,
        None => LinkChoice::Auto,
    };
    Drawing {
        until: words.until as u64,
        shown,
    }
}
