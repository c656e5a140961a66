//! What the words of the command line ask for: of each command the words, the row of the table, and what reads them.
ghost use Rattle.std.specs.Prelude.{◌≡◌, ◌≤◌, All, codes, vec_len};
ghost use Rattle.std.specs.Option.{ForSome};
ghost use Rattle.tsn_words.specs.declared.words.TheConstants.{MAX_WORKERS};

use crate::options::{
    GatesFormat, Method, ReplayFormat, StreamsFormat, gates_format, plan_search, replay_format,
    streams_format,
};
use crate::table::{
    Argument, FILE, FORMAT, Form, JSON, MERGE, NET, OF_CERT, OF_PLAN, PROGRESS, STEPS, TIME,
    TO_CERT, TO_PLAN, Takes,
};
use crate::values::{flag_of, number_if, number_or, offsets_of, text_of, unknown_word, word_of};
use clap::ArgMatches;
use std::alloc::{AllocError, Global};
use thiserror::Error;

/// The greatest offset, in nanoseconds.
pub const MAX_OFFSET: u64 = 2_000_000_000;

/// The most workers that plan.
pub const MAX_WORKERS: usize = 16;

/// The most nodes that a run may be asked to settle, and the most conflicts and steps of an argument that it may be given.
pub const MAX_STEPS: usize = 1_000_000_000;

/// The most cycles of a replay.
pub const MAX_CYCLES: usize = 16;

/// The latest end of a chart, in nanoseconds.
pub const MAX_UNTIL: usize = 1_000_000_000;

/// The greatest time of an option of `gates` and `replay`, in nanoseconds.
pub const MAX_TIME: u64 = 1_000_000_000;

/// The greatest earliness of frames in a replay, in nanoseconds.
pub const MAX_EARLY: u64 = 1_000_000;

/// The most entries that a device may be said to take.
pub const MAX_ENTRIES: usize = 1_000_000;

/// The most entries that a device takes where the words don't say: more don't fit into a message to Linux.
pub const DEFAULT_ENTRIES: usize = 30;

/// The greatest number of a directed link.
pub const MAX_LINK: u64 = 4095;

/// The most nodes that a run settles where the words don't say, and the most conflicts and steps of an argument.
pub const DEFAULT_STEPS: usize = 1_000_000;

/// The version, and on its second line the toolchain that proved the program, as `rt version` says it.
pub const VERSION: &str = "1.0.0\nproved with rattle-kit-13f logic dac8208d650f15bf";

/// A command, with its words.
#[derive(Drop)]
pub enum Words<'a> {
    Valid(ValidWords<'a>),
    Plan(PlanWords<'a>),
    Check(CheckWords<'a>),
    Prove(ProveWords<'a>),
    Explain(ExplainWords<'a>),
    Gates(GatesWords<'a>),
    Replay(ReplayWords<'a>),
    Chart(ChartWords<'a>),
    Streams(StreamsWords<'a>),
}

/// All commands, in the order of help.
pub(crate) static FORMS: &[Form] = &[
    VALID, PLAN, CHECK, PROVE, EXPLAIN, GATES, REPLAY, CHART, STREAMS,
];

impl<'a> Words<'a> {
    ghost use Rattle.tsn_words.specs.Table.{IsMet, IsReadFrom};

    /// What the values of a command's arguments ask for, by its name.
    pub(crate) fn read(
        alloc: Global,
        name: &str,
        words: &ArgMatches<'a>,
    ) -> Result<Words<'a>, WordsFault>
        requires { IsMet name.now words.now }
        ensures { IsReadFrom name.now words.now result }
    {
        match name {
            "valid" => ValidWords::read(alloc, words),
            "plan" => PlanWords::read(alloc, words),
            "check" => Ok(CheckWords::read(words)),
            "prove" => Ok(ProveWords::read(words)),
            "explain" => Ok(ExplainWords::read(words)),
            "gates" => GatesWords::read(alloc, words),
            "replay" => ReplayWords::read(alloc, words),
            "chart" => Ok(ChartWords::read(words)),
            "streams" => StreamsWords::read(alloc, words),
            _ => unreachable!(),
        }
    }
}

/// `valid NET OFFSET..`: judge some offsets.
#[derive(Drop)]
pub struct ValidWords<'a> {
    /// The network file, or `-` for standard input.
    pub network: &'a str,
    /// At least one, each at most `MAX_OFFSET`, in nanoseconds.
    pub offsets: Vec<u64>,
    /// Whether the answer is printed as a line of JSON.
    pub json: bool,
    pub ghost some: { 1 ≤ vec_len offsets },
    pub ghost small: { All (λ offset. offset ≤ 2000000000) offsets.items },
}

const VALID: Form = Form {
    name: "valid",
    about: "Judges a list of offsets",
    arguments: &[
        NET,
        Argument {
            name: "OFFSET",
            takes: Takes::Numbers(MAX_OFFSET),
            help: "The offset of each stream in nanoseconds, in the file's order",
        },
        JSON,
    ],
};

impl<'a> ValidWords<'a> {
    ghost use Rattle.tsn_words.specs.Table.{IsMet, IsReadFrom};

    fn read(alloc: Global, words: &ArgMatches<'a>) -> Result<Words<'a>, WordsFault>
        requires { IsMet (codes "valid") words.now }
        ensures { IsReadFrom (codes "valid") words.now result }
    {
        let Some(texts) = words.get_strs("OFFSET") else {
            unreachable!()
        };
        Ok(Words::Valid(ValidWords {
            network: text_of(words, "NET"),
            offsets: offsets_of(alloc, texts)?,
            json: flag_of(words, "json"),
        }))
    }
}

/// `plan NET`: plan a network.
#[derive(Clone, Copy)]
pub struct PlanWords<'a> {
    /// The network file, or `-` for standard input.
    pub network: &'a str,
    /// How many workers plan, 1 to `MAX_WORKERS`.
    pub workers: usize,
    /// The most nodes that may be settled, and the most conflicts of the conflict-driven search and steps of its argument, 1 to
    /// `MAX_STEPS`.
    pub steps: usize,
    /// The file that the plan is written to, if any.
    pub plan: Option<&'a str>,
    /// The file that the certificate is written to, if any.
    pub cert: Option<&'a str>,
    /// Whether it is told on standard error how far the plan has got.
    pub progress: bool,
    /// How the plan is searched for.
    pub search: Method,
    /// Whether the answer is printed as a line of JSON.
    pub json: bool,
    pub ghost some_workers: { 1 ≤ workers },
    pub ghost few_workers: { workers ≤ MAX_WORKERS },
    pub ghost some: { 1 ≤ steps },
    pub ghost few: { steps ≤ 1000000000 },
}

const PLAN: Form = Form {
    name: "plan",
    about: "Finds a schedule of least flowspan, and shows that it is",
    arguments: &[
        NET,
        Argument {
            name: "workers",
            takes: Takes::Number(1, MAX_WORKERS as u64, "1..16"),
            help: "How many workers search at the same time; 1 if not given",
        },
        Argument {
            name: "steps",
            takes: STEPS,
            help: "Stop after this many nodes or conflicts, and write no argument of more steps; 1000000 if not given",
        },
        TO_PLAN,
        TO_CERT,
        PROGRESS,
        Argument {
            name: "search",
            takes: Takes::Word("SEARCH"),
            help: "How to search: file (in the order of the file), learn (conflict-driven), or auto (one after the other) if not given",
        },
        JSON,
    ],
};

impl<'a> PlanWords<'a> {
    ghost use Rattle.tsn_words.specs.Table.{IsMet, IsReadFrom};

    fn read(alloc: Global, words: &ArgMatches<'a>) -> Result<Words<'a>, WordsFault>
        requires { IsMet (codes "plan") words.now }
        ensures { IsReadFrom (codes "plan") words.now result }
    {
        let word = word_of(words, "search");
        let Some(search) = plan_search(word) else {
            return Err(unknown_word(alloc, "--search <SEARCH>", word, "auto, file, learn"));
        };
        Ok(Words::Plan(PlanWords {
            network: text_of(words, "NET"),
            workers: number_or(words, "workers", MAX_WORKERS, 1),
            steps: number_or(words, "steps", MAX_STEPS, DEFAULT_STEPS),
            plan: word_of(words, "plan"),
            cert: word_of(words, "cert"),
            progress: flag_of(words, "progress"),
            search,
            json: flag_of(words, "json"),
        }))
    }
}

/// `check NET PLAN CERT`: check a certificate.
#[derive(Clone, Copy)]
pub struct CheckWords<'a> {
    /// The network file, or `-` for standard input.
    pub network: &'a str,
    /// The plan file.
    pub plan: &'a str,
    /// The certificate file.
    pub cert: &'a str,
    /// Whether the answer is printed as a line of JSON.
    pub json: bool,
}

const CHECK: Form = Form {
    name: "check",
    about: "Checks that a certificate shows its plan to be optimal",
    arguments: &[NET, OF_PLAN, OF_CERT, JSON],
};

impl<'a> CheckWords<'a> {
    ghost use Rattle.tsn_words.specs.Table.{IsAskedBy, IsMet};

    fn read(words: &ArgMatches<'a>) -> Words<'a>
        requires { IsMet (codes "check") words.now }
        ensures { IsAskedBy (codes "check") words.now result }
    {
        Words::Check(CheckWords {
            network: text_of(words, "NET"),
            plan: text_of(words, "PLAN"),
            cert: text_of(words, "CERT"),
            json: flag_of(words, "json"),
        })
    }
}

/// `prove NET PLAN`: show that a plan is optimal, or find a better one.
#[derive(Clone, Copy)]
pub struct ProveWords<'a> {
    /// The network file, or `-` for standard input.
    pub network: &'a str,
    /// The plan file that is to be proved optimal.
    pub given: &'a str,
    /// The most conflicts of the search, and the most steps of its argument, 1 to `MAX_STEPS`.
    pub steps: usize,
    /// The file that the plan is written to, if any.
    pub plan: Option<&'a str>,
    /// The file that the certificate is written to, if any.
    pub cert: Option<&'a str>,
    /// Whether it is told on standard error how far the search has got.
    pub progress: bool,
    /// Whether the answer is printed as a line of JSON.
    pub json: bool,
    pub ghost some: { 1 ≤ steps },
    pub ghost few: { steps ≤ 1000000000 },
}

const PROVE: Form = Form {
    name: "prove",
    about: "Shows that a plan is optimal, or finds a better one",
    arguments: &[
        NET,
        OF_PLAN,
        Argument {
            name: "steps",
            takes: STEPS,
            help: "Stop after this many conflicts, and write no argument of more steps; 1000000 if not given",
        },
        TO_PLAN,
        TO_CERT,
        PROGRESS,
        JSON,
    ],
};

impl<'a> ProveWords<'a> {
    ghost use Rattle.tsn_words.specs.Table.{IsAskedBy, IsMet};

    fn read(words: &ArgMatches<'a>) -> Words<'a>
        requires { IsMet (codes "prove") words.now }
        ensures { IsAskedBy (codes "prove") words.now result }
    {
        Words::Prove(ProveWords {
            network: text_of(words, "NET"),
            given: text_of(words, "PLAN"),
            steps: number_or(words, "steps", MAX_STEPS, DEFAULT_STEPS),
            plan: word_of(words, "plan"),
            cert: word_of(words, "cert"),
            progress: flag_of(words, "progress"),
            json: flag_of(words, "json"),
        })
    }
}

/// `explain NET PLAN CERT`: say why no schedule is faster.
#[derive(Clone, Copy)]
pub struct ExplainWords<'a> {
    /// The network file, or `-` for standard input.
    pub network: &'a str,
    /// The plan file.
    pub plan: &'a str,
    /// The certificate file.
    pub cert: &'a str,
}

const EXPLAIN: Form = Form {
    name: "explain",
    about: "Says in words why no schedule is faster, by a certificate",
    arguments: &[NET, OF_PLAN, OF_CERT],
};

impl<'a> ExplainWords<'a> {
    ghost use Rattle.tsn_words.specs.Table.{IsAskedBy, IsMet};

    fn read(words: &ArgMatches<'a>) -> Words<'a>
        requires { IsMet (codes "explain") words.now }
        ensures { IsAskedBy (codes "explain") words.now result }
    {
        Words::Explain(ExplainWords {
            network: text_of(words, "NET"),
            plan: text_of(words, "PLAN"),
            cert: text_of(words, "CERT"),
        })
    }
}

/// `gates NET PLAN`: print the gate control lists of a plan.
#[derive(Clone, Copy)]
pub struct GatesWords<'a> {
    /// The network file, or `-` for standard input.
    pub network: &'a str,
    /// The plan file.
    pub plan: &'a str,
    /// How they are printed: as a table where the words don't say.
    pub format: GatesFormat,
    /// In nanoseconds, 0 to `MAX_TIME`: entries are to last so long, or the whole cycle, if it is given.
    pub merge: Option<u64>,
    /// The most entries that a device takes, 1 to `MAX_ENTRIES`.
    pub most: usize,
    /// The shortest entry that a device takes, in nanoseconds, 0 to `MAX_TIME`, if it is given.
    pub least: Option<u64>,
    pub ghost small: { ForSome merge (λ time. time ≤ 1000000000) },
    pub ghost some: { 1 ≤ most },
    pub ghost few: { most ≤ 1000000 },
    pub ghost short: { ForSome least (λ time. time ≤ 1000000000) },
}

const GATES: Form = Form {
    name: "gates",
    about: "Prints the gate control lists of a plan",
    arguments: &[
        NET,
        OF_PLAN,
        Argument {
            name: "format",
            takes: FORMAT,
            help: "How they are printed: taprio, json, or table if not given",
        },
        MERGE,
        Argument {
            name: "most",
            takes: Takes::Number(1, MAX_ENTRIES as u64, "1..1000000"),
            help: "The most entries that a device takes; 30 if not given",
        },
        Argument {
            name: "least",
            takes: TIME,
            help: "The shortest entry that a device takes, in nanoseconds; 60 octets' time on its link if not given",
        },
    ],
};

impl<'a> GatesWords<'a> {
    ghost use Rattle.tsn_words.specs.Table.{IsMet, IsReadFrom};

    fn read(alloc: Global, words: &ArgMatches<'a>) -> Result<Words<'a>, WordsFault>
        requires { IsMet (codes "gates") words.now }
        ensures { IsReadFrom (codes "gates") words.now result }
    {
        let word = word_of(words, "format");
        let Some(format) = gates_format(word) else {
            return Err(unknown_word(alloc, "--format <FORMAT>", word, "table, taprio, json"));
        };
        Ok(Words::Gates(GatesWords {
            network: text_of(words, "NET"),
            plan: text_of(words, "PLAN"),
            format,
            merge: number_if(words, "merge", MAX_TIME),
            most: number_or(words, "most", MAX_ENTRIES, DEFAULT_ENTRIES),
            least: number_if(words, "least", MAX_TIME),
        }))
    }
}

/// `replay NET PLAN`: replay the gate control lists of a plan.
#[derive(Clone, Copy)]
pub struct ReplayWords<'a> {
    /// The network file, or `-` for standard input.
    pub network: &'a str,
    /// The plan file.
    pub plan: &'a str,
    /// How many cycles are replayed, 1 to `MAX_CYCLES`.
    pub cycles: usize,
    /// Whether a background frame always waits.
    pub greedy: bool,
    /// How it is printed: as a table where the words don't say.
    pub format: ReplayFormat,
    /// In nanoseconds, 0 to `MAX_TIME`: entries of the lists are to last so long, if it is given.
    pub merge: Option<u64>,
    /// In nanoseconds, 0 to `MAX_EARLY`: frames are ready so much sooner than planned, if it is given.
    pub early: Option<u64>,
    pub ghost some: { 1 ≤ cycles },
    pub ghost few: { cycles ≤ 16 },
    pub ghost small: { ForSome merge (λ time. time ≤ 1000000000) },
    pub ghost soon: { ForSome early (λ time. time ≤ 1000000) },
}

const REPLAY: Form = Form {
    name: "replay",
    about: "Replays cycles of a plan by its gate control lists",
    arguments: &[
        NET,
        OF_PLAN,
        Argument {
            name: "cycles",
            takes: Takes::Number(1, MAX_CYCLES as u64, "1..16"),
            help: "How many cycles to replay; 1 if not given",
        },
        Argument {
            name: "greedy",
            takes: Takes::Nothing,
            help: "Let a background frame of 1522 octets always wait on each link",
        },
        Argument {
            name: "format",
            takes: FORMAT,
            help: "How it is printed: csv, or table if not given",
        },
        MERGE,
        Argument {
            name: "early",
            takes: Takes::Number(0, MAX_EARLY, "0..1000000"),
            help: "Let every second frame on a link be ready this much sooner than planned, in nanoseconds",
        },
    ],
};

impl<'a> ReplayWords<'a> {
    ghost use Rattle.tsn_words.specs.Table.{IsMet, IsReadFrom};

    fn read(alloc: Global, words: &ArgMatches<'a>) -> Result<Words<'a>, WordsFault>
        requires { IsMet (codes "replay") words.now }
        ensures { IsReadFrom (codes "replay") words.now result }
    {
        let word = word_of(words, "format");
        let Some(format) = replay_format(word) else {
            return Err(unknown_word(alloc, "--format <FORMAT>", word, "table, csv"));
        };
        Ok(Words::Replay(ReplayWords {
            network: text_of(words, "NET"),
            plan: text_of(words, "PLAN"),
            cycles: number_or(words, "cycles", MAX_CYCLES, 1),
            greedy: flag_of(words, "greedy"),
            format,
            merge: number_if(words, "merge", MAX_TIME),
            early: number_if(words, "early", MAX_EARLY),
        }))
    }
}

/// `chart NET PLAN`: draw a plan.
#[derive(Clone, Copy)]
pub struct ChartWords<'a> {
    /// The network file, or `-` for standard input.
    pub network: &'a str,
    /// The plan file.
    pub plan: &'a str,
    /// Where the chart ends, in nanoseconds, 1 to `MAX_UNTIL`. No cycle is longer, so the greatest shows all of it.
    pub until: usize,
    /// Whether all links in use are shown, however many they are.
    pub all: bool,
    /// The number of the link that is shown alone, 0 to `MAX_LINK`, if it is given; it goes before `all`.
    pub link: Option<usize>,
    /// The certificate file whose frames are marked, if any.
    pub cert: Option<&'a str>,
    pub ghost some: { 1 ≤ until },
    pub ghost few: { until ≤ 1000000000 },
    pub ghost link_small: { ForSome link (λ number. number ≤ 4095) },
}

const CHART: Form = Form {
    name: "chart",
    about: "Draws a plan as an SVG picture",
    arguments: &[
        NET,
        OF_PLAN,
        Argument {
            name: "until",
            takes: Takes::Number(1, MAX_UNTIL as u64, "1..1000000000"),
            help: "Where the chart ends, in nanoseconds; at the cycle's end if not given",
        },
        Argument {
            name: "all",
            takes: Takes::Nothing,
            help: "Show all links in use; without it, if they are more than 32, only those that several streams share, or of more than 128 streams the 32 busiest",
        },
        Argument {
            name: "link",
            takes: Takes::Number(0, MAX_LINK, "0..4095"),
            help: "Show the link of this number alone",
        },
        Argument {
            name: "cert",
            takes: FILE,
            help: "Mark the frames that the certificate in this file is about",
        },
    ],
};

impl<'a> ChartWords<'a> {
    ghost use Rattle.tsn_words.specs.Table.{IsAskedBy, IsMet};

    fn read(words: &ArgMatches<'a>) -> Words<'a>
        requires { IsMet (codes "chart") words.now }
        ensures { IsAskedBy (codes "chart") words.now result }
    {
        Words::Chart(ChartWords {
            network: text_of(words, "NET"),
            plan: text_of(words, "PLAN"),
            until: number_or(words, "until", MAX_UNTIL, MAX_UNTIL),
            all: flag_of(words, "all"),
            link: number_if(words, "link", MAX_LINK).map(|link| link as usize),
            cert: word_of(words, "cert"),
        })
    }
}

/// `streams NET PLAN`: print what each stream and each link gets by a plan.
#[derive(Clone, Copy)]
pub struct StreamsWords<'a> {
    /// The network file, or `-` for standard input.
    pub network: &'a str,
    /// The plan file.
    pub plan: &'a str,
    /// How it is printed: as a table where the words don't say.
    pub format: StreamsFormat,
}

const STREAMS: Form = Form {
    name: "streams",
    about: "Prints what each stream and each link gets by a plan",
    arguments: &[
        NET,
        OF_PLAN,
        Argument {
            name: "format",
            takes: FORMAT,
            help: "How it is printed: json, csv, or table if not given",
        },
    ],
};

impl<'a> StreamsWords<'a> {
    ghost use Rattle.tsn_words.specs.Table.{IsMet, IsReadFrom};

    fn read(alloc: Global, words: &ArgMatches<'a>) -> Result<Words<'a>, WordsFault>
        requires { IsMet (codes "streams") words.now }
        ensures { IsReadFrom (codes "streams") words.now result }
    {
        let word = word_of(words, "format");
        let Some(format) = streams_format(word) else {
            return Err(unknown_word(alloc, "--format <FORMAT>", word, "table, json, csv"));
        };
        Ok(Words::Streams(StreamsWords {
            network: text_of(words, "NET"),
            plan: text_of(words, "PLAN"),
            format,
        }))
    }
}

/// Why there is no command.
#[derive(Debug, Drop, Error)]
pub enum WordsFault {
    /// The words are refused, with a text that says why. A request for help is refused too, with the help as its text.
    #[error("{0}")]
    Refused(String),
    /// The words ask for the version, which is the text.
    #[error("{0}")]
    Asked(String),
    /// A growth was refused.
    #[error("no memory")]
    Memory,
}

impl From<AllocError> for WordsFault {
    ghost use Rattle.tsn_words.specs.declared.words.WordsFault.TheVariants.{Memory};

    ghost from_gives = { λ _ e. e ≡ Memory };

    fn from(_refused: AllocError) -> WordsFault {
        WordsFault::Memory
    }
}
