//! What options choose, as words name it and calls take it: how a plan is searched for, and in which format an answer is printed.
ghost use Rattle.std.specs.Prelude.{◌≡◌, option_map};
ghost use Rattle.tsn_words.specs.Grammar.{gates_format, plan_search, replay_format, streams_format};

/// How a plan is searched for.
#[derive(Clone, Copy)]
pub enum Method {
    /// `auto`, which goes where the words name none: in the order of the file, up to 100,000 settled nodes; where that leaves nodes
    /// open and more may be settled, by the conflict-driven search; where that gives up, in the order of the file again, along the best
    /// schedule known. One worker goes on in the book that is there, from a limit of 200,000 on; else, and with several workers, it
    /// begins anew, with the whole limit for its own count.
    Auto,
    /// `file`: a node is split on its first violated conflict in the order of the file, and closed by whole links.
    FileOrder,
    /// `learn`: by the conflict-driven search, which learns from each contradiction; where it gives up, in the order of the file, the nodes
    /// on the way of the best schedule known first. It may have as many conflicts as nodes may be settled, and some work for each.
    Learn,
}

/// How gate control lists are printed.
#[derive(Clone, Copy)]
pub enum GatesFormat {
    /// A table for each list.
    Table,
    /// A shell script that hands the lists to Linux's taprio.
    Taprio,
    /// A line of JSON for each list.
    Json,
}

/// How a replay is printed.
#[derive(Clone, Copy)]
pub enum ReplayFormat {
    /// A table, with the number of late frames in its last line.
    Table,
    /// Comma-separated values.
    Csv,
}

/// How the shares of streams and links are printed.
#[derive(Clone, Copy)]
pub enum StreamsFormat {
    /// A line for each stream and each link.
    Table,
    /// A line of JSON for each.
    Json,
    /// Comma-separated values.
    Csv,
}

// How a plan is searched for, where a word names that, or none does.
pub(crate) fn plan_search(word: Option<&str>) -> Option<Method>
    ensures { result ≡ plan_search (option_map (λ word. word.now) word.entry) }
{
    match word {
        None | Some("auto") => Some(Method::Auto),
        Some("file") => Some(Method::FileOrder),
        Some("learn") => Some(Method::Learn),
        Some(_) => None,
    }
}

pub(crate) fn gates_format(word: Option<&str>) -> Option<GatesFormat>
    ensures { result ≡ gates_format (option_map (λ word. word.now) word.entry) }
{
    match word {
        None | Some("table") => Some(GatesFormat::Table),
        Some("taprio") => Some(GatesFormat::Taprio),
        Some("json") => Some(GatesFormat::Json),
        Some(_) => None,
    }
}

pub(crate) fn replay_format(word: Option<&str>) -> Option<ReplayFormat>
    ensures { result ≡ replay_format (option_map (λ word. word.now) word.entry) }
{
    match word {
        None | Some("table") => Some(ReplayFormat::Table),
        Some("csv") => Some(ReplayFormat::Csv),
        Some(_) => None,
    }
}

pub(crate) fn streams_format(word: Option<&str>) -> Option<StreamsFormat>
    ensures { result ≡ streams_format (option_map (λ word. word.now) word.entry) }
{
    match word {
        None | Some("table") => Some(StreamsFormat::Table),
        Some("json") => Some(StreamsFormat::Json),
        Some("csv") => Some(StreamsFormat::Csv),
        Some(_) => None,
    }
}
