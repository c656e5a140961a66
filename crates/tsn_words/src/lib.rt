//! The words of the command line; and what options choose, as words name it and calls take it: how a plan is searched for, and in which
//! format an answer is printed.
#![tactic(auto)]

mod command;
pub mod options;
mod table;
mod values;
pub mod words;

pub use command::words_from;
pub use options::{GatesFormat, Method, ReplayFormat, StreamsFormat};
pub use words::{
    ChartWords, CheckWords, ExplainWords, GatesWords, PlanWords, ProveWords, ReplayWords,
    StreamsWords, ValidWords, Words, WordsFault,
};
