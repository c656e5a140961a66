//! A schedule as a picture: SVG with a row for each directed link in use; and what each stream and each link gets by it, in nanoseconds.
#![tactic(auto)]

mod canvas;
mod choice;
mod csv;
mod format;
mod frame;
mod frames;
mod json;
mod key;
pub mod link;
pub mod listener;
mod mark;
pub mod output;
pub mod picture;
mod rest;
mod rows;
mod scale;
pub mod shares;
pub mod stream;
mod table;
pub mod words;

pub use choice::LinkChoice;
pub use link::{LinkShare, least_slack, link_share, link_shares};
pub use listener::{ListenerShare, listener_share, listener_shares};
pub use output::{to_csv, to_json, to_text};
pub use picture::{Drawing, chart, chart_of, marked_chart};
pub use rest::longest_open;
pub use shares::{Shares, plan_shares};
pub use stream::{StreamShare, stream_share, stream_shares};
pub use tsn_model::NoMemory;
