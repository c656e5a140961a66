//! Checks arguments step by step, and certificates of either kind: its yes implies the verdict, its no names the first fault.
#![tactic(auto)]

mod aim;
mod decided;
mod filling;
pub mod laws;
mod link;
mod motion;
mod news;
mod numbers;
mod observer;
mod room;
mod seen;
mod step;
mod uses;
mod verdict;
mod view;

pub use motion::{Shown, read_first, read_second};
pub use news::{News, turned};
pub use observer::{Observer, Silent};
pub use uses::{Reader, Use};
pub use verdict::{check_argument, check_certificate, hear_argument, judge_argument};
pub use view::View;
