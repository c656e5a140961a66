//! Gate control lists (IEEE Std 802.1Q-2018, clause 8.6.8.4): those that a schedule asks for, and others' lists. They are handed on as a
//! table, as a script for Linux's taprio and as JSON, and beside them what a device doesn't take of them.
#![tactic(auto)]

mod device;
pub mod fault;
pub mod format;
pub mod json;
mod kept;
pub mod list;
pub mod lists;
pub mod merged;
pub mod slack;
mod sweep;
pub mod taprio;
mod timeline;
mod widened;
pub mod windows;

pub use device::{closed_lines, device_lines};
pub use fault::GateFault;
pub use format::text_in;
pub use json::json_line;
pub use list::GateList;
pub use lists::gate_lists;
pub use merged::{lists_by, merged_lists};
pub use slack::slack_on;
pub use taprio::{DeviceLimits, LINUX, to_taprio, to_taprio_within};
pub use timeline::BACKGROUND;
pub use tsn_model::{GateEntry, NoMemory};
