//! The files that hold plans and certificates: how they are read and printed.
#![tactic(auto)]

pub mod argument;
pub mod cert;
pub mod certificate;
mod document;
mod file;
pub mod laws;
mod list;
pub mod plan;
mod tokens;

pub use argument::{argument_from_json, argument_to_json};
pub use cert::{cert_from_json, cert_to_json};
pub use certificate::{certificate_from_json, certificate_or_refuse, certificate_to_json};
pub use laws::{cert_text_is_read, certificate_text_is_read, plan_text_is_read};
pub use plan::{plan_from_json, plan_or_refuse, plan_to_json};
