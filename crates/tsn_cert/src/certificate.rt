//! Certificates of either kind.
use crate::argument::Argument;
use crate::cert::Cert;

/// A certificate of any format.
#[derive(Drop)]
pub enum Certificate {
    /// A tree of decisions: format 1 or 2.
    Tree(Cert),
    /// Steps that show the goal: format 3.
    Argument(Argument),
}
