//! What a search settles.

use tsn_conflict::Node;
use tsn_conflict::outcome::Look;

/// A node, with what a look at it found.
#[derive(Drop)]
pub struct Event {
    pub node: Node,
    pub look: Look,
}
