//! The bags from which workers take nodes. A bag that takes no node gives back the one that it was handed. Nothing is claimed of
//! what it hands out: a node that is lost stays open in the book, and one that comes twice is refused there.
ghost use Rattle.std.specs.Prelude.{◌≡◌, IfErr};

use tsn_conflict::Node;

/// The nodes of one worker.
pub trait Bag: Drop {
    /// Puts a node into the bag; the error gives that node back.
    fn push(&mut self, node: Node) -> Result<(), Node>
        ensures { IfErr result (λ refused. refused ≡ node) };

    /// Takes a node out of the bag.
    fn pop(&mut self) -> Option<Node>;

    /// Takes a node out of another worker's bag.
    fn steal(&mut self) -> Option<Node>;
}
