//! Bags for workers in threads of their own.
ghost use Rattle.std.specs.Prelude.{◌≡◌, vec_len, IfOk};

use crossbeam_deque::{Steal, Stealer, Worker};
use std::alloc::{AllocError, Global};
use tsn_conflict::Node;
use tsn_model::NoMemory;
use tsn_walk::Bag;

// How many nodes a bag has room for at first.
const ROOM: usize = 64;

/// A bag that pops the node pushed last, and steals the one that was pushed first.
#[derive(Drop)]
pub struct DequeBag {
    own: Worker<Node>,
    others: Vec<Stealer<Node>>,
}

impl DequeBag {
    /// A bag for each worker, each of which steals from all others. The error says that there was no memory.
    pub fn make(alloc: Global, workers: usize) -> Result<Vec<DequeBag>, NoMemory>
        ensures { IfOk result (λ bags. vec_len bags ≡ workers) }
    {
        Ok(DequeBag::make_all(alloc, workers)?)
    }

    fn make_all(alloc: Global, workers: usize) -> Result<Vec<DequeBag>, AllocError>
        ensures { IfOk result (λ bags. vec_len bags ≡ workers) }
    {
        let mut bags: Vec<DequeBag> = Vec::new(alloc);
        for _worker in 0..workers {
            let own = Worker::new_lifo(alloc, ROOM)?;
            let mut others = Vec::new(alloc);
            for bag in bags.iter_mut() {
                others.push(bag.own.stealer()?)?;
                bag.others.push(own.stealer()?)?;
            }
            bags.push(DequeBag { own, others })?;
        }
        Ok(bags)
    }
}

impl Bag for DequeBag {
    fn push(&mut self, node: Node) -> Result<(), Node> {
        self.own.push(node)
    }

    fn pop(&mut self) -> Option<Node> {
        self.own.pop()
    }

    fn steal(&mut self) -> Option<Node> {
        for other in &self.others {
            if let Steal::Success(node) = other.steal() {
                return Some(node);
            }
        }
        None
    }
}
