//! A node of the search, known by its path.
ghost use Rattle.std.specs.Prelude.{◌≡◌, ◌-◌, [], ◌∷◌, ◌++◌, List, take, length, IfOk, OnOk, OnErr, MatchOption};
ghost use Rattle.tsn_model.specs.declared.Decision.{Decision};
ghost use Rattle.tsn_model.specs.declared.Triple.{Triple};
ghost use Rattle.tsn_model.specs.declared.Side.TheVariants.{Left, Right};
ghost use Rattle.tsn_model.specs.Certificate.{decided};
ghost use Rattle.tsn_conflict.specs.Path.{DecidesOnce, IsUndecided, IsLastSide, TurnsLeftAt, IsOtherSide};

use std::alloc::{AllocError, Global};
use std::marker::Model;
use tsn_model::{Decision, NoMemory, Side, Triple};

/// A path of decisions from the root, on which no triple is decided twice.
#[derive(Drop)]
pub struct Node {
    path: Vec<Decision>,
}

impl Model for Node {
    ghost use Rattle.std.specs.Prelude.{List};
    ghost use Rattle.tsn_model.specs.declared.Decision.{Decision};
    ghost use Rattle.tsn_conflict.specs.Path.{DecidesOnce};

    ghost Value = { List Decision };

    ghost view = { λ node. node.path.items };

    ghost invariant = { λ node. DecidesOnce node.path.items };
}

impl Node {
    /// The root, on whose path nothing is decided. It takes no memory; the nodes below it take theirs from `alloc`.
    pub fn root(alloc: Global) -> Node
        ensures { result ≡ [] }
    {
        Node {
            path: Vec::new(alloc),
        }
    }

    /// The node one decision below, on the side where this stream of the triple goes first. The error says that there
    /// was no memory.
    pub fn child(&self, triple: Triple, side: Side) -> Result<Node, NoMemory>
        requires { IsUndecided self.now triple }
        ensures { IfOk result (λ child. child ≡ decided self.now triple side) }
    {
        let decision = Decision { triple, side };
        let path = longer(*self.path.allocator(), &self.path, decision)?;
        Ok(Node { path })
    }

    /// The node that turns right where this one turns left at that depth, with the same decisions before it. None where this one
    /// turns right there or ends before. The error says that there was no memory.
    pub fn other_side(&self, depth: usize) -> Result<Option<Node>, NoMemory>
        ensures { IfOk result (λ found. MatchOption found
            ((triple : Triple) → TurnsLeftAt self.now depth triple → ⊥)
            (IsOtherSide self.now depth)) }
    {
        let Some(decision) = self.path.get(depth) else {
            return Ok(None);
        };
        match decision.side {
            Side::Right => Ok(None),
            Side::Left => {
                let right = Decision {
                    triple: decision.triple,
                    side: Side::Right,
                };
                let path = longer(*self.path.allocator(), &self.path[..depth], right)?;
                Ok(Some(Node { path }))
            }
        }
    }

    /// Goes one decision down, to the side where this stream of the triple goes first. The error says that there was no
    /// memory; the node is then as it was.
    #[tactic(auto, unfolding(tsn_model::specs::Certificate::decided))]
    pub fn push(&mut self, triple: Triple, side: Side) -> Result<(), NoMemory>
        requires { IsUndecided self.old triple }
        ensures ok { OnOk result (self.new ≡ decided self.old triple side) }
        ensures err { OnErr result (self.new ≡ self.old) }
    {
        match self.path.push(Decision { triple, side }) {
            Ok(()) => Ok(()),
            Err(_) => Err(NoMemory),
        }
    }

    /// The side of the last decision. None at the root.
    pub fn last_side(&self) -> Option<Side>
        ensures { MatchOption result (self.now ≡ []) (IsLastSide self.now) }
    {
        match self.path.last() {
            Some(last) => Some(last.side),
            None => None,
        }
    }

    /// Turns the last decision, which is to the left, to the right.
    pub fn turn(&mut self)
        requires { IsLastSide self.old Left }
        ensures { (front : List Decision) (triple : Triple) → self.old ≡ decided front triple Left → self.new ≡ decided front triple Right }
    {
        let last = self.path.len() - 1;
        let triple = self.path[last].triple;
        self.path[last] = Decision {
            triple,
            side: Side::Right,
        };
    }

    /// Takes back the last decision; the root stays as it is.
    pub fn pop(&mut self)
        ensures { self.new ≡ take (length self.old - 1) self.old }
    {
        self.path.pop();
    }

    /// The same node once more. The error says that there was no memory.
    pub fn copy(&self) -> Result<Node, NoMemory>
        ensures { IfOk result (λ node. node ≡ self.now) }
    {
        Ok(Node {
            path: Vec::from_slice(*self.path.allocator(), &self.path)?,
        })
    }

    /// The decisions, from the root on. No triple is decided twice.
    pub fn path(&self) -> &[Decision]
        ensures value { result.now ≡ self.now }
        ensures once { DecidesOnce self.now }
    {
        &self.path
    }
}

fn longer(alloc: Global, path: &[Decision], decision: Decision) -> Result<Vec<Decision>, AllocError>
    ensures { IfOk result (λ all. all.items ≡ path.now ++ decision ∷ []) }
{
    let mut all = Vec::with_capacity(alloc, path.len() + 1)?;
    all.extend_from_slice(path)?;
    all.push(decision)?;
    Ok(all)
}
