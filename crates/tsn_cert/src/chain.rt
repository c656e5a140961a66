//! Chains: decisions of a path, each by its depth; and the chains of a tie.
ghost use Rattle.std.specs.Prelude.{◌≡◌, ◌≤◌, ◌<◌, length, slice_index_or, All, IfOk, IsTrue};
ghost use Rattle.tsn_cert.specs.Json.{all_within};
ghost use Rattle.tsn_cert.specs.Cert.{max_number};

use crate::listed::Listed;
use smallvec::SmallVec;
use std::alloc::{AllocError, Global};
use std::marker::Model;
use tsn_model::NoMemory;

/// The most decisions in a chain.
pub const MAX_CHAIN: usize = 128;

/// The most chains of a tie.
pub const MAX_CHAINS: usize = 128;

/// The greatest number of a node in a file.
pub const MAX_NUMBER: usize = 4_294_967_295;

// The greatest depth that two bytes hold.
const MAX_NARROW: usize = 65_535;

// Depths: two bytes for each, where that is enough for all, since certificates of millions of chains are held at once.
#[derive(Drop)]
enum Depths {
    Narrow(SmallVec<u16, 8>),
    Wide(SmallVec<usize, 2>),
}

/// Decisions of a path by their depths, the root's decision at depth 0: at most 128 of them.
#[derive(Drop)]
pub struct Chain {
    depths: Depths,
}

impl Model for Chain {
    ghost use Rattle.std.specs.Prelude.{◌≤◌, List, ℕ, length};
    ghost use Rattle.tsn_cert.specs.Depths.{depths_in};

    ghost Value = { List ℕ };

    ghost view = { λ chain. depths_in chain.depths };

    ghost invariant = { λ chain. length (depths_in chain.depths) ≤ 128 };
}

impl Chain {
    /// A chain of these depths.
    pub fn of(alloc: Global, depths: &[usize]) -> Result<Chain, NoMemory>
        requires { length depths.now ≤ MAX_CHAIN }
        ensures { IfOk result (λ chain. chain ≡ depths.now) }
    {
        let depths = if are_narrow(depths) {
            Depths::Narrow(narrow(alloc, depths)?)
        } else {
            Depths::Wide(SmallVec::from_slice(alloc, depths)?)
        };
        Ok(Chain { depths })
    }

    /// How many decisions there are.
    pub fn len(&self) -> usize
        ensures count { result ≡ length self.now }
        ensures short { length self.now ≤ MAX_CHAIN }
    {
        match &self.depths {
            Depths::Narrow(list) => list.len(),
            Depths::Wide(list) => list.len(),
        }
    }

    /// The depth of the decision of this number.
    pub fn at(&self, number: usize) -> usize
        requires { number < length self.now }
        ensures { result ≡ slice_index_or self.now number 0 }
    {
        match &self.depths {
            Depths::Narrow(list) => list.as_slice()[number] as usize,
            Depths::Wide(list) => list.as_slice()[number],
        }
    }

    /// A copy of the depths, in the chain's order.
    pub fn to_vec(&self, alloc: Global) -> Result<Vec<usize>, AllocError>
        ensures depths { IfOk result (λ depths. depths.items ≡ self.now) }
        ensures short { length self.now ≤ MAX_CHAIN }
    {
        match &self.depths {
            Depths::Narrow(list) => wide(alloc, list.as_slice()),
            Depths::Wide(list) => list.as_slice().to_vec(alloc),
        }
    }

    /// Whether each depth is within the limit of a file.
    pub fn fits(&self) -> bool
        ensures { result ≡ all_within max_number self.now }
    {
        match &self.depths {
            Depths::Narrow(list) => list
                .as_slice()
                .iter()
                .all(|depth| *depth as usize <= MAX_NUMBER),
            Depths::Wide(list) => list.as_slice().iter().all(|depth| *depth <= MAX_NUMBER),
        }
    }
}

/// The chains of a tie, to the first streams in order: 1 to 128 of them.
pub type Chains = Listed<Chain, MAX_CHAINS>;

fn are_narrow(depths: &[usize]) -> bool
    ensures { IsTrue result → All (λ depth. depth ≤ MAX_NARROW) depths.now }
{
    depths.iter().all(|depth| *depth <= MAX_NARROW)
}

fn narrow(alloc: Global, depths: &[usize]) -> Result<SmallVec<u16, 8>, AllocError>
    requires { All (λ depth. depth ≤ MAX_NARROW) depths.now }
    ensures { IfOk result (λ list. list.items ≡ depths.now) }
{
    let mut list = SmallVec::with_capacity(alloc, depths.len())?;
    for depth in depths {
        list.push(*depth as u16)?;
    }
    Ok(list)
}

fn wide(alloc: Global, depths: &[u16]) -> Result<Vec<usize>, AllocError>
    ensures { IfOk result (λ list. list.items ≡ depths.now) }
{
    let mut list = Vec::with_capacity(alloc, depths.len())?;
    for depth in depths {
        list.push(*depth as usize)?;
    }
    Ok(list)
}
