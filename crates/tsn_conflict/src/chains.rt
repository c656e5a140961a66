//! The chains of a look, as a certificate has them.
ghost use Rattle.std.specs.Prelude.{◌≡◌, IfOk};

use std::alloc::Global;
use tsn_cert::{Chain, Chains};
use tsn_diff::Forest;
use tsn_model::NoMemory;

/// Chains as a certificate has them, each whole.
pub fn whole_chains(alloc: Global, forest: &Forest) -> Result<Chains, NoMemory>
    ensures { IfOk result (λ chains. chains ≡ forest.now) }
{
    let mut list = Vec::with_capacity(alloc, forest.len())?;
    for stream in 0..forest.len() {
        let depths = forest.chain(alloc, stream)?;
        let chain = Chain::of(alloc, &depths)?;
        list.push(chain).map_err(|_| NoMemory)?;
    }
    Ok(Chains::of(list))
}
