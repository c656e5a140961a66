//! The files that words name for what is written.
ghost use Rattle.std.specs.Prelude.{◌≡◌, ◌⊎◌, IfOk, IfSome, OnErr, is_some, option_map};
ghost use Rattle.tsn_outcome.specs.Run.{failed_in};

use tsn_device::Failure;
use tsn_outcome::Given;
use tsn_words::{PlanWords, ProveWords};

/// What a plan and a certificate are written to.
#[derive(Drop)]
pub struct Files<P, C> {
    pub plan: P,
    pub cert: C,
}

/// The files that the words of `plan` name, or why one of them can't be written.
pub fn plan_files<'a, G: Given<'a>>(
    given: &G,
    words: PlanWords<'a>,
) -> Result<Files<G::File, Option<G::File>>, Failure<'a>>
    ensures plan { IfOk result (λ files. G.makes_plan given.now (option_map (λ path. path.now) words.entry.plan) files.plan) }
    ensures cert { IfOk result (λ files. IfSome files.cert (λ cert.
        G.makes_cert given.now (option_map (λ path. path.now) words.entry.cert) cert)) }
    ensures wanted { IfOk result (λ files. is_some files.cert ≡ is_some words.entry.cert) }
    ensures failures { IfOk result (λ files. (G.File.failed files.plan ≡ 0) × (failed_in G.File.failed files.cert ≡ 0)) }
    ensures refused { OnErr result (G.refuses_plan given.now (option_map (λ path. path.now) words.entry.plan)
        ⊎ G.refuses_cert given.now (option_map (λ path. path.now) words.entry.cert)) }
{
    let plan = given.plan_file(words.plan)?;
    let cert = match words.cert {
        Some(path) => Some(given.cert_file(Some(path))?),
        None => None,
    };
    Ok(Files { plan, cert })
}

/// The files that the words of `prove` name, the plan's for a better one, or why one of them can't be written.
pub fn proof_files<'a, G: Given<'a>>(
    given: &G,
    words: ProveWords<'a>,
) -> Result<Files<G::File, G::File>, Failure<'a>>
    ensures plan { IfOk result (λ files. G.makes_plan given.now (option_map (λ path. path.now) words.entry.plan) files.plan) }
    ensures cert { IfOk result (λ files. G.makes_cert given.now (option_map (λ path. path.now) words.entry.cert) files.cert) }
    ensures failures { IfOk result (λ files. (G.File.failed files.cert ≡ 0) × (G.File.failed files.plan ≡ 0)) }
    ensures refused { OnErr result (G.refuses_plan given.now (option_map (λ path. path.now) words.entry.plan)
        ⊎ G.refuses_cert given.now (option_map (λ path. path.now) words.entry.cert)) }
{
    let plan = given.plan_file(words.plan)?;
    let cert = given.cert_file(words.cert)?;
    Ok(Files { plan, cert })
}
