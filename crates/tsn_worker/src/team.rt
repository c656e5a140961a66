//! Workers, each a teller with a bag.
ghost use Rattle.std.specs.Prelude.{◌≡◌, ◌++◌, ◌∷◌, [], length, map, IfOk};

use crate::settler::Settler;
use crate::worker::Member;
use std::alloc::{AllocError, Global};
use tsn_incumbent::{Named, Teller};
use tsn_walk::Bag;

/// Gives each teller a bag, and its number in the list.
pub fn team_of<K: Named, B: Bag>(
    alloc: Global,
    tellers: Vec<Teller<K>>,
    bags: Vec<B>,
) -> Result<Vec<Member<K, B>>, AllocError>
    requires { length tellers.items ≡ length bags.items }
    ensures { IfOk result (λ members. map (λ member. member.settler.teller) members.items ≡ tellers.items) }
{
    let mut members = Vec::with_capacity(alloc, tellers.len())?;
    let mut bags = bags.into_iter();
    for teller in tellers {
        let Some(bag) = bags.next() else {
            unreachable!();
        };
        let settler = Settler::new(members.len(), teller);
        members.push_reserved(Member { settler, bag });
    }
    Ok(members)
}

/// Takes the tellers out again, the caller's last, and gives up the bags.
pub fn tellers_of<K: Named, B: Bag>(
    alloc: Global,
    members: Vec<Member<K, B>>,
    caller: Teller<K>,
) -> Result<Vec<Teller<K>>, AllocError>
    ensures { IfOk result (λ tellers. tellers.items ≡ map (λ member. member.settler.teller) members.items ++ caller ∷ []) }
{
    let mut tellers = match Vec::with_capacity(alloc, members.len() + 1) {
        Ok(tellers) => tellers,
        Err(fault) => {
            drop(caller);
            return Err(fault);
        }
    };
    for member in members {
        let Member { settler, bag } = member;
        drop(bag);
        tellers.push_reserved(settler.into_teller());
    }
    tellers.push_reserved(caller);
    Ok(tellers)
}
