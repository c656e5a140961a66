//! The streams that use each link.
ghost use Rattle.std.specs.Prelude.{◌≡◌, ◌+◌, ◌<◌, [], List, length, map, IfOk};
ghost use Rattle.std.specs.List.{range_with_len};
ghost use Rattle.tsn_model.specs.Network.{IsWellFormed, stream_count};
ghost use Rattle.tsn_timing.specs.Users.{users_of, users_in, with_user, AreUsersBefore};

use std::alloc::{AllocError, Global};
use tsn_model::plain::PlainNetwork;

/// A stream that uses a link, and the hop on which it does.
#[derive(Clone, Copy)]
pub struct User {
    pub stream: usize,
    pub hop: usize,
}

/// The users of a link, by ascending stream.
#[derive(Drop)]
pub struct Users {
    pub list: Vec<User>,
}

/// The users of each link.
pub fn users_of(alloc: Global, network: &PlainNetwork) -> Result<Vec<Users>, AllocError>
    ensures { IfOk result (λ lists. users_in lists.items ≡ map (users_of network.now) (range_with_len 0 (length network.now.links))) }
{
    // The network is within its limits.
    let _limits = network.cycle();
    let mut lists = no_users(alloc, network.links())?;
    for stream in 0..network.streams() {
        push_hops(&mut lists, network, stream)?;
    }
    Ok(lists)
}

// An empty list for each link.
fn no_users(alloc: Global, links: usize) -> Result<Vec<Users>, AllocError>
    ensures { IfOk result (λ lists. users_in lists.items ≡ map (λ _. []) (range_with_len 0 links)) }
{
    let mut lists = Vec::with_capacity(alloc, links)?;
    for _link in 0..links {
        lists.push(Users {
            list: Vec::new(alloc),
        })?;
    }
    Ok(lists)
}

// Puts a stream last in the lists of the links that it uses.
fn push_hops(
    lists: &mut Vec<Users>,
    network: &PlainNetwork,
    stream: usize,
) -> Result<(), AllocError>
    requires formed { IsWellFormed network.now }
    requires stream { stream < stream_count network.now }
    requires before { AreUsersBefore network.now stream (users_in lists.old.items) }
    ensures { IfOk result (λ _. AreUsersBefore network.now (stream + 1) (users_in lists.new.items)) }
{
    for hop in 0..network.hops(stream) {
        push_user(lists, network.route_link(stream, hop), User { stream, hop })?;
    }
    Ok(())
}

// Puts a user last in a link's list.
fn push_user(lists: &mut Vec<Users>, link: usize, user: User) -> Result<(), AllocError>
    requires { link < length lists.old.items }
    ensures { IfOk result (λ _. users_in lists.new.items ≡ with_user (users_in lists.old.items) link user) }
{
    lists[link].list.push(user)?;
    Ok(())
}
