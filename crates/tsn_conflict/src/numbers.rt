//! Where each stream's triples are in the list.
ghost use Rattle.std.specs.Prelude.{◌≡◌, ◌<◌, List, [], length, map, slice_index_or, All, IfOk, OnOk};
ghost use Rattle.std.specs.List.{range_with_len};
ghost use Rattle.tsn_conflict.specs.Pairs.{IsPairBelow, numbers_with, numbers_in, with_number};

use std::alloc::{AllocError, Global};
use tsn_model::Triple;

/// The numbers of the triples that have a stream, ascending.
#[derive(Drop)]
pub struct Numbers {
    pub numbers: Vec<usize>,
}

/// The numbers of each stream's triples.
pub fn numbers_of(
    alloc: Global,
    triples: &[Triple],
    streams: usize,
) -> Result<Vec<Numbers>, AllocError>
    requires { All (IsPairBelow streams) triples.now }
    ensures { IfOk result (λ lists. numbers_in lists.items ≡ map (numbers_with triples.now) (range_with_len 0 streams)) }
{
    let mut lists = no_numbers(alloc, streams)?;
    for (number, &triple) in triples.iter().enumerate() {
        push_number(&mut lists, triple.left, number)?;
        push_number(&mut lists, triple.right, number)?;
    }
    Ok(lists)
}

// An empty list for each stream.
fn no_numbers(alloc: Global, streams: usize) -> Result<Vec<Numbers>, AllocError>
    ensures { IfOk result (λ lists. numbers_in lists.items ≡ map (numbers_with []) (range_with_len 0 streams)) }
{
    let mut lists = Vec::with_capacity(alloc, streams)?;
    for _stream in 0..streams {
        lists.push(Numbers {
            numbers: Vec::new(alloc),
        })?;
    }
    Ok(lists)
}

// Puts a number last in a stream's list.
fn push_number(lists: &mut Vec<Numbers>, stream: usize, number: usize) -> Result<(), AllocError>
    requires { stream < length lists.old.items }
    ensures { OnOk result (numbers_in lists.new.items ≡ with_number (numbers_in lists.old.items) stream number) }
{
    lists[stream].numbers.push(number)?;
    Ok(())
}
