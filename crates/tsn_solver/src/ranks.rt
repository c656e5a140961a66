//! Sets of places in a row.
use std::alloc::{AllocError, Global};
use tsn_bounds::number::{item_at, push, put_item};

/// A set of numbers.
#[derive(Drop)]
pub struct Ranks {
    words: Vec<u64>,
}

impl Ranks {
    /// No number.
    pub fn none(alloc: Global) -> Ranks {
        Ranks {
            words: Vec::new(alloc),
        }
    }

    /// Makes room for the numbers below this one. The error says that there was no memory.
    pub fn size(&mut self, most: usize) -> Result<(), AllocError> {
        for _ in 0..(most / 64).wrapping_add(1) {
            push(&mut self.words, 0)?;
        }
        Ok(())
    }

    /// Puts all numbers below this one in, and no others.
    pub fn fill(&mut self, count: usize) {
        for (number, word) in self.words.iter_mut().enumerate() {
            *word = below(count, number);
        }
    }

    /// Takes a number out.
    pub fn drop_out(&mut self, number: usize) {
        let word = item_at(&self.words, number / 64, 0);
        put_item(&mut self.words, number / 64, word & !bit(number));
    }

    /// The greatest number below this one.
    pub fn last_below(&self, number: usize) -> Option<usize> {
        let last = number / 64;
        let word = item_at(&self.words, last, 0) & below(number, last);
        if word != 0 {
            return Some(greatest_of(last, word));
        }
        for place in (0..last).rev() {
            let word = item_at(&self.words, place, 0);
            if word != 0 {
                return Some(greatest_of(place, word));
            }
        }
        None
    }
}

fn bit(number: usize) -> u64 {
    1u64.wrapping_shl((number % 64) as u32)
}

// Of the numbers of a word those below this one.
fn below(number: usize, word: usize) -> u64 {
    let whole = number / 64;
    if word < whole {
        u64::MAX
    } else if word == whole {
        bit(number).wrapping_sub(1)
    } else {
        0
    }
}

fn greatest_of(place: usize, word: u64) -> usize {
    let greatest = 63u32.wrapping_sub(word.leading_zeros()) as usize;
    place.wrapping_mul(64).wrapping_add(greatest)
}
