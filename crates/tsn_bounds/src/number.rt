//! Numbers in lists, where a place that a list doesn't have is passed over, and sums that never stop. Times are in nanoseconds.
use std::alloc::{AllocError, Global};

/// Later than any instant of a cycle.
pub const FAR: i64 = 1_000_000_000_000;

/// No place.
pub const NONE: u32 = 0xFFFF_FFFF;

/// The item at this place; another one where there is none.
pub fn item_at<T: Copy>(items: &[T], place: usize, other: T) -> T {
    if place < items.len() {
        items[place]
    } else {
        other
    }
}

/// Writes an item at this place.
pub fn put_item<T: Copy>(items: &mut [T], place: usize, item: T) {
    if place < items.len() {
        items[place] = item;
    }
}

/// Puts one more behind the others. The error says that there was no memory.
pub fn push<T: Drop>(items: &mut Vec<T>, item: T) -> Result<(), AllocError> {
    items.push(item)?;
    Ok(())
}

/// The number at this place; 0 where there is none.
pub fn at(numbers: &[i64], place: usize) -> i64 {
    item_at(numbers, place, 0)
}

/// Writes a number at this place.
pub fn put(numbers: &mut [i64], place: usize, number: i64) {
    put_item(numbers, place, number);
}

/// The index at this place; none where there is none.
pub fn index_at(indices: &[u32], place: usize) -> u32 {
    item_at(indices, place, NONE)
}

/// Writes an index at this place.
pub fn put_index(indices: &mut [u32], place: usize, index: u32) {
    put_item(indices, place, index);
}

/// The mark at this place; false where there is none.
pub fn is_marked(marks: &[bool], place: usize) -> bool {
    item_at(marks, place, false)
}

/// Writes a mark at this place.
pub fn mark(marks: &mut [bool], place: usize, is_set: bool) {
    put_item(marks, place, is_set);
}

/// The number as an index.
pub fn index(number: usize) -> u32 {
    (number & 0xFFFF_FFFF) as u32
}

/// The sum.
pub fn sum(one: i64, other: i64) -> i64 {
    one.wrapping_add(other)
}

/// The difference.
pub fn less(one: i64, other: i64) -> i64 {
    one.wrapping_sub(other)
}

/// The place behind this one.
pub fn next(place: usize) -> usize {
    place.wrapping_add(1)
}

/// The number with a sign.
pub fn signed(number: u64) -> i64 {
    match i64::try_from(number) {
        Ok(number) => number,
        Err(_) => i64::MAX,
    }
}

/// The offsets with a sign.
pub fn signed_list(alloc: Global, offsets: &[u64]) -> Result<Vec<i64>, AllocError> {
    let mut list = Vec::with_capacity(alloc, offsets.len())?;
    for offset in offsets {
        push(&mut list, signed(*offset))?;
    }
    Ok(list)
}

/// The offsets without a sign.
pub fn unsigned_list(alloc: Global, offsets: &[i64]) -> Result<Vec<u64>, AllocError> {
    let mut list = Vec::with_capacity(alloc, offsets.len())?;
    for offset in offsets {
        push(&mut list, offset.unsigned_abs())?;
    }
    Ok(list)
}

/// The same offsets.
pub fn copy(alloc: Global, offsets: &[i64]) -> Result<Vec<i64>, AllocError> {
    let mut list = Vec::new(alloc);
    list.extend_from_slice(offsets)?;
    Ok(list)
}
