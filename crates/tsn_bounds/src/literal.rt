//! Bounds of variables as literals (lazy clause generation: Ohrimenko, Stuckey and Codish 2007). A variable has two bounds: its least
//! value, and its greatest value with the sign turned. So each bound grows when it's narrowed.
use crate::number::{item_at, less, put_item};

/// That a bound is at least this.
#[derive(Clone, Copy)]
pub struct Literal {
    pub bound: u32,
    pub least: i64,
}

impl Literal {
    /// That a bound is at least this.
    pub fn of(bound: u32, least: i64) -> Literal {
        Literal { bound, least }
    }

    /// That it isn't so.
    pub fn opposite(self) -> Literal {
        Literal {
            bound: self.bound ^ 1,
            least: less(1, self.least),
        }
    }

    /// The place of the bound.
    pub fn place(self) -> usize {
        self.bound as usize
    }
}

/// Exchanges the literals of two places.
pub fn exchange(literals: &mut [Literal], one: usize, other: usize) {
    let first = literal_at(literals, one);
    let second = literal_at(literals, other);
    put_item(literals, one, second);
    put_item(literals, other, first);
}

/// The literal of this place.
pub fn literal_at(literals: &[Literal], place: usize) -> Literal {
    item_at(literals, place, Literal::of(0, 0))
}
