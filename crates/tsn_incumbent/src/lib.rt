//! What tellers share: the least flowspan that any of them has posted, by one word; halves of the tallies of what each has settled; and
//! the book of the search, behind one lock. No thread is started here.
#![tactic(auto)]

mod desk;
pub mod gathering;
pub mod halves;
pub mod incumbent;
pub mod names;
pub mod parts;
mod share;
pub mod shared;
pub mod single;
mod standing;
pub mod teller;

pub use desk::Counts;
pub use gathering::{gather, gather_unordered};
pub use halves::{Half, Halves};
pub use incumbent::{EndedWord, Incumbent, Seat};
pub use names::Named;
pub use parts::Parts;
pub use shared::{Shared, best_as, observe_as, post_as, settle_below_as};
pub use single::{settle_all_as, settle_and_post, settle_as, with_book};
pub use teller::Teller;
pub use tsn_model::Tally;
pub use tsn_timing::NoMemory;
