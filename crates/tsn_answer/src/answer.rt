//! What a planner answers.

use tsn_book::Book;
use tsn_cert::{Certificate, Plan};

/// What a planner found.
#[derive(Drop)]
pub enum Answer {
    /// The lexicographically least of the schedules of least flowspan, the certificate that shows it, and how many nodes
    /// were settled, or how many steps the certificate has.
    Optimal(Plan, Certificate, usize),
    /// There is no schedule; the certificate that shows it, and how many nodes were settled, or how many steps it has.
    NoSchedule(Certificate, usize),
    /// The limit was met while a node was open; the book has the best schedule so far, if any.
    Stopped(Book),
}
