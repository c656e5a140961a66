//! Which search it is, and which tables are its own.
use std::marker::Brand;

/// Names one search with its two tables. What lies behind a lock is known by its type alone, so each call of a program picks
/// the names.
pub trait Named {
    ghost use Rattle.tsn_incumbent.specs.Names.{Names};

    ghost names: { Names };
}

impl Named for Brand {
    ghost use Rattle.tsn_incumbent.specs.Names.{no_names};

    ghost names = { no_names };
}
