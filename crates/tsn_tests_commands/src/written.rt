//! The calls by which a file is written, in their order.
mod noted;
mod replaced;
