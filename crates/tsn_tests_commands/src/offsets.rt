//! Times and least offsets.

mod arcs;
mod stack;
mod times;
