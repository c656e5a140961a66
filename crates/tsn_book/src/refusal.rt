//! What is told where something isn't settled.

use crate::event::Event;
use crate::fault::BookFault;

/// An event that isn't settled, and the first reason why not.
#[derive(Drop)]
pub struct EventRefusal {
    pub fault: BookFault,
    pub event: Event,
}

/// Where settling the nodes of a walk ended: how many were settled, and the first reason why the next one wasn't.
#[derive(Clone, Copy)]
pub struct WalkRefusal {
    pub settled: usize,
    pub fault: BookFault,
}

/// Where settling several events ended: how many were settled, the first reason why the next one wasn't, and that one with all
/// behind it.
#[derive(Drop)]
pub struct BatchRefusal {
    pub settled: usize,
    pub fault: BookFault,
    pub rest: Vec<Event>,
}
