//! Why a device failed.

use std::io::Error;

/// What is done with a device.
#[derive(Clone, Copy)]
pub enum Action {
    Read,
    Write,
}

/// A read or a write that failed: of what device, and the system's cause.
#[derive(Clone, Copy)]
pub struct Failure<'a> {
    pub name: &'a str,
    pub action: Action,
    pub cause: Error,
}
