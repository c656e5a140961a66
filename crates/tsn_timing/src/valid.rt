//! A list of offsets that is a valid schedule.
ghost use Rattle.std.specs.Prelude.{◌≡◌, ℕ, List, IfOk};

use std::alloc::AllocError;
use std::marker::Model;

/// Offsets that `Timing::valid` found to be a valid schedule: one a stream, in nanoseconds.
#[derive(Drop)]
pub struct Valid {
    offsets: Vec<u64>,
}

impl Model for Valid {
    ghost Value = { List ℕ };

    ghost view = { λ valid. valid.offsets.items };
}

impl Valid {
    pub(crate) fn new(offsets: Vec<u64>) -> Valid
        ensures { result ≡ offsets.items }
    {
        Valid { offsets }
    }

    /// The same once more.
    pub(crate) fn copy(&self) -> Result<Valid, AllocError>
        ensures { IfOk result (λ valid. valid ≡ self.now) }
    {
        let offsets = Vec::from_slice(*self.offsets.allocator(), self.offsets())?;
        Ok(Valid { offsets })
    }

    /// The offsets, in stream order.
    pub fn offsets(&self) -> &[u64]
        ensures { result.now ≡ self.now }
    {
        &self.offsets
    }
}
