//! Why a plan file or a certificate file is refused.
ghost use Rattle.std.specs.Prelude.{◌≡◌};
ghost use Rattle.tsn_cert.specs.Fault.{number_of};

use std::alloc::{AllocError, AllocFailed};
use thiserror::Error;
use tsn_model::NoMemory;

/// Why a file is refused. The first cause that holds is told; want of memory may come in place of any other.
#[derive(Clone, Copy, Debug, PartialEq, Eq, Error)]
pub enum FileFault {
    /// The bytes are no JSON text.
    #[error("not JSON")]
    NotJson,
    /// The text is JSON, and its value is not of the file's form.
    #[error("wrong shape")]
    WrongShape,
    /// The value is of the file's form, and a number is above its limit.
    #[error("number too large")]
    NumberTooLarge,
    /// A growth was refused.
    #[error("no memory")]
    Memory,
}

impl FileFault {
    /// The number by which the fault is told: 1 to 4, in the order above.
    pub fn number(self) -> u8
        ensures { result ≡ number_of self }
    {
        match self {
            FileFault::NotJson => 1,
            FileFault::WrongShape => 2,
            FileFault::NumberTooLarge => 3,
            FileFault::Memory => 4,
        }
    }
}

impl From<AllocError> for FileFault {
    ghost use Rattle.std.specs.Prelude.{◌≡◌};
    ghost use Rattle.tsn_cert.specs.declared.fault.FileFault.TheVariants.{Memory};

    ghost from_gives = { λ _ e. e ≡ Memory };

    fn from(_refused: AllocError) -> FileFault {
        FileFault::Memory
    }
}

impl From<NoMemory> for FileFault {
    ghost use Rattle.std.specs.Prelude.{◌≡◌};
    ghost use Rattle.tsn_cert.specs.declared.fault.FileFault.TheVariants.{Memory};

    ghost from_gives = { λ _ e. e ≡ Memory };

    fn from(_refused: NoMemory) -> FileFault {
        FileFault::Memory
    }
}

impl<T: Drop> From<AllocFailed<T>> for FileFault {
    ghost use Rattle.std.specs.Prelude.{◌≡◌};
    ghost use Rattle.tsn_cert.specs.declared.fault.FileFault.TheVariants.{Memory};

    ghost from_gives = { λ _ e. e ≡ Memory };

    fn from(_refused: AllocFailed<T>) -> FileFault {
        FileFault::Memory
    }
}
