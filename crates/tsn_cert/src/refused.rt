//! Why a file is refused: what is the matter with it, and where.
ghost use Rattle.std.specs.Prelude.{◌≡◌};
ghost use Rattle.tsn_cert.specs.Told.{key_name, code_of};

use crate::{FileFault, Format};
use serde_json::Error;
use std::alloc::{AllocError, AllocFailed};
use tsn_model::NoMemory;

/// A key of a plan or of a certificate.
#[derive(Clone, Copy, PartialEq, Eq)]
pub enum Key {
    Flowspan,
    Offsets,
    Format,
    Goal,
    Nodes,
    Steps,
    Target,
}

impl Key {
    /// As it stands in a file.
    pub fn name(self) -> &'static str
        ensures { result.now ≡ key_name self }
    {
        match self {
            Key::Flowspan => "flowspan",
            Key::Offsets => "offsets",
            Key::Format => "format",
            Key::Goal => "goal",
            Key::Nodes => "nodes",
            Key::Steps => "steps",
            Key::Target => "target",
        }
    }
}

/// A part of a step, by its number in the clause or among the moves.
#[derive(Clone, Copy, PartialEq, Eq)]
pub enum Part {
    Fact(usize),
    Move(usize),
}

/// What isn't of the form of the file. Where more than one thing isn't, the first one in this order is told; of nodes, steps and offsets
/// the first one in the file, and of a step what stands first in it.
#[derive(Drop)]
pub enum Misfit {
    /// The value is no object.
    NoObject,
    /// The format of a certificate is none of 1, 2 and 3, or of a file that is to be of one kind, none of that kind.
    OtherFormat,
    /// The object lacks this key.
    Missing(Key),
    /// It has this key, which isn't one of its form.
    Unknown(String),
    /// One of the flowspan and the offsets is null, and the other isn't.
    OneNull,
    /// The goal of an argument is none of its words.
    OtherGoal,
    /// At this key stands no number that is a `u64`, in digits alone.
    NoNumber(Key),
    /// At this key stands no array.
    NoArray(Key),
    /// The offset of this number is none either.
    NoOffset(usize),
    /// The node of this number has none of the forms of the format.
    NoNode(usize, Format),
    /// The step of this number is no array of two arrays.
    NoStep(usize),
    /// A part of the step of this number has none of the forms of an argument.
    NoPart(usize, Part),
}

/// Which number is above its limit. Where more than one is, the first one in this order is told; of nodes, steps and offsets the first one
/// in the file.
#[derive(Clone, Copy, PartialEq, Eq)]
pub enum Excess {
    /// This one, at this key.
    At(Key, u64),
    /// The offset of this number, which is this.
    OfOffset(usize, u64),
    /// One of the node of this number.
    OfNode {
        number: usize,
        /// Whether a lag is among its numbers.
        lags: bool,
    },
    /// One of a part of the step of this number.
    OfPart {
        step: usize,
        part: Part,
        /// Whether a lag is among its numbers.
        lags: bool,
    },
}

/// Why a file is refused. The first cause that holds is told; want of memory may come in place of any other.
#[derive(Drop)]
pub enum Refused {
    /// The bytes are no JSON text: this is what its reader says.
    NotJson(Error),
    /// The text is JSON, and its value is not of the file's form.
    WrongShape(Misfit),
    /// The value is of the file's form, and a number is above its limit.
    NumberTooLarge(Excess),
    /// A growth was refused.
    Memory,
}

impl Refused {
    /// The fault, without what is the matter.
    pub fn code(&self) -> FileFault
        ensures { result ≡ code_of self.now }
    {
        match self {
            Refused::NotJson(_) => FileFault::NotJson,
            Refused::WrongShape(_) => FileFault::WrongShape,
            Refused::NumberTooLarge(_) => FileFault::NumberTooLarge,
            Refused::Memory => FileFault::Memory,
        }
    }
}

impl From<AllocError> for Refused {
    ghost use Rattle.std.specs.Prelude.{◌≡◌};
    ghost use Rattle.tsn_cert.specs.declared.refused.Refused.TheVariants.{Memory};

    ghost from_gives = { λ _ e. e ≡ Memory };

    fn from(_refused: AllocError) -> Refused {
        Refused::Memory
    }
}

impl<T: Drop> From<AllocFailed<T>> for Refused {
    ghost use Rattle.std.specs.Prelude.{◌≡◌};
    ghost use Rattle.tsn_cert.specs.declared.refused.Refused.TheVariants.{Memory};

    ghost from_gives = { λ _ e. e ≡ Memory };

    fn from(_refused: AllocFailed<T>) -> Refused {
        Refused::Memory
    }
}

impl From<NoMemory> for Refused {
    ghost use Rattle.std.specs.Prelude.{◌≡◌};
    ghost use Rattle.tsn_cert.specs.declared.refused.Refused.TheVariants.{Memory};

    ghost from_gives = { λ _ e. e ≡ Memory };

    fn from(_refused: NoMemory) -> Refused {
        Refused::Memory
    }
}
