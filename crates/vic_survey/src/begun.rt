//! A survey that is read line by line.

ghost use Rattle.std.specs.Prelude.{◌≡◌};
ghost use Rattle.vic_survey.specs.declared.begun.StepFault.{StepFault};

use crate::name::Name;
use crate::survey::{FieldFacts, Survey};
use std::alloc::{AllocError, AllocFailed};

/// What was read of a survey.
#[derive(Drop)]
pub(crate) enum Begun {
    /// Its name.
    Named(Name),
    /// What a possible log says, up to a part; those behind it are as if the log said nothing.
    UpTo(Name, FieldFacts, Part),
    /// All but its seal.
    Unsealed(Survey),
}

/// The last part of what a possible log says that was read.
#[derive(Clone, Copy, Debug, PartialEq, Eq)]
pub(crate) enum Part {
    /// That it is possible.
    Possible,
    /// How many answers there are, and some certain UIDs and open masks.
    Lists,
    Margin,
    Weakest,
    Hidden,
}

/// Why a line isn't read.
#[derive(Clone, Copy, Debug, PartialEq, Eq)]
pub(crate) enum StepFault {
    /// No text of surveys has it there.
    Wrong,
    /// Memory was refused.
    Memory,
}

impl From<AllocError> for StepFault {
    ghost from_gives = { λ _ e. e ≡ StepFault.Memory };

    fn from(_: AllocError) -> StepFault {
        StepFault::Memory
    }
}

impl<T: Drop> From<AllocFailed<T>> for StepFault {
    ghost from_gives = { λ _ e. e ≡ StepFault.Memory };

    fn from(_: AllocFailed<T>) -> StepFault {
        StepFault::Memory
    }
}
