//! Why a text of surveys isn't read.

ghost use Rattle.std.specs.Prelude.{◌≡◌};
ghost use Rattle.vic_survey.specs.declared.fault.SurveysFault.{SurveysFault};

use std::alloc::{AllocError, AllocFailed};

/// Why a text of surveys isn't read.
#[derive(Clone, Copy, Debug, PartialEq, Eq)]
pub enum SurveysFault {
    /// The number of the first line, from 1, that no text of surveys could have there.
    Line { line: usize },
    /// Memory was refused.
    Memory,
}

impl From<AllocError> for SurveysFault {
    ghost from_gives = { λ _ e. e ≡ SurveysFault.Memory };

    fn from(_: AllocError) -> SurveysFault {
        SurveysFault::Memory
    }
}

impl<T: Drop> From<AllocFailed<T>> for SurveysFault {
    ghost from_gives = { λ _ e. e ≡ SurveysFault.Memory };

    fn from(_: AllocFailed<T>) -> SurveysFault {
        SurveysFault::Memory
    }
}
