//! Why two surveys are not joined (`JoinError`).

use std::alloc::AllocError;

/// Why two surveys are not joined.
#[derive(Clone, Copy, Debug, PartialEq, Eq)]
pub enum JoinError {
    /// The headers differ.
    OtherHeader,
    /// 64 bits do not hold the number of records of both.
    TooLong,
    /// Memory was refused.
    NoMemory,
}

impl From<AllocError> for JoinError {
    ghost use Rattle.std.specs.Prelude.{◌≡◌};
    ghost use Rattle.bsi_survey.specs.declared.join_error.JoinError.TheVariants.{NoMemory};

    ghost from_gives = { λ _ e. e ≡ NoMemory };

    fn from(_refused: AllocError) -> JoinError {
        JoinError::NoMemory
    }
}
