//! Why an index is not made (`IndexError`), appends no row (`AppendError`) or answers no query (`AskError`).

ghost use Rattle.std.specs.Prelude.{◌≡◌};

use std::alloc::AllocError;

/// The refusals of an index, in the order in which they are checked.
#[derive(Clone, Copy, Debug, PartialEq, Eq)]
pub enum IndexError {
    /// The schema has no column.
    NoColumns,
    /// The limit is not from 1 to 2^32.
    LimitOutOfRange,
    /// Memory was refused.
    NoMemory,
}

/// The refusals of a row, in the order in which they are checked.
#[derive(Clone, Copy, Debug, PartialEq, Eq)]
pub enum AppendError {
    /// There are already as many rows as the limit.
    IndexFull,
    /// Memory was refused.
    NoMemory,
}

/// The refusals of a query, in the order in which they are checked.
#[derive(Clone, Copy, Debug, PartialEq, Eq)]
pub enum AskError {
    /// There is no column of this number. It is the total's column if that is missing, or else the first missing column
    /// of the predicate, from left to right.
    BadColumn(u32),
    /// Memory was refused.
    NoMemory,
}

impl From<AllocError> for IndexError {
    ghost use Rattle.bsi_rows.specs.declared.errors.IndexError.TheVariants.{NoMemory};

    ghost from_gives = { λ _ e. e ≡ NoMemory };

    fn from(_refused: AllocError) -> IndexError {
        IndexError::NoMemory
    }
}

impl From<AllocError> for AppendError {
    ghost use Rattle.bsi_rows.specs.declared.errors.AppendError.TheVariants.{NoMemory};

    ghost from_gives = { λ _ e. e ≡ NoMemory };

    fn from(_refused: AllocError) -> AppendError {
        AppendError::NoMemory
    }
}

impl From<AllocError> for AskError {
    ghost use Rattle.bsi_rows.specs.declared.errors.AskError.TheVariants.{NoMemory};

    ghost from_gives = { λ _ e. e ≡ NoMemory };

    fn from(_refused: AllocError) -> AskError {
        AskError::NoMemory
    }
}
