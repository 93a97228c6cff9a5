//! Why a list of bases is refused (`BasesError`).
ghost use Rattle.std.specs.Prelude.{◌≡◌};

use std::alloc::AllocError;

/// The refusals of a list of bases, in the order in which they are checked.
#[derive(Clone, Copy, Debug, PartialEq, Eq)]
pub enum BasesError {
    /// There is no base.
    Empty,
    /// There are more than 63 bases.
    TooMany,
    /// The base at this place of the list as written, counted from 0, is not from 2 to 1,024. It is the first such
    /// place.
    BaseOutOfRange(u32),
    /// The bases add up to more than 4,096.
    TooWide,
    /// The bases multiply to more than 2^63.
    ProductTooLarge,
    /// Memory was refused.
    NoMemory,
}

impl From<AllocError> for BasesError {
    ghost use Rattle.bsi_digits.specs.declared.bases_error.BasesError.TheVariants.{NoMemory};

    ghost from_gives = { λ _ e. e ≡ NoMemory };

    fn from(_refused: AllocError) -> BasesError {
        BasesError::NoMemory
    }
}
