//! Why a schema refuses to add a column (`SchemaError`).

ghost use Rattle.std.specs.Prelude.{◌≡◌};

use bsi_digits::BasesError;
use std::alloc::AllocError;

/// The refusals of a column, in the order in which they are checked.
#[derive(Clone, Copy, Debug, PartialEq, Eq)]
pub enum SchemaError {
    /// The text is not a name. A name has 1 to 32 bytes: first a lower-case letter, then lower-case letters, digits or
    /// `_`. The words `all`, `null`, `and`, `or` and `not` are no names.
    BadName,
    /// There already is a column of this name.
    NameTaken,
    /// There are already 64 columns.
    TooManyColumns,
    /// The bases are refused, for this reason. A number of slices is refused as that many bases of 2.
    BadBases(BasesError),
    /// The offset and the size add up to more than 2^63.
    BadOffset,
    /// Memory was refused.
    NoMemory,
}

impl From<AllocError> for SchemaError {
    ghost use Rattle.bsi_schema.specs.declared.schema_error.SchemaError.TheVariants.{NoMemory};

    ghost from_gives = { λ _ e. e ≡ NoMemory };

    fn from(_refused: AllocError) -> SchemaError {
        SchemaError::NoMemory
    }
}

impl From<BasesError> for SchemaError {
    ghost use Rattle.bsi_schema.specs.declared.schema_error.SchemaError.TheVariants.{BadBases};

    ghost from_gives = { λ why e. e ≡ BadBases why };

    fn from(why: BasesError) -> SchemaError {
        SchemaError::BadBases(why)
    }
}
