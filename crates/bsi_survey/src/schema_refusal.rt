//! Why a survey makes no schema (`SchemaRefusal`), and which columns are in doubt (`ColumnDoubt`).

use bsi_inference::Doubt;
use bsi_logical::{DeclareError, Refusal};
use bsi_schema::SchemaError;
use std::alloc::AllocError;

/// A column whose fields do not decide its kind.
#[derive(Drop)]
pub struct ColumnDoubt {
    /// The column, from 0.
    pub column: usize,
    /// Its title.
    pub title: Vec<u8>,
    /// Why there is no kind.
    pub doubt: Doubt,
}

/// Why a survey makes no schema.
#[derive(Drop)]
pub enum SchemaRefusal {
    /// There are more than 64 columns.
    TooManyColumns,
    /// The title of this column, from 0, is that of a column before it, too, so that no title tells the two apart.
    RepeatedTitle(usize),
    /// These columns are in doubt, in their order.
    Doubts(Vec<ColumnDoubt>),
    /// A column could not be declared. No header was seen for which this is so.
    Undeclared(Refusal),
    /// Memory was refused.
    NoMemory,
}

impl From<AllocError> for SchemaRefusal {
    ghost use Rattle.std.specs.Prelude.{◌≡◌};
    ghost use Rattle.bsi_survey.specs.declared.schema_refusal.SchemaRefusal.TheVariants.{NoMemory};

    ghost from_gives = { λ _ e. e ≡ NoMemory };

    fn from(_refused: AllocError) -> SchemaRefusal {
        SchemaRefusal::NoMemory
    }
}

impl From<SchemaError> for SchemaRefusal {
    ghost use Rattle.bsi_survey.specs.Made.{IsLateRefusal};

    ghost from_gives = { λ _ e. IsLateRefusal e };

    fn from(error: SchemaError) -> SchemaRefusal {
        match error {
            SchemaError::NoMemory => SchemaRefusal::NoMemory,
            _ => SchemaRefusal::Undeclared(Refusal::BadTable),
        }
    }
}

impl From<DeclareError> for SchemaRefusal {
    ghost use Rattle.bsi_survey.specs.Made.{IsLateRefusal};

    ghost from_gives = { λ _ e. IsLateRefusal e };

    fn from(error: DeclareError) -> SchemaRefusal {
        match error {
            DeclareError::Refused(why) => SchemaRefusal::Undeclared(why),
            DeclareError::NoMemory => SchemaRefusal::NoMemory,
        }
    }
}
