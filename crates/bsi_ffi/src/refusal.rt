//! Why a call of the C library is refused (`Refusal`), and the status that it returns.

ghost use Rattle.std.specs.Prelude.{◌≡◌};
ghost use Rattle.bsi_ffi.specs.Statuses.{status_of};

use std::alloc::AllocError;

/// The refusals of all calls, in the order of their statuses.
#[derive(Clone, Copy, Debug, PartialEq, Eq)]
pub enum Refusal {
    /// The handle is closed.
    Closed,
    /// The handle that is to be opened is not closed.
    Open,
    /// Memory was refused.
    NoMemory,
    /// A record of the schema text declares neither a column nor the limit, or can't be carried out.
    BadSchema,
    /// The schema text declares no column.
    NoColumns,
    /// The number of feeders is not from 1 to 64, or there is no feeder of this number.
    BadFeeder,
    /// There is another number of columns than the schema has, or they are not of one length, or a bitmap is short.
    BadColumns,
    /// A row does not fit the schema.
    BadRow,
    /// There would be more rows than the limit.
    IndexFull,
    /// Several handles share the index, so it accepts no rows.
    Shared,
    /// The fields ask no query, or spell no predicate.
    BadQuery,
    /// The caller's buffer is too small.
    BufferTooSmall,
    /// The schema text has more than 1,000,000 records.
    BadText,
    /// There are more than 67,108,864 bytes of notes.
    LongNotes,
    /// The bytes are not those of a saved index.
    NotAnIndex,
    /// They are of another version of the format.
    OtherVersion,
    /// They end within a segment.
    CutShort,
    /// A segment is not as it was written.
    Damaged,
    /// The text of kinds says nothing of the columns, or has more than 67,108,864 bytes.
    BadKinds,
}

impl From<AllocError> for Refusal {
    ghost use Rattle.bsi_ffi.specs.declared.refusal.Refusal.TheVariants.{NoMemory};

    ghost from_gives = { λ _ why. why ≡ NoMemory };

    fn from(_refused: AllocError) -> Refusal {
        Refusal::NoMemory
    }
}

/// Returns the number by which C knows how a call ended: 0 if it was done.
pub fn status_of(ending: Result<(), Refusal>) -> u32
    ensures { result ≡ status_of ending }
{
    match ending {
        Ok(()) => 0,
        Err(Refusal::Closed) => 1,
        Err(Refusal::Open) => 2,
        Err(Refusal::NoMemory) => 3,
        Err(Refusal::BadSchema) => 4,
        Err(Refusal::NoColumns) => 5,
        Err(Refusal::BadFeeder) => 6,
        Err(Refusal::BadColumns) => 7,
        Err(Refusal::BadRow) => 8,
        Err(Refusal::IndexFull) => 9,
        Err(Refusal::Shared) => 10,
        Err(Refusal::BadQuery) => 11,
        Err(Refusal::BufferTooSmall) => 12,
        Err(Refusal::BadText) => 13,
        Err(Refusal::LongNotes) => 14,
        Err(Refusal::NotAnIndex) => 15,
        Err(Refusal::OtherVersion) => 16,
        Err(Refusal::CutShort) => 17,
        Err(Refusal::Damaged) => 18,
        Err(Refusal::BadKinds) => 19,
    }
}
