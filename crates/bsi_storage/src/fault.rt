//! Why an index is not written (`SaveFault`), or why a file is not opened, or not to its end (`OpenFault`).

ghost use Rattle.std.specs.Prelude.{◌≡◌};

use bsi_segments::{SegmentFault, WriteFault};
use std::alloc::AllocError;

/// Why an index was not written to its end.
#[derive(Clone, Copy, Debug, PartialEq, Eq)]
pub enum SaveFault {
    /// The writer failed, or took no byte.
    Write,
    /// Memory was refused.
    NoMemory,
}

/// Why a file is not opened, or not to its end: the first fault, from left to right.
#[derive(Clone, Copy, Debug, PartialEq, Eq)]
pub enum OpenFault {
    /// The bytes are not those of a saved index. Where no index was opened, there may be no bytes.
    NotAnIndex,
    /// They are of a version of the format that is not known.
    OtherVersion,
    /// They end within a segment.
    CutShort,
    /// A segment is not as it was written, or has no rows that may follow.
    Damaged,
    /// The reader failed.
    Read,
    /// Memory was refused.
    NoMemory,
}

impl From<WriteFault> for SaveFault {
    ghost use Rattle.bsi_storage.specs.declared.fault.SaveFault.TheVariants.{Write};

    ghost from_gives = { λ _ e. e ≡ Write };

    fn from(_fault: WriteFault) -> SaveFault {
        SaveFault::Write
    }
}

impl From<AllocError> for SaveFault {
    ghost use Rattle.bsi_storage.specs.declared.fault.SaveFault.TheVariants.{NoMemory};

    ghost from_gives = { λ _ e. e ≡ NoMemory };

    fn from(_refused: AllocError) -> SaveFault {
        SaveFault::NoMemory
    }
}

impl From<AllocError> for OpenFault {
    ghost use Rattle.bsi_storage.specs.declared.fault.OpenFault.TheVariants.{NoMemory};

    ghost from_gives = { λ _ e. e ≡ NoMemory };

    fn from(_refused: AllocError) -> OpenFault {
        OpenFault::NoMemory
    }
}

impl From<SegmentFault> for OpenFault {
    ghost use Rattle.bsi_storage.specs.Faults.{open_fault};

    ghost from_gives = { λ fault e. e ≡ open_fault fault };

    fn from(fault: SegmentFault) -> OpenFault {
        match fault {
            SegmentFault::NotASegment => OpenFault::NotAnIndex,
            SegmentFault::OtherVersion => OpenFault::OtherVersion,
            SegmentFault::CutShort => OpenFault::CutShort,
            SegmentFault::Damaged => OpenFault::Damaged,
            SegmentFault::Read => OpenFault::Read,
            SegmentFault::NoMemory => OpenFault::NoMemory,
        }
    }
}
