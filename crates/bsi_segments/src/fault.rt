//! Why the counted words of a segment were not read.

ghost use Rattle.std.specs.Prelude.{◌≡◌};

use std::alloc::AllocError;

/// Why no words were read: the first fault, from left to right.
#[derive(Clone, Copy, Debug, PartialEq, Eq)]
pub enum SegmentFault {
    /// The bytes do not begin as those of a segment.
    NotASegment,
    /// They begin as those of a version of the format that is not known.
    OtherVersion,
    /// They end before all words are there.
    CutShort,
    /// The checksum is another one than that of the words.
    Damaged,
    /// The reader failed.
    Read,
    /// Memory was refused.
    NoMemory,
}

impl From<AllocError> for SegmentFault {
    ghost use Rattle.bsi_segments.specs.declared.fault.SegmentFault.TheVariants.{NoMemory};

    ghost from_gives = { λ _ fault. fault ≡ NoMemory };

    fn from(_refused: AllocError) -> SegmentFault {
        SegmentFault::NoMemory
    }
}
