//! Why a check ends early (`CheckFault`): memory was refused, or the writer failed.
ghost use Rattle.std.specs.Prelude.{◌≡◌};

use crate::NoMemory;
use bsi_input::WriteFault;

/// Why a check ends early. What it wrote before is a prefix of what it would have written.
#[derive(Clone, Copy, Debug, PartialEq, Eq)]
pub enum CheckFault {
    /// Memory was refused. Then nothing was written.
    NoMemory,
    /// The writer failed, or took no byte.
    Write,
}

impl From<NoMemory> for CheckFault {
    ghost use Rattle.bsi_check.specs.declared.fault.CheckFault.TheVariants.{NoMemory};

    ghost from_gives = { λ _ e. e ≡ NoMemory };

    fn from(_refused: NoMemory) -> CheckFault {
        CheckFault::NoMemory
    }
}

impl From<WriteFault> for CheckFault {
    ghost use Rattle.bsi_check.specs.declared.fault.CheckFault.TheVariants.{Write};

    ghost from_gives = { λ _ e. e ≡ Write };

    fn from(_fault: WriteFault) -> CheckFault {
        CheckFault::Write
    }
}
