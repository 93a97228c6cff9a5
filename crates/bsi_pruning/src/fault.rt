//! Why answers over named columns end early.

ghost use Rattle.std.specs.Prelude.{◌≡◌};

use bsi_answers::FilesFault;
use bsi_storage::OpenFault;

/// Why answers over the named columns of a file end early.
#[derive(Clone, Copy, Debug, PartialEq, Eq)]
pub enum NamedFault {
    /// The questions could not be read, memory was refused, or the writer failed.
    Run(FilesFault),
    /// Columns that a record names could not be read.
    Columns(OpenFault),
}

impl From<FilesFault> for NamedFault {
    ghost use Rattle.bsi_pruning.specs.declared.fault.NamedFault.TheVariants.{Run};

    ghost from_gives = { λ fault e. e ≡ Run fault };

    fn from(fault: FilesFault) -> NamedFault {
        NamedFault::Run(fault)
    }
}

impl From<OpenFault> for NamedFault {
    ghost use Rattle.bsi_pruning.specs.declared.fault.NamedFault.TheVariants.{Columns};

    ghost from_gives = { λ fault e. e ≡ Columns fault };

    fn from(fault: OpenFault) -> NamedFault {
        NamedFault::Columns(fault)
    }
}
