//! The one error of the examples (`Refused`): the refusal of a call that they make.

use bsi_library::digits::BasesError;
use bsi_library::machine::{LoadRefused, MakeError, SubmitRefused};
use bsi_library::{AppendError, AskError, IndexError, SchemaError};
use std::alloc::{AllocError, AllocFailed};

/// The refusal of a call.
#[derive(Debug, Drop)]
pub(crate) enum Refused {
    Schema(SchemaError),
    Index(IndexError),
    Append(AppendError),
    Ask(AskError),
    Bases(BasesError),
    Make(MakeError),
    Submit(SubmitRefused),
    Load(LoadRefused),
    Memory,
}

impl From<SchemaError> for Refused {
    fn from(refused: SchemaError) -> Refused {
        Refused::Schema(refused)
    }
}

impl From<IndexError> for Refused {
    fn from(refused: IndexError) -> Refused {
        Refused::Index(refused)
    }
}

impl From<AppendError> for Refused {
    fn from(refused: AppendError) -> Refused {
        Refused::Append(refused)
    }
}

impl From<AskError> for Refused {
    fn from(refused: AskError) -> Refused {
        Refused::Ask(refused)
    }
}

impl From<BasesError> for Refused {
    fn from(refused: BasesError) -> Refused {
        Refused::Bases(refused)
    }
}

impl From<MakeError> for Refused {
    fn from(refused: MakeError) -> Refused {
        Refused::Make(refused)
    }
}

impl From<SubmitRefused> for Refused {
    fn from(refused: SubmitRefused) -> Refused {
        Refused::Submit(refused)
    }
}

impl From<LoadRefused> for Refused {
    fn from(refused: LoadRefused) -> Refused {
        Refused::Load(refused)
    }
}

impl From<AllocError> for Refused {
    fn from(_refused: AllocError) -> Refused {
        Refused::Memory
    }
}

impl<T: Drop> From<AllocFailed<T>> for Refused {
    fn from(_refused: AllocFailed<T>) -> Refused {
        Refused::Memory
    }
}
