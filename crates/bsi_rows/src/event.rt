//! The events of a step machine (`Event`) and its replies (`Reply`), with the refusals of a row, a load and a closing.

ghost use Rattle.std.specs.Prelude.{◌≡◌};

use crate::{Answer, AppendError, AskError, Query, Row};

/// One step of a machine. Feeders go by their numbers, from 0.
#[derive(Debug, Drop)]
pub enum Event {
    /// Adds a row to those of this feeder that wait.
    Submit(u32, Row),
    /// Indexes the row of this feeder that has waited longest.
    Load(u32),
    /// Ends this feeder.
    Close(u32),
    /// Asks a query over the indexed rows.
    Ask(Query),
}

/// Why a row is not accepted, in the order of the checks. The row is handed back.
#[derive(Debug, Drop, PartialEq, Eq)]
pub enum SubmitRefused {
    /// There is no such feeder.
    UnknownFeeder(Row),
    /// The feeder is closed.
    Closed(Row),
    /// The row does not fit the schema.
    Misfit(Row),
    /// As many rows of the feeder wait as its queue can hold.
    Full(Row),
}

/// Why no row is loaded, in the order of the checks. A running system answers the same, where the rows of a feeder wait
/// in a ring: there `Empty` says that no row is seen, and `Ended` that the feeder is settled and all its rows are
/// loaded.
#[derive(Clone, Copy, Debug, PartialEq, Eq)]
pub enum LoadRefused {
    /// There is no such feeder.
    UnknownFeeder,
    /// No row of the feeder waits, and the feeder is closed.
    Ended,
    /// No row of the feeder waits.
    Empty,
    /// The index has as many rows as its limit. The row still waits.
    IndexFull,
    /// The index was refused memory. The row still waits.
    NoMemory,
}

impl From<AppendError> for LoadRefused {
    ghost use Rattle.bsi_rows.specs.Shown.{refusal_of_append};

    ghost from_gives = { λ refused e. e ≡ refusal_of_append refused };

    fn from(refused: AppendError) -> LoadRefused {
        match refused {
            AppendError::IndexFull => LoadRefused::IndexFull,
            AppendError::NoMemory => LoadRefused::NoMemory,
        }
    }
}

/// Why a feeder is not closed, in the order of the checks.
#[derive(Clone, Copy, Debug, PartialEq, Eq)]
pub enum CloseRefused {
    /// There is no such feeder.
    UnknownFeeder,
    /// The feeder is already closed.
    AlreadyClosed,
}

/// The reply to an event.
#[derive(Debug, Drop, PartialEq, Eq)]
pub enum Reply {
    /// To a submission.
    Submitted(Result<(), SubmitRefused>),
    /// To a load: the position of the row in the index, from 0.
    Loaded(Result<u64, LoadRefused>),
    /// To a closing.
    Closed(Result<(), CloseRefused>),
    /// To a query.
    Answered(Result<Answer, AskError>),
}

/// A run that did not begin, since memory was refused for the list of its replies. None of its events took place.
#[derive(Debug, Drop)]
pub struct RunRefused {
    /// The events, as they were given.
    pub events: Vec<Event>,
}
