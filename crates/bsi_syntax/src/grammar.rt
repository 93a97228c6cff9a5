//! The grammars of questions, those of scripts or of an index (`Grammar`), and where a record goes wrong (`Stop`).

ghost use Rattle.std.specs.Prelude.{◌≡◌, length};

use crate::NoMemory;

/// Which questions are read.
#[derive(Clone, Copy, Debug, PartialEq, Eq)]
pub enum Grammar {
    /// Those of a script and of the asks of row files: totals without ranks, of predicates that compare with constants
    /// alone.
    Script,
    /// Those of an index in a file or in memory: totals with ranks, predicates that may compare two columns, and reports.
    Index,
}

/// What a question could have next.
#[derive(Clone, Copy, Debug, PartialEq, Eq)]
pub enum Expected {
    /// The word of a total; in front of all fields also that of a report.
    Total,
    /// The name of a column.
    Column,
    /// A total, since groups are by at most 64 columns.
    NoColumn,
    /// A whole number from 0.
    Number,
    /// The denominator of a share: at least 1, and no less than the numerator in front of it.
    Denominator,
    /// A predicate, or the word that negates or joins those in front of it.
    Predicate,
    /// `null`, or the sign of a comparison.
    Comparison,
    /// What a column is compared with: a constant, or in an index the name of a column that may be compared with it.
    Compared,
    /// The name of a column whose numbers may be summed.
    Summed,
    /// A word that joins two of the predicates that stand side by side in front of it, so many.
    Joint(usize),
    /// Nothing, since a predicate has at most 1,000 fields.
    NoField,
    /// A predicate that compares columns with constants alone.
    PlainPredicate,
}

/// Where no question goes on.
#[derive(Clone, Copy, Debug, PartialEq, Eq)]
pub struct Stop {
    /// How many of the fields are left. The first of them is the one with which no question goes on; where none is left,
    /// the fields end too early.
    pub left: usize,
    /// What could be there.
    pub expected: Expected,
}

impl Stop {
    /// Returns the stop in front of these fields.
    pub(crate) fn before(fields: &[&[u8]], expected: Expected) -> Stop
        ensures left { result.left ≡ length fields.now }
        ensures expected { result.expected ≡ expected }
    {
        Stop {
            left: fields.len(),
            expected,
        }
    }
}

/// Why no question is read.
#[derive(Clone, Copy, Debug, PartialEq, Eq)]
pub enum QuestionError {
    /// The fields are none.
    Stopped(Stop),
    /// Memory was refused.
    NoMemory,
}

impl From<Stop> for QuestionError {
    ghost use Rattle.bsi_syntax.specs.declared.grammar.QuestionError.TheVariants.{Stopped};

    ghost from_gives = { λ stop e. e ≡ Stopped stop };

    fn from(stop: Stop) -> QuestionError {
        QuestionError::Stopped(stop)
    }
}

impl From<NoMemory> for QuestionError {
    ghost use Rattle.bsi_syntax.specs.declared.grammar.QuestionError.TheVariants.{NoMemory};

    ghost from_gives = { λ _ e. e ≡ NoMemory };

    fn from(_refused: NoMemory) -> QuestionError {
        QuestionError::NoMemory
    }
}
