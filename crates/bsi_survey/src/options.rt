//! What is said of row files before they are surveyed (`SurveyOptions`), and the candidates that the columns begin with.

ghost use Rattle.std.specs.Prelude.{◌≡◌, ◌<◌, ◌++◌, length, map, IfOk, OnOk};
ghost use Rattle.bsi_inference.specs.Nulls.{usual_words};
ghost use Rattle.bsi_survey.specs.Looking.{start_at, AreLookedFor, AreNewBy, IsLookedFor, IsNewBy};

use crate::NoMemory;
use bsi_inference::{Candidates, usual_null_words};
use bsi_kinds::DateOrder;
use bsi_logical::Dialect;
use std::alloc::Global;

/// What a column of row files may have, before a field was seen.
#[derive(Clone, Copy, Debug, PartialEq, Eq)]
pub enum ColumnStart {
    /// Each kind.
    Any,
    /// Texts alone.
    Texts,
    /// Each kind, but decimals are rounded to so many places.
    Rounded(u32),
}

/// How the texts of row files are surveyed.
#[derive(Drop)]
pub struct SurveyOptions {
    /// The byte between fields, and the decimal point.
    pub dialect: Dialect,
    /// Whether the day or the month is first in dates that have the year last, if that is known.
    pub order: Option<DateOrder>,
    /// The null words beside the usual ones.
    pub nulls: Vec<Vec<u8>>,
    /// The titles of the columns that are surveyed, or none if each column is.
    pub columns: Option<Vec<Vec<u8>>>,
    /// To how many places the decimals of a column are rounded that needs more digits than 63 bits hold, or none if such a
    /// column is refused.
    pub rounding: Option<u32>,
    /// Of each column that is surveyed, what it may have. A column behind the last one may have each kind.
    pub starts: Vec<ColumnStart>,
}

impl SurveyOptions {
    /// Makes a list of the null words: the usual ones, and those that are said.
    pub(crate) fn list_null_words(&self, alloc: Global) -> Result<Vec<Vec<u8>>, NoMemory>
        ensures { IfOk result (λ words. map (λ word. word.items) words.items
            ≡ usual_words ++ map (λ word. word.items) self.now.nulls.items) }
    {
        let mut words = usual_null_words(alloc)?;
        'nulls: for word in &self.nulls {
            let word = Vec::from_slice(alloc, word.as_slice())?;
            words.push(word)?;
        }
        Ok(words)
    }

    /// Makes the candidates of as many columns, which saw no field.
    pub(crate) fn begin_columns(
        &self,
        alloc: Global,
        count: usize,
    ) -> Result<Vec<Candidates>, NoMemory>
        ensures len { IfOk result (λ columns. length columns.items ≡ count) }
        ensures begun { IfOk result (λ columns. AreNewBy self.now.dialect.point self.now.order
            self.now.starts.items columns.items) }
        ensures looked { IfOk result
            (λ columns. AreLookedFor self.now.dialect.point self.now.starts.items columns.items) }
    {
        let mut columns = Vec::new(alloc);
        'columns: for c in 0..count {
            let column = self.begin_column(alloc, c)?;
            columns.push(column)?;
        }
        Ok(columns)
    }

    /// Makes the candidates of column `c`, which saw no field.
    fn begin_column(&self, alloc: Global, c: usize) -> Result<Candidates, NoMemory>
        ensures begun { IfOk result (IsNewBy self.now.dialect.point self.now.order
            (start_at self.now.starts.items c)) }
        ensures looked { IfOk result
            (IsLookedFor self.now.dialect.point (start_at self.now.starts.items c)) }
    {
        let point = self.dialect.point;
        match self.starts.get(c).copied().unwrap_or(ColumnStart::Any) {
            ColumnStart::Any => Candidates::new(alloc, point, self.order),
            ColumnStart::Texts => Ok(Candidates::of_texts(alloc)),
            ColumnStart::Rounded(places) => {
                Candidates::rounded(alloc, places, point, self.order)
            }
        }
    }
}
