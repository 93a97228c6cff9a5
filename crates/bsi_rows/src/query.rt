//! Queries of an index (`Query`), each a total of the rows that a predicate selects (`Pred`), and their answers.

ghost use Rattle.std.specs.Prelude.{◌≡◌};
ghost use Rattle.bsi_rows.specs.Answers.{columns_of_pred, columns_of_total, missing_column, missing_of};

use bsi_digits::Op;

/// A condition on a row. Columns go by their indices, from 0. Each function over a predicate calls itself for its
/// operands, so the stack bounds the depth of a predicate.
#[derive(Debug, Drop)]
pub enum Pred {
    /// Holds of every row.
    All,
    /// The column's entry is a number that satisfies the comparison with the constant, which may be any number. A null
    /// never does.
    Compare(u32, Op, i128),
    /// The entries of both columns are numbers, and the first satisfies the comparison with the second.
    Columns(u32, Op, u32),
    /// The column's entry is null.
    Null(u32),
    /// Both hold.
    Both(Box<Pred>, Box<Pred>),
    /// At least one of the two holds.
    Either(Box<Pred>, Box<Pred>),
    /// It does not hold. It may thus hold of nulls.
    Not(Box<Pred>),
}

/// What is asked of the rows that a predicate selects.
#[derive(Clone, Copy, Debug, PartialEq, Eq)]
pub enum Total {
    /// How many there are.
    Count,
    /// The sum of the column's numbers.
    Sum(u32),
    /// The least of the column's numbers.
    Least(u32),
    /// The greatest of the column's numbers.
    Greatest(u32),
    /// The lower median of the column's numbers.
    Median(u32),
    /// The number of this rank, from 0, among the column's numbers.
    Rank(u32, u64),
    /// Which rows they are.
    Rows,
}

/// A total of the rows that a predicate selects.
#[derive(Debug, Drop)]
pub struct Query {
    /// What is asked of the rows.
    pub total: Total,
    /// Which rows.
    pub pred: Pred,
}

/// The answer to a query.
#[derive(Debug, Drop, PartialEq, Eq)]
pub enum Answer {
    /// How many rows there are.
    Count(u64),
    /// The sum of the numbers, which is 0 if there are none.
    Sum(i128),
    /// The least, greatest or median number, or none if there is no number. The number of a rank, or none if the rank is
    /// past the last number.
    Value(Option<i64>),
    /// The feeder of each row and the row's number among that feeder's rows, from 0, in order of the rows.
    Rows(Vec<(u32, u64)>),
}

impl Query {
    /// Returns the first column that the query reads and that is not among the first `columns`: that of its total, or
    /// else the first one in the predicate, from left to right.
    pub fn missing_column(&self, columns: u32) -> Option<u32>
        ensures { result ≡ missing_column columns self.now }
    {
        self.total
            .missing_column(columns)
            .or_else(|| self.pred.missing_column(columns))
    }
}

impl Total {
    /// Returns the column that the total reads, if it is not among the first `columns`.
    fn missing_column(self, columns: u32) -> Option<u32>
        ensures { result ≡ missing_of columns (columns_of_total self) }
    {
        match self {
            Total::Count | Total::Rows => None,
            Total::Sum(c)
            | Total::Least(c)
            | Total::Greatest(c)
            | Total::Median(c)
            | Total::Rank(c, _) => { if c < columns { None } else { Some(c) } }
        }
    }
}

impl Pred {
    /// Returns the first column that the predicate reads, from left to right, and that is not among the first
    /// `columns`.
    pub fn missing_column(&self, columns: u32) -> Option<u32>
        ensures { result ≡ missing_of columns (columns_of_pred self.now) }
    {
        match self {
            Pred::All => None,
            Pred::Compare(c, _, _) | Pred::Null(c) => { if *c < columns { None } else { Some(*c) } }
            Pred::Columns(first, _, second) => {
                if *first >= columns {
                    Some(*first)
                } else if *second >= columns {
                    Some(*second)
                } else {
                    None
                }
            }
            Pred::Both(first, second) | Pred::Either(first, second) => {
                match first.missing_column(columns) {
                    Some(missing) => Some(missing),
                    None => second.missing_column(columns),
                }
            }
            Pred::Not(pred) => pred.missing_column(columns),
        }
    }
}
