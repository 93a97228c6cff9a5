//! A question of an index (`Question`): a total, groups, first rows, different numbers, or the quantile of a `Share`.

ghost use Rattle.std.specs.Prelude.{◌≡◌};
ghost use Rattle.bsi_rows.specs.Shares.{share_of, share_rank};

use crate::query::{Pred, Query};
use bsi_digits::Extreme;
use std::marker::Model;

/// What is asked of the rows of an index.
#[derive(Debug, Drop)]
pub enum Question {
    /// A total of the rows that a predicate selects.
    Total(Query),
    /// The total of a query over the rows that have the same entries in some columns, of which the first one orders first.
    Groups(Query, Vec<u32>),
    /// The rows that come first by their numbers in a column, at most so many of those that a predicate selects.
    Top(Extreme, u32, u64, Pred),
    /// How many different numbers a column has at the rows that a predicate selects.
    Distinct(u32, Pred),
    /// The quantile of a share of the numbers that a column has at the rows that a predicate selects.
    Quantile(Share, u32, Pred),
}

/// A share of a whole, from none to all: a fraction from 0 to 1.
#[derive(Clone, Copy, Debug)]
pub struct Share {
    numerator: u64,
    denominator: u64,
}

impl Model for Share {
    ghost use Rattle.bsi_rows.specs.Shares.{Share, IsShare};

    ghost Value = { Share };

    ghost view = { λ s. record { numerator = s.numerator; denominator = s.denominator } };

    ghost invariant = { λ s. IsShare s.numerator s.denominator };

    ghost inverse = { λ s. record { numerator = s.numerator; denominator = s.denominator } };

    ghost inverse_ok = { λ s h. λ i. record { numerator = s.numerator; denominator = s.denominator } };
}

impl Share {
    /// Makes the share of `numerator` over `denominator`, or none if the denominator is 0 or less than the numerator.
    pub fn new(numerator: u64, denominator: u64) -> Option<Share>
        ensures { result ≡ share_of numerator denominator }
    {
        if denominator == 0 || numerator > denominator {
            return None;
        }
        Some(Share {
            numerator,
            denominator,
        })
    }

    /// Returns the rank, from 0, of this share of `count` numbers: that of the last number times the share, rounded
    /// down.
    pub fn rank_of(self, count: u64) -> u64
        ensures { result ≡ share_rank self count }
    {
        let last = u128::from(count.saturating_sub(1));
        (last * u128::from(self.numerator) / u128::from(self.denominator)) as u64
    }
}
