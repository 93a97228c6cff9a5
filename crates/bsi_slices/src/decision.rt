//! Decides which numbers below a size satisfy a comparison with a constant (`decide`): none, all, or those of a test.
//!
//! Each comes down to `=` or `<=`: `A < v` is `A <= v - 1`, and `A > v` and `A >= v` are complements. A constant that
//! leaves nothing to ask is decided before any number is read.

ghost use Rattle.std.specs.Prelude.{◌≡◌, ℕ, ◌<◌};
ghost use Rattle.bsi_slices.specs.Decisions.{decides, IsBelowSize};
ghost use Rattle.bsi_digits.specs.Comparisons.{compares};
ghost use Rattle.bsi_slices.specs.declared.decision.Decision.TheVariants.{Tested};

use crate::Op;

/// The relation of a number to a constant.
#[derive(Clone, Copy, Debug, PartialEq, Eq)]
pub enum Relation {
    /// Equal to the constant.
    Equal,
    /// At most the constant.
    AtMost,
}

/// A relation to a constant, and the answer that is expected of it.
#[derive(Clone, Copy, Debug, PartialEq, Eq)]
pub struct Test {
    /// The relation.
    pub relation: Relation,
    /// The constant.
    pub constant: u64,
    /// Whether the numbers that pass are those in the relation, or all others.
    pub expected: bool,
}

/// How a comparison with a constant is decided for the numbers below a size.
#[derive(Clone, Copy, Debug, PartialEq, Eq)]
pub enum Decision {
    /// None of them compares so.
    Nothing,
    /// Each of them does.
    Everything,
    /// Those do that pass a test, whose constant is below the size.
    Tested(Test),
}

/// Decides a comparison for the numbers below a size.
pub fn decide(op: Op, constant: u64, size: u64) -> Decision
    ensures decided { (x : ℕ) → x < size → decides result x ≡ compares op x constant }
    ensures below { IsBelowSize result size }
{
    if constant >= size {
        return match op {
            Op::Eq | Op::Gt | Op::Ge => Decision::Nothing,
            Op::Ne | Op::Lt | Op::Le => Decision::Everything,
        };
    }
    match op {
        Op::Eq => decide_by(Relation::Equal, constant, true),
        Op::Ne => decide_by(Relation::Equal, constant, false),
        Op::Le => decide_by(Relation::AtMost, constant, true),
        Op::Gt => decide_by(Relation::AtMost, constant, false),
        Op::Lt if constant == 0 => Decision::Nothing,
        Op::Ge if constant == 0 => Decision::Everything,
        Op::Lt => decide_by(Relation::AtMost, constant - 1, true),
        Op::Ge => decide_by(Relation::AtMost, constant - 1, false),
    }
}

/// Returns the decision for the numbers in a relation to a constant or, unless `expected`, for all other numbers.
fn decide_by(relation: Relation, constant: u64, expected: bool) -> Decision
    ensures { result ≡ Tested
        (record { relation = relation; constant = constant; expected = expected }) }
{
    Decision::Tested(Test {
        relation,
        constant,
        expected,
    })
}
