//! Relations of the numbers of two columns (`PairRelation`), decided by one binary place after the other, the least
//! significant first; and sums of numbers, place by place (`add_place`).
//!
//! The words of a state have a bit for each row. Where two numbers differ at a place, that place decides over those below
//! it, so one state is enough, and a place is one pass over the words.

ghost use Rattle.std.specs.Prelude.{◌≡◌, ℕ, ◌*◌, ◌<◌, ◌&&◌, ◌||◌, not, length, if◌then◌else◌};
ghost use Rattle.bsi_bits.specs.BitList.{differ};
ghost use Rattle.bsi_bits.specs.Packed.{bit_of};
ghost use Rattle.bsi_digits.specs.Comparisons.{compares};
ghost use Rattle.bsi_slices.specs.PairRelations.{relation_holds, relation_bit_step};

use crate::Op;

/// A relation of a first number to a second.
#[derive(Clone, Copy, Debug, PartialEq, Eq)]
pub enum PairRelation {
    /// It is below it.
    Below,
    /// It is at most it.
    AtMost,
    /// It is another number.
    Unequal,
}

impl PairRelation {
    /// Returns the relation by which a comparison is decided, and whether it holds of the numbers in the relation or of
    /// all others.
    pub fn of(op: Op) -> (PairRelation, bool)
        ensures { (x y : ℕ) → compares op x y
            ≡ (if result.1 then relation_holds result.0 x y else not (relation_holds result.0 x y)) }
    {
        match op {
            Op::Eq => (PairRelation::Unequal, false),
            Op::Ne => (PairRelation::Unequal, true),
            Op::Lt => (PairRelation::Below, true),
            Op::Le => (PairRelation::AtMost, true),
            Op::Gt => (PairRelation::AtMost, false),
            Op::Ge => (PairRelation::Below, false),
        }
    }

    /// Writes the state of numbers of which no place is known.
    pub fn begin(self, state: &mut [u64])
        ensures long { length state.new ≡ length state.old }
        ensures bits { (p : ℕ) → p < 64 * length state.old →
            bit_of state.new p ≡ relation_holds self 0 0 }
    {
        match self {
            PairRelation::AtMost => state.fill(u64::MAX),
            PairRelation::Below | PairRelation::Unequal => state.fill(0),
        }
    }

    /// Compares the next binary place of the numbers in the state.
    pub fn step(self, first: &[u64], second: &[u64], state: &mut [u64])
        requires first { length first.now ≡ length state.old }
        requires second { length second.now ≡ length state.old }
        ensures long { length state.new ≡ length state.old }
        ensures bits { (p : ℕ) → p < 64 * length state.old → bit_of state.new p
            ≡ relation_bit_step self (bit_of first.now p) (bit_of second.now p) (bit_of state.old p) }
    {
        match self {
            PairRelation::Unequal => step_unequal(first, second, state),
            PairRelation::Below | PairRelation::AtMost => step_lower(first, second, state),
        }
    }
}

/// Gives each bit where the two places differ the second place.
fn step_lower(first: &[u64], second: &[u64], state: &mut [u64])
    requires first { length first.now ≡ length state.old }
    requires second { length second.now ≡ length state.old }
    ensures long { length state.new ≡ length state.old }
    ensures bits { (p : ℕ) → p < 64 * length state.old → bit_of state.new p
        ≡ (if differ (bit_of first.now p) (bit_of second.now p) then bit_of second.now p else bit_of
        state.old p) }
{
    // With slices of one length the compiler drops the tests of places, and takes several words at once.
    let len = state.len();
    let (first, second) = (&first[..len], &second[..len]);
    'words: for k in 0..len {
        state[k] ^= (first[k] ^ second[k]) & (state[k] ^ second[k]);
    }
}

/// Sets each bit where the two places differ.
fn step_unequal(first: &[u64], second: &[u64], state: &mut [u64])
    requires first { length first.now ≡ length state.old }
    requires second { length second.now ≡ length state.old }
    ensures long { length state.new ≡ length state.old }
    ensures bits { (p : ℕ) → p < 64 * length state.old → bit_of state.new p
        ≡ (bit_of state.old p || differ (bit_of first.now p) (bit_of second.now p)) }
{
    let len = state.len();
    let (first, second) = (&first[..len], &second[..len]);
    'words: for k in 0..len {
        state[k] |= first[k] ^ second[k];
    }
}

/// Writes a binary place of sums, of the place of the numbers, the carry into it, and that of the addend, and then the
/// carry out of it.
pub fn add_place(digits: &[u64], is_one: bool, carry: &mut [u64], sum: &mut [u64])
    requires digits { length digits.now ≡ length carry.old }
    requires sum { length sum.old ≡ length carry.old }
    ensures long { length carry.new ≡ length carry.old }
    ensures sum { (p : ℕ) → p < 64 * length carry.old → bit_of sum.new p
        ≡ differ (differ (bit_of digits.now p) (bit_of carry.old p)) is_one }
    ensures carry { (p : ℕ) → p < 64 * length carry.old → bit_of carry.new p
        ≡ (if is_one then bit_of digits.now p || bit_of carry.old p else bit_of digits.now p && bit_of
        carry.old p) }
{
    let addend = if is_one { u64::MAX } else { 0 };
    let len = carry.len();
    let (digits, sum) = (&digits[..len], &mut sum[..len]);
    'words: for k in 0..len {
        sum[k] = digits[k] ^ carry[k] ^ addend;
        carry[k] = digits[k] & carry[k] | (digits[k] | carry[k]) & addend;
    }
}
