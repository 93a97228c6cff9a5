//! Comparisons of whole numbers with a constant, as comparisons of the stored numbers; and which rows are null.
//!
//! A constant less the offset is below 0, or a number of 64 bits, or past them. Below 0, `=`, `<` and `<=` ask the
//! stored column for `< 0` and the others for `>= 0`. Past 64 bits the greatest constant stands for it, because each
//! stored number is below 2^63.

ghost use Rattle.std.specs.Prelude.{◌≡◌, ℕ, ℤ, ◌<ℤ◌, ◌+◌, ◌<◌, ◌≤◌, length, map, is_none, IfOk};
ghost use Rattle.bsi_digits.specs.Digits.{max_size};
ghost use Rattle.bsi_bits.specs.BitList.{word_count};
ghost use Rattle.bsi_slices.specs.Spans.{AndsRows};
ghost use Rattle.bsi_digits.specs.Offsets.{number_of};
ghost use Rattle.bsi_digits.specs.Orders.{compares_by};
ghost use Rattle.bsi_digits.specs.Comparisons.{number_order};
ghost use Rattle.bsi_digits.specs.WholeNumbers.{signed_order, signed_selects};
ghost use Rattle.bsi_shift.specs.Shifted.{shifted_entries};

use crate::{NoMemory, Shifted};
use bsi_bits::Bits;
use bsi_columns::{Column, MAX_SPAN_WORDS, Op};

/// A comparison of the stored numbers with a constant.
#[derive(Clone, Copy)]
struct Comparison {
    op: Op,
    constant: u64,
}

impl Shifted {
    /// Returns for each row whether it is a number that satisfies the comparison `op` with `constant`, which may be any
    /// number. A null row is never selected. The answer takes memory, a bit for each row.
    pub fn compare(&self, op: Op, constant: i128) -> Result<Bits, NoMemory>
        ensures { IfOk result (λ b. b.bits
            ≡ map (signed_selects op constant) (shifted_entries self.now)) }
    {
        let comparison = stored_comparison(op, constant, self.offset);
        self.stored.compare(comparison.op, comparison.constant)
    }

    /// Writes for each row whether it is null.
    pub fn nulls_into(&self, out: &mut Bits)
        requires { length (shifted_entries self.now) ≡ length out.old.bits }
        ensures bits { out.new.bits ≡ map is_none (shifted_entries self.now) }
        ensures room { out.new.room ≡ out.old.room }
    {
        self.stored.nulls_into(out);
    }

    /// Keeps in a span of at most 1,024 words the rows whose number satisfies the comparison `op` with `constant`,
    /// which may be any number. The first word stands for the 64 rows from row `64 * at` on. A null row is not kept,
    /// nor a bit past the last row. It takes no memory.
    pub fn and_compare(&self, op: Op, constant: i128, at: usize, span: &mut [u64])
        requires few { length span.old ≤ MAX_SPAN_WORDS }
        requires within { at + length span.old ≤ word_count (length (shifted_entries self.now)) }
        ensures { AndsRows
            (signed_selects op constant) (shifted_entries self.now) at span.old span.new }
    {
        let comparison = stored_comparison(op, constant, self.offset);
        self.stored
            .and_compare(comparison.op, comparison.constant, at, span);
    }

    /// Keeps in a span of words the rows that are null. The first word stands for the 64 rows from row `64 * at` on.
    /// Bits past the last row stay as they are. It takes no memory.
    pub fn and_nulls(&self, at: usize, span: &mut [u64])
        requires { at + length span.old ≤ word_count (length (shifted_entries self.now)) }
        ensures { AndsRows is_none (shifted_entries self.now) at span.old span.new }
    {
        self.stored.and_nulls(at, span);
    }
}

/// Returns the comparison of stored numbers that selects the same rows as `op` does with `constant`: a number is stored
/// less the offset.
fn stored_comparison(op: Op, constant: i128, offset: i64) -> Comparison
    ensures { (n : ℕ) → n < max_size →
        compares_by number_order result.op n result.constant
        ≡ compares_by signed_order op (number_of offset n) constant }
{
    let above = constant.saturating_sub(i128::from(offset));
    if above < 0 {
        let op = below_all(op);
        return Comparison { op, constant: 0 };
    }
    let constant = u64::try_from(above).unwrap_or(u64::MAX);
    Comparison { op, constant }
}

/// Returns the comparison with 0 that selects all stored numbers or none, as `op` does with a constant below each
/// number.
fn below_all(op: Op) -> Op
    ensures { (n : ℕ) → (x constant : ℤ) → constant <ℤ x →
        compares_by number_order result n 0 ≡ compares_by signed_order op x constant }
{
    match op {
        Op::Eq | Op::Lt | Op::Le => Op::Lt,
        Op::Ne | Op::Gt | Op::Ge => Op::Ge,
    }
}
