//! A column of whichever form, chosen when the program runs (`AnyColumn`).
//!
//! An index stores its columns as this type, so `and_compare` is no call of the trait `Column`: a user's own column is
//! asked by `compare`.

ghost use Rattle.std.specs.Prelude.{◌≡◌, ◌↔◌, ◌+◌, ◌*◌, ◌<◌, ◌≤◌, is_none, length, IfOk, IsFalse, IsOk, IsTrue};
ghost use Rattle.bsi_bits.specs.BitList.{max_block, word_count};
ghost use Rattle.bsi_digits.specs.Digits.{max_size};
ghost use Rattle.bsi_slices.specs.Blocks.{AreNumbersFrom};
ghost use Rattle.bsi_slices.specs.Related.{AndsComparedRows};
ghost use Rattle.bsi_slices.specs.Spans.{AndsRows};
ghost use Rattle.bsi_columns.specs.AnyColumns.{any_entries, any_form, any_room, size_in_form, AnyForm};
ghost use Rattle.bsi_digits.specs.Orders.{values_at};
ghost use Rattle.bsi_digits.specs.Comparisons.{selects};
ghost use Rattle.bsi_digits.specs.Totals.{IsGreatestOf, IsLeastOf};

use crate::{
    Column, ColumnComparison, Decomposed, EqualityComponent, MAX_SPAN_WORDS, NoMemory, Op,
    RangeComponent, Slices,
};
use bsi_bits::{Bits, MAX_BLOCK};
use bsi_kernels::spans::and_not_assign;

mod related;

/// A column stored in one of the forms. Each call is that of the form.
#[derive(Drop)]
pub enum AnyColumn {
    /// A bit slice for each binary place.
    Slices(Slices),
    /// For each component, a bitmap for each digit, of the rows with it.
    Equality(Decomposed<EqualityComponent>),
    /// For each component, a bitmap for each digit but the greatest, of the rows with at most it.
    Range(Decomposed<RangeComponent>),
}

impl AnyColumn {
    /// Keeps in a span of at most 1,024 words the rows whose number satisfies the comparison `op` with `constant`,
    /// which may be past the size. The first word stands for the 64 rows from row `64 * at` on. A null row is not kept,
    /// nor a bit past the last row. It takes no memory.
    pub fn and_compare(&self, op: Op, constant: u64, at: usize, span: &mut [u64])
        requires few { length span.old ≤ MAX_SPAN_WORDS }
        requires within { at + length span.old ≤ word_count (length (any_entries self.now)) }
        ensures { AndsRows (selects op constant) (any_entries self.now) at span.old span.new }
    {
        match self {
            AnyColumn::Slices(column) => column.and_compare(op, constant, at, span),
            AnyColumn::Equality(column) => column.and_compare(op, constant, at, span),
            AnyColumn::Range(column) => column.and_compare(op, constant, at, span),
        }
    }

    /// Writes the numbers of the 64 rows from row `64 * at` on, and 0 for a null. What it writes past the last row is
    /// unspecified. It takes no memory.
    pub fn numbers_into(&self, at: usize, numbers: &mut [u64; MAX_BLOCK])
        requires { at < word_count (length (any_entries self.now)) }
        ensures long { length numbers.new ≡ max_block }
        ensures numbers { AreNumbersFrom (any_entries self.now) (64 * at) numbers.new }
    {
        match self {
            AnyColumn::Slices(column) => column.numbers_into(at, numbers),
            AnyColumn::Equality(column) => column.numbers_into(at, numbers),
            AnyColumn::Range(column) => column.numbers_into(at, numbers),
        }
    }

    /// Returns whether another column has the same form: as many slices, or the same encoding under the same bases.
    pub fn has_form_of(&self, other: &AnyColumn) -> bool
        ensures { IsTrue result ↔ (any_form other.now ≡ any_form self.now) }
    {
        match (self, other) {
            (AnyColumn::Slices(own), AnyColumn::Slices(others)) => own.width() == others.width(),
            (AnyColumn::Equality(own), AnyColumn::Equality(others)) => {
                own.bases().is_same(others.bases())
            }
            (AnyColumn::Range(own), AnyColumn::Range(others)) => {
                own.bases().is_same(others.bases())
            }
            _ => false,
        }
    }

    /// Keeps in a span of words the rows that are null. The first word stands for the 64 rows from row `64 * at` on.
    /// Bits past the last row stay as they are.
    pub fn and_nulls(&self, at: usize, span: &mut [u64])
        requires within { at + length span.old ≤ word_count (length (any_entries self.now)) }
        ensures { AndsRows is_none (any_entries self.now) at span.old span.new }
    {
        and_not_assign(self.not_null(), at, span);
    }
}

impl Column for AnyColumn {
    ghost Form = { AnyForm };

    ghost form_of = { any_form };

    ghost size_of = { size_in_form };

    ghost entries = { any_entries };

    ghost room_of = { any_room };

    fn size(&self) -> u64 {
        match self {
            AnyColumn::Slices(column) => column.size(),
            AnyColumn::Equality(column) => column.size(),
            AnyColumn::Range(column) => column.size(),
        }
    }

    fn len(&self) -> u64 {
        match self {
            AnyColumn::Slices(column) => column.len(),
            AnyColumn::Equality(column) => column.len(),
            AnyColumn::Range(column) => column.len(),
        }
    }

    fn room(&self) -> u64 {
        match self {
            AnyColumn::Slices(column) => column.room(),
            AnyColumn::Equality(column) => column.room(),
            AnyColumn::Range(column) => column.room(),
        }
    }

    fn reserve(&mut self, more: u64) -> Result<(), NoMemory> {
        match self {
            AnyColumn::Slices(column) => column.reserve(more),
            AnyColumn::Equality(column) => column.reserve(more),
            AnyColumn::Range(column) => column.reserve(more),
        }
    }

    fn clear(&mut self) {
        match self {
            AnyColumn::Slices(column) => column.clear(),
            AnyColumn::Equality(column) => column.clear(),
            AnyColumn::Range(column) => column.clear(),
        }
    }

    fn push_reserved(&mut self, entry: Option<u64>) {
        match self {
            AnyColumn::Slices(column) => column.push_reserved(entry),
            AnyColumn::Equality(column) => column.push_reserved(entry),
            AnyColumn::Range(column) => column.push_reserved(entry),
        }
    }

    fn push_block_reserved(&mut self, numbers: &[u64], not_null: u64) {
        match self {
            AnyColumn::Slices(column) => column.push_block_reserved(numbers, not_null),
            AnyColumn::Equality(column) => column.push_block_reserved(numbers, not_null),
            AnyColumn::Range(column) => column.push_block_reserved(numbers, not_null),
        }
    }

    fn push_all_reserved(&mut self, other: &Self) {
        match (self, other) {
            (AnyColumn::Slices(column), AnyColumn::Slices(more)) => column.push_all_reserved(more),
            (AnyColumn::Equality(column), AnyColumn::Equality(more)) => {
                column.push_all_reserved(more)
            }
            (AnyColumn::Range(column), AnyColumn::Range(more)) => column.push_all_reserved(more),
            // The two are of one form.
            _ => unreachable!(),
        }
    }

    fn compare(&self, op: Op, constant: u64) -> Result<Bits, NoMemory> {
        match self {
            AnyColumn::Slices(column) => column.compare(op, constant),
            AnyColumn::Equality(column) => column.compare(op, constant),
            AnyColumn::Range(column) => column.compare(op, constant),
        }
    }

    fn sum(&self, selection: &Bits) -> u128 {
        match self {
            AnyColumn::Slices(column) => column.sum(selection),
            AnyColumn::Equality(column) => column.sum(selection),
            AnyColumn::Range(column) => column.sum(selection),
        }
    }

    fn ranked(&self, selection: &Bits, rank: u64) -> Result<u64, NoMemory> {
        match self {
            AnyColumn::Slices(column) => column.ranked(selection, rank),
            AnyColumn::Equality(column) => column.ranked(selection, rank),
            AnyColumn::Range(column) => column.ranked(selection, rank),
        }
    }

    fn least(&self, selection: &Bits) -> Result<Option<u64>, NoMemory>
        requires { length (any_entries self.now) ≡ length selection.now.bits }
        ensures least { IfOk result (IsLeastOf (values_at selection.now.bits (any_entries self.now))) }
        ensures succeeds { IsOk result }
    {
        match self {
            AnyColumn::Slices(column) => column.least(selection),
            AnyColumn::Equality(column) => column.least(selection),
            AnyColumn::Range(column) => column.least(selection),
        }
    }

    fn greatest(&self, selection: &Bits) -> Result<Option<u64>, NoMemory>
        requires { length (any_entries self.now) ≡ length selection.now.bits }
        ensures greatest { IfOk result (IsGreatestOf (values_at selection.now.bits (any_entries self.now))) }
        ensures succeeds { IsOk result }
    {
        match self {
            AnyColumn::Slices(column) => column.greatest(selection),
            AnyColumn::Equality(column) => column.greatest(selection),
            AnyColumn::Range(column) => column.greatest(selection),
        }
    }

    fn not_null(&self) -> &Bits {
        match self {
            AnyColumn::Slices(column) => column.not_null(),
            AnyColumn::Equality(column) => column.not_null(),
            AnyColumn::Range(column) => column.not_null(),
        }
    }

    fn copy(&self) -> Result<Self, NoMemory> {
        match self {
            AnyColumn::Slices(column) => Ok(AnyColumn::Slices(column.copy()?)),
            AnyColumn::Equality(column) => Ok(AnyColumn::Equality(column.copy()?)),
            AnyColumn::Range(column) => Ok(AnyColumn::Range(column.copy()?)),
        }
    }
}
