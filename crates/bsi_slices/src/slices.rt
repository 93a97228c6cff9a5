//! A column as bit slices: one bit vector for each binary place of its numbers (O'Neil and Quass 1997).

ghost use Rattle.std.specs.Prelude.{◌≡◌, ℕ, ◌++◌, ◌∷◌, [], All, ◌<◌, ◌≤◌, ◌^◌, ◌+◌, ◌*◌, ◌==◌, length, map, min, is_some, IfNone, IfOk, IfSome, IsOk, OnOk, OnErr};
ghost use Rattle.std.specs.Int.{bit_at};
ghost use Rattle.bsi_kernels.specs.Nulls.{HasBitOfNull};
ghost use Rattle.bsi_kernels.specs.Places.{max_places};
ghost use Rattle.bsi_bits.specs.BitList.{max_block, max_len, word_count};
ghost use Rattle.bsi_bits.specs.BitLists.{bits_at};
ghost use Rattle.bsi_slices.specs.Spans.{AndsRows};
ghost use Rattle.bsi_digits.specs.Blocks.{block_entries, IsNumberBlock};
ghost use Rattle.bsi_digits.specs.Orders.{values_at};
ghost use Rattle.bsi_digits.specs.Comparisons.{number_or_zero, selects};
ghost use Rattle.bsi_digits.specs.Digits.{max_size};
ghost use Rattle.bsi_slices.specs.Blocks.{AreNumbersFrom};
ghost use Rattle.bsi_slices.specs.Related.{AndsComparedRows};
ghost use Rattle.bsi_slices.specs.Slices.{entries_in, IsSliced};
ghost use Rattle.bsi_digits.specs.Totals.{IsLeastOf, IsGreatestOf};

use crate::column::Column;
use crate::not_null::NotNull;
use crate::transposing::{numbers_by_places, transpose};
use crate::{Extreme, NoMemory, Op};
use bsi_bits::{Bitmaps, Bits, MAX_BLOCK, MAX_LEN};
use bsi_kernels::nulls::are_clear_at_nulls;
use compare::{and_compare, select};
use related::and_compare_columns;
use std::alloc::Global;
use std::marker::Model;

mod compare;
mod extremes;
mod related;
mod totals;

pub use related::ColumnComparison;

/// A column of optional numbers below two to the power of its width. Slice `i` holds binary place `i` of the numbers,
/// and is clear where a row is null.
#[derive(Drop)]
pub struct Slices {
    slices: Bitmaps,
    not_null: NotNull,
}

// Clauses see the width, the list of rows, and for how many more there is room.
impl Model for Slices {
    ghost use Rattle.std.specs.Prelude.{length, min};
    ghost use Rattle.bsi_slices.specs.Slices.{SliceRows, IsSliced, entries_in};

    ghost Value = { SliceRows };

    ghost view = { λ c. record {
      width = length c.slices.vectors;
      entries = entries_in c.not_null.bits c.slices.vectors;
      room = min c.slices.room c.not_null.room;
    } };

    ghost invariant = { λ c. IsSliced c.not_null.bits c.slices.vectors };
}

impl Slices {
    /// Makes an empty column of numbers below two to the power of `w`, which is from 1 to 63.
    pub fn new(alloc: Global, w: u32) -> Result<Slices, NoMemory>
        requires { (1 ≤ w) × (w ≤ max_places) }
        ensures entries { IfOk result (λ c. c.entries ≡ []) }
        ensures width { IfOk result (λ c. c.width ≡ w) }
    {
        let slices = Bitmaps::new(alloc, w as usize)?;
        Ok(Slices {
            slices,
            not_null: NotNull::new(alloc),
        })
    }

    /// Makes the column of these slices, the least place first, and of these rows that have a number, or none if a row
    /// without a number has a bit in a slice. It takes no memory.
    pub fn from_places(places: Vec<Bits>, not_null: Bits) -> Option<Slices>
        requires some { (1 ≤ length places.items) × (length places.items ≤ max_places) }
        requires even { (k : ℕ) → k < length places.items →
            length (bits_at places.items k) ≡ length not_null.bits }
        ensures width { IfSome result (λ c. c.width ≡ length places.items) }
        ensures not_null { IfSome result (λ c. not_null.bits ≡ map is_some c.entries) }
        ensures places { IfSome result (λ c. (k : ℕ) → k < length places.items →
            bits_at places.items k ≡ map (λ e. bit_at (number_or_zero e) k == 1) c.entries) }
        ensures none { IfNone result (HasBitOfNull not_null.bits places.items) }
    {
        if !are_clear_at_nulls(&places, &not_null) {
            return None;
        }
        // The proof takes from this that there are at most 2^32 rows.
        prove!(not_null.len() <= MAX_LEN);
        Some(Slices {
            slices: Bitmaps::from_vectors(places),
            not_null: NotNull::from_bits(not_null),
        })
    }

    /// Returns the number of slices, from 1 to 63. Each number is below two to this power.
    pub fn width(&self) -> u32
        ensures width { result ≡ self.now.width }
        ensures within { (1 ≤ result) × (result ≤ max_places) }
        ensures below { All (λ e. number_or_zero e < 2 ^ self.now.width) self.now.entries }
    {
        self.slices.as_slice().len() as u32
    }

    /// Returns slice `i`: for each row, whether binary place `i` of its number is 1. The bit of a null row is clear.
    pub fn slice(&self, i: u32) -> &Bits
        requires { i < self.now.width }
        ensures { result.now.bits ≡ map (λ e. bit_at (number_or_zero e) i == 1) self.now.entries }
    {
        &self.slices.as_slice()[i as usize]
    }

    /// Writes the numbers of the 64 rows from row `64 * at` on, and 0 for a null. What it writes past the last row is
    /// unspecified. It takes no memory.
    pub fn numbers_into(&self, at: usize, numbers: &mut [u64; MAX_BLOCK])
        requires { at < word_count (length self.now.entries) }
        ensures long { length numbers.new ≡ max_block }
        ensures numbers { AreNumbersFrom self.now.entries (64 * at) numbers.new }
    {
        numbers_by_places(self.slices.as_slice(), at, numbers);
    }

    /// Keeps in a span of words the rows whose number here compares, as `comparison` says, with that of another column
    /// of as many rows. The first word stands for the 64 rows from row `64 * at` on. A row that is null in one of the
    /// two is not kept, nor a bit past the last row. It takes no memory.
    pub fn and_compare_columns(
        &self,
        comparison: ColumnComparison,
        other: &Slices,
        at: usize,
        span: &mut [u64],
    )
        requires more { (comparison.left_addend < max_size) × (comparison.right_addend < max_size) }
        requires within { at + length span.old ≤ word_count (length self.now.entries) }
        requires same { length other.now.entries ≡ length self.now.entries }
        ensures { AndsComparedRows comparison self.now.entries other.now.entries at span.old
            span.new }
    {
        self.not_null.and_assign(at, span);
        other.not_null.and_assign(at, span);
        let (slices, others) = (self.slices.as_slice(), other.slices.as_slice());
        and_compare_columns(slices, comparison, others, at, span);
    }

    /// Keeps in a span of words the rows whose number satisfies the comparison `op` with `constant`, which may be past
    /// the size. The first word stands for the 64 rows from row `64 * at` on. A null row is not kept, nor a bit past
    /// the last row. It takes no memory.
    pub fn and_compare(&self, op: Op, constant: u64, at: usize, span: &mut [u64])
        requires { at + length span.old ≤ word_count (length self.now.entries) }
        ensures { AndsRows (selects op constant) self.now.entries at span.old span.new }
    {
        and_compare(
            self.slices.as_slice(),
            &self.not_null,
            op,
            constant,
            at,
            span,
        )
    }
}

impl Column for Slices {
    ghost Form = { ℕ };

    ghost form_of = { λ c. c.width };

    ghost size_of = { λ width. 2 ^ width };

    ghost entries = { λ c. c.entries };

    ghost room_of = { λ c. c.room };

    fn size(&self) -> u64 {
        1 << self.slices.as_slice().len()
    }

    fn len(&self) -> u64 {
        self.not_null.len()
    }

    fn room(&self) -> u64 {
        self.slices.room().min(self.not_null.room())
    }

    fn reserve(&mut self, more: u64) -> Result<(), NoMemory> {
        reserve_rows(&mut self.slices, &mut self.not_null, more)
    }

    fn clear(&mut self) {
        clear_rows(&mut self.slices, &mut self.not_null);
    }

    fn push_reserved(&mut self, entry: Option<u64>) {
        push_row(&mut self.slices, &mut self.not_null, entry);
    }

    fn push_block_reserved(&mut self, numbers: &[u64], not_null: u64) {
        push_rows(&mut self.slices, &mut self.not_null, numbers, not_null);
    }

    fn push_all_reserved(&mut self, other: &Slices) {
        self.slices.push_all_reserved(&other.slices);
        self.not_null.push_all_reserved(&other.not_null);
        // The proof takes from this that there are at most 2^32 rows.
        prove!(self.not_null.len() <= MAX_LEN);
    }

    fn compare(&self, op: Op, constant: u64) -> Result<Bits, NoMemory> {
        select(
            *self.slices.allocator(),
            self.slices.as_slice(),
            self.not_null.bits(),
            op,
            constant,
        )
    }

    fn sum(&self, selection: &Bits) -> u128 {
        self.sum_selected(selection)
    }

    fn ranked(&self, selection: &Bits, rank: u64) -> Result<u64, NoMemory> {
        self.number_of_rank(selection, rank)
    }

    // It passes once over the slices, and takes no memory.
    fn least(&self, selection: &Bits) -> Result<Option<u64>, NoMemory>
        requires { length self.now.entries ≡ length selection.now.bits }
        ensures least { IfOk result (IsLeastOf (values_at selection.now.bits self.now.entries)) }
        ensures succeeds { IsOk result }
    {
        Ok(self.find_extreme(selection, Extreme::Least))
    }

    // It passes once over the slices, and takes no memory.
    fn greatest(&self, selection: &Bits) -> Result<Option<u64>, NoMemory>
        requires { length self.now.entries ≡ length selection.now.bits }
        ensures greatest { IfOk result (IsGreatestOf (values_at selection.now.bits self.now.entries)) }
        ensures succeeds { IsOk result }
    {
        Ok(self.find_extreme(selection, Extreme::Greatest))
    }

    fn not_null(&self) -> &Bits {
        self.not_null.bits()
    }

    fn copy(&self) -> Result<Slices, NoMemory> {
        let slices = self.slices.copy()?;
        Ok(Slices {
            slices,
            not_null: self.not_null.copy()?,
        })
    }
}

// What follows are functions over the two fields, so that their clauses and proofs speak of these and not of a column.

/// Makes room for `more` further rows. Whatever the result, the rows stay and there is no less room than before. That
/// which has less room grows last, so a refused growth leaves the room as it was.
fn reserve_rows(slices: &mut Bitmaps, not_null: &mut NotNull, more: u64) -> Result<(), NoMemory>
    requires sliced { IsSliced not_null.old.bits slices.old.vectors }
    requires below { length not_null.old.bits + more ≤ max_len }
    ensures sliced { IsSliced not_null.new.bits slices.new.vectors }
    ensures width { length slices.new.vectors ≡ length slices.old.vectors }
    ensures entries { entries_in not_null.new.bits slices.new.vectors
        ≡ entries_in not_null.old.bits slices.old.vectors }
    ensures ok { OnOk result (more ≤ min slices.new.room not_null.new.room) }
    ensures no_less { min slices.old.room not_null.old.room ≤ min slices.new.room not_null.new.room }
    ensures err { OnErr result (min slices.new.room not_null.new.room
        ≡ min slices.old.room not_null.old.room) }
    ensures refused { OnErr result (min slices.new.room not_null.new.room < more) }
    ensures succeeds { more ≤ min slices.old.room not_null.old.room → IsOk result }
{
    if slices.room() < not_null.room() {
        not_null.reserve(more)?;
        slices.reserve(more)
    } else {
        slices.reserve(more)?;
        not_null.reserve(more)
    }
}

/// Removes all rows, and keeps the room.
fn clear_rows(slices: &mut Bitmaps, not_null: &mut NotNull)
    requires sliced { IsSliced not_null.old.bits slices.old.vectors }
    ensures sliced { IsSliced not_null.new.bits slices.new.vectors }
    ensures width { length slices.new.vectors ≡ length slices.old.vectors }
    ensures entries { entries_in not_null.new.bits slices.new.vectors ≡ [] }
    ensures room { length not_null.old.bits + min slices.old.room not_null.old.room
        ≤ min slices.new.room not_null.new.room }
{
    slices.clear();
    not_null.clear();
}

/// Appends a row into room that is already there: each slice gets its binary place of the number, which is 0 if the row
/// is null.
fn push_row(slices: &mut Bitmaps, not_null: &mut NotNull, entry: Option<u64>)
    requires sliced { IsSliced not_null.old.bits slices.old.vectors }
    requires room { 0 < min slices.old.room not_null.old.room }
    requires below { number_or_zero entry < 2 ^ length slices.old.vectors }
    ensures sliced { IsSliced not_null.new.bits slices.new.vectors }
    ensures width { length slices.new.vectors ≡ length slices.old.vectors }
    ensures entries { entries_in not_null.new.bits slices.new.vectors
        ≡ entries_in not_null.old.bits slices.old.vectors ++ entry ∷ [] }
    ensures room { min slices.old.room not_null.old.room ≤ min slices.new.room not_null.new.room + 1 }
{
    let number = entry.unwrap_or(0);
    slices.push_places(number);
    not_null.push_reserved(entry.is_some());
    // The proof takes from this that there are at most 2^32 rows.
    prove!(not_null.len() <= MAX_LEN);
}

/// Appends a block of rows into room that is already there: each slice gets the word of its binary place of the
/// numbers. The word `there` tells which rows have a number.
fn push_rows(slices: &mut Bitmaps, not_null: &mut NotNull, numbers: &[u64], there: u64)
    requires sliced { IsSliced not_null.old.bits slices.old.vectors }
    requires few { length numbers.now ≤ max_block }
    requires block { IsNumberBlock numbers.now there }
    requires room { length numbers.now ≤ min slices.old.room not_null.old.room }
    requires below { All (λ n. n < 2 ^ length slices.old.vectors) numbers.now }
    ensures sliced { IsSliced not_null.new.bits slices.new.vectors }
    ensures width { length slices.new.vectors ≡ length slices.old.vectors }
    ensures entries { entries_in not_null.new.bits slices.new.vectors
        ≡ entries_in not_null.old.bits slices.old.vectors ++ block_entries numbers.now there }
    ensures room { min slices.old.room not_null.old.room
        ≤ min slices.new.room not_null.new.room + length numbers.now }
{
    let mut words = [0; MAX_BLOCK];
    words[..numbers.len()].copy_from_slice(numbers);
    transpose(&mut words);
    let count = numbers.len() as u64;
    slices.push_words(&words[..slices.as_slice().len()], count);
    not_null.push_word_reserved(there, count);
    // The proof takes from this that there are at most 2^32 rows.
    prove!(not_null.len() <= MAX_LEN);
}
