//! A column of whole numbers from an offset on (`Shifted`), stored as the column of the numbers less the offset.

ghost use Rattle.std.specs.Prelude.{◌≡◌, ℕ, pos, ◌+ℤ◌, ◌≤ℤ◌, ◌+◌, ◌<◌, ◌≤◌, [], ◌∷◌, ◌++◌, All, length, map, Some, is_some, nat_lt, ◌↔◌, IsOk, IsTrue, IfOk, OnOk, OnErr};
ghost use Rattle.std.specs.Option.{option_map};
ghost use Rattle.bsi_digits.specs.Digits.{max_end, max_size};
ghost use Rattle.bsi_bits.specs.BitList.{max_block, max_len};
ghost use Rattle.bsi_columns.specs.AnyColumns.{any_entries, any_size};
ghost use Rattle.bsi_digits.specs.Blocks.{offset_entries, IsNumberBlock};
ghost use Rattle.bsi_digits.specs.Offsets.{number_of, IsInRange};
ghost use Rattle.bsi_shift.specs.Shifted.{shifted_entries, shifted_size, shifted_room, IsAlike};

use crate::NoMemory;
use bsi_bits::{Bits, MAX_BLOCK};
use bsi_columns::{AnyColumn, Column};
use std::marker::Model;

mod blocks;
mod compare;
mod totals;

/// A column of optional whole numbers from its offset on, as many as the size of the stored column.
#[derive(Drop)]
pub struct Shifted {
    stored: AnyColumn,
    offset: i64,
    // The size of the stored column, kept so that no call asks which form that column has.
    size: u64,
}

// Clauses see the stored column and the offset, and of these the list of numbers.
impl Model for Shifted {
    ghost use Rattle.bsi_shift.specs.Shifted.{OffsetColumn, IsShifted};

    ghost Value = { OffsetColumn };

    ghost view = { λ c. record { stored = c.stored; offset = c.offset } };

    ghost invariant = { λ c. IsShifted c.stored c.offset c.size };
}

impl Shifted {
    /// Makes a column of the rows of a stored one. Its numbers are those from `offset` on, as many as the size of
    /// `column`, and the last of them is below 2^63. It takes no memory.
    pub fn new(column: AnyColumn, offset: i64) -> Shifted
        requires within { (offset +ℤ pos (any_size column)) ≤ℤ pos max_end }
        ensures { result ≡ record { stored = column; offset = offset } }
    {
        let size = column.size();
        Shifted {
            stored: column,
            offset,
            size,
        }
    }

    /// Returns the offset, the least number that an entry may be.
    pub fn offset(&self) -> i64
        ensures { result ≡ self.now.offset }
    {
        self.offset
    }

    /// Returns the stored column, of the numbers less the offset.
    pub fn stored(&self) -> &AnyColumn
        ensures { result.now ≡ self.now.stored }
    {
        &self.stored
    }

    /// Returns how many numbers an entry may be, from the offset on, at most 2^63.
    pub fn size(&self) -> u64
        ensures size { result ≡ shifted_size self.now }
        ensures within { (2 ≤ result) × (result ≤ max_size) }
        ensures range { All (IsInRange self.now.offset (shifted_size self.now))
            (shifted_entries self.now) }
    {
        self.size
    }

    /// Returns the number of rows, at most 2^32.
    pub fn len(&self) -> u64
        ensures len { result ≡ length (shifted_entries self.now) }
        ensures within { result ≤ max_len }
    {
        self.stored.len()
    }

    /// Returns whether there is no row.
    pub fn is_empty(&self) -> bool
        ensures { IsTrue result ↔ (shifted_entries self.now ≡ []) }
    {
        self.len() == 0
    }

    /// Returns how many more entries there is room for: to append these takes no memory.
    pub fn room(&self) -> u64
        ensures room { result ≡ shifted_room self.now }
        ensures within { length (shifted_entries self.now) + result ≤ max_len }
    {
        self.stored.room()
    }

    /// Makes room for `more` further entries. Whatever the result, the entries stay and there is no less room than
    /// before. If it is refused, the room is as it was. It takes memory only if there is not enough room already.
    pub fn reserve(&mut self, more: u64) -> Result<(), NoMemory>
        requires { length (shifted_entries self.old) + more ≤ max_len }
        ensures entries { shifted_entries self.new ≡ shifted_entries self.old }
        ensures alike { IsAlike self.old self.new }
        ensures ok { OnOk result (more ≤ shifted_room self.new) }
        ensures no_less { shifted_room self.old ≤ shifted_room self.new }
        ensures err { OnErr result (shifted_room self.new ≡ shifted_room self.old) }
        ensures refused { OnErr result (shifted_room self.new < more) }
        ensures succeeds { more ≤ shifted_room self.old → IsOk result }
    {
        self.stored.reserve(more)
    }

    /// Removes all entries. It takes no memory and keeps the room.
    pub fn clear(&mut self)
        ensures entries { shifted_entries self.new ≡ [] }
        ensures alike { IsAlike self.old self.new }
        ensures room { length (shifted_entries self.old) + shifted_room self.old
            ≤ shifted_room self.new }
    {
        self.stored.clear();
    }

    /// Returns whether there is room for one more entry: to append it takes no memory.
    pub fn has_room(&self) -> bool
        ensures { result ≡ nat_lt 0 (shifted_room self.now) }
    {
        self.stored.has_room()
    }

    /// Makes room for one more entry, as `reserve` does for many.
    pub fn reserve_one(&mut self) -> Result<(), NoMemory>
        requires { length (shifted_entries self.old) < max_len }
        ensures entries { shifted_entries self.new ≡ shifted_entries self.old }
        ensures alike { IsAlike self.old self.new }
        ensures ok { OnOk result (0 < shifted_room self.new) }
        ensures no_less { shifted_room self.old ≤ shifted_room self.new }
        ensures err { OnErr result (shifted_room self.new ≡ shifted_room self.old) }
        ensures succeeds { 0 < shifted_room self.old → IsOk result }
    {
        self.stored.reserve_one()
    }

    /// Appends a null, or a number from the offset on that is below the sum of the offset and the size, into room that
    /// is already there.
    pub fn push_reserved(&mut self, entry: Option<i64>)
        requires room { 0 < shifted_room self.old }
        requires range { IsInRange self.old.offset (shifted_size self.old) entry }
        ensures entries { shifted_entries self.new ≡ shifted_entries self.old ++ entry ∷ [] }
        ensures alike { IsAlike self.old self.new }
        ensures room { shifted_room self.old ≤ shifted_room self.new + 1 }
    {
        self.stored.push_reserved(stored_from(self.offset, entry));
    }

    /// Appends a block of at most 64 entries into room that is already there. Bit `r` of the word `not_null` tells
    /// whether entry `r` is a number, as `push_reserved` takes it: `offset` and number `r`, which is 0 for a null. No bit
    /// past the last entry is set. Where `offset` is the column's own, the numbers go in as they are.
    pub fn push_block_reserved(&mut self, offset: i64, numbers: &[u64], not_null: u64)
        requires few { length numbers.now ≤ max_block }
        requires block { IsNumberBlock numbers.now not_null }
        requires room { length numbers.now ≤ shifted_room self.old }
        requires range { All (IsInRange self.old.offset (shifted_size self.old))
            (offset_entries offset numbers.now not_null) }
        ensures entries { shifted_entries self.new
            ≡ shifted_entries self.old ++ offset_entries offset numbers.now not_null }
        ensures alike { IsAlike self.old self.new }
        ensures room { shifted_room self.old ≤ shifted_room self.new + length numbers.now }
    {
        if offset == self.offset {
            self.stored.push_block_reserved(numbers, not_null);
            return;
        }
        let mut stored = [0; MAX_BLOCK];
        let stored = &mut stored[..numbers.len()];
        move_block(offset, numbers, not_null, self.offset, stored);
        self.stored.push_block_reserved(stored, not_null);
    }

    /// Appends all entries of another column of the same offset and form, in their order, into room that is already
    /// there.
    pub fn push_all_reserved(&mut self, other: &Shifted)
        requires alike { IsAlike self.old other.now }
        requires room { length (shifted_entries other.now) ≤ shifted_room self.old }
        ensures entries { shifted_entries self.new
            ≡ shifted_entries self.old ++ shifted_entries other.now }
        ensures alike { IsAlike self.old self.new }
        ensures room { shifted_room self.old
            ≤ shifted_room self.new + length (shifted_entries other.now) }
    {
        self.stored.push_all_reserved(&other.stored);
    }

    /// Returns whether another column has the same offset and the same form.
    pub fn is_alike(&self, other: &Shifted) -> bool
        ensures { IsTrue result ↔ IsAlike self.now other.now }
    {
        self.offset == other.offset && self.stored.has_form_of(&other.stored)
    }

    /// Returns the not-null bitmap.
    pub fn not_null(&self) -> &Bits
        ensures { result.now.bits ≡ map is_some (shifted_entries self.now) }
    {
        self.stored.not_null()
    }

    /// Makes a second column of the same entries, in the same form.
    pub fn copy(&self) -> Result<Shifted, NoMemory>
        ensures entries { IfOk result (λ c. shifted_entries c ≡ shifted_entries self.now) }
        ensures alike { IfOk result (IsAlike self.now) }
    {
        Ok(Shifted {
            stored: self.stored.copy()?,
            offset: self.offset,
            size: self.size,
        })
    }
}

/// Returns what is stored of an entry that is not below the offset: its number less the offset, or a null.
fn stored_from(offset: i64, entry: Option<i64>) -> Option<u64>
    requires { IsInRange offset max_size entry }
    ensures { option_map (number_of offset) result ≡ entry }
{
    let number = entry?;
    Some((number - offset) as u64)
}

/// Writes what is stored from the offset `to` on of a block of entries whose numbers stand less the offset `from`.
fn move_block(from: i64, numbers: &[u64], not_null: u64, to: i64, stored: &mut [u64])
    requires few { length numbers.now ≤ max_block }
    requires block { IsNumberBlock numbers.now not_null }
    requires range { All (IsInRange to max_size) (offset_entries from numbers.now not_null) }
    requires same { length stored.old ≡ length numbers.now }
    ensures block { IsNumberBlock stored.new not_null }
    ensures entries { offset_entries to stored.new not_null
        ≡ offset_entries from numbers.now not_null }
{
    'entries: for (r, number) in numbers.iter().enumerate() {
        stored[r] = if not_null >> r & 1 == 1 {
            moved(from, *number, to)
        } else {
            0
        };
    }
}

/// Returns what is stored from the offset `to` on of a number that stands less the offset `from`.
fn moved(from: i64, number: u64, to: i64) -> u64
    requires { IsInRange to max_size (Some (number_of from number)) }
    ensures { number_of to result ≡ number_of from number }
{
    (i128::from(from) - i128::from(to) + i128::from(number)) as u64
}
