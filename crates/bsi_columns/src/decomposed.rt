//! A column of numbers that stores the digits of each number under a list of bases, a component a digit (`Decomposed`;
//! Chan and Ioannidis 1998).

ghost use Rattle.std.specs.Prelude.{◌≡◌, ℕ, ◌<◌, List, [], All, length, map, replicate, slice_index, IfOk, IsOk, IsTrue};
ghost use Rattle.bsi_digits.specs.Digits.{digit_of, product};
ghost use Rattle.bsi_columns.specs.Decomposed.{AreDigitLists, Decomposes};
ghost use Rattle.bsi_digits.specs.Orders.{values_at};
ghost use Rattle.bsi_digits.specs.Comparisons.{number_or_zero};
ghost use Rattle.bsi_digits.specs.Totals.{IsGreatestOf, IsLeastOf};

use crate::growth::{clear_each, push_all_digits, push_blocks, push_digits, reserve_each};
use crate::{Column, Encoding, NoMemory, Op};
use bsi_bits::{Bits, MAX_LEN, room_to_make};
use bsi_digits::Bases;
use bsi_slices::{Extreme, NotNull};
use std::alloc::Global;
use std::marker::Model;

mod compare;
mod extremes;
mod narrowing;
mod numbers;
mod related;
mod totals;
mod vectors;

pub(crate) use compare::and_expected;

/// A column of numbers below the product of its bases, which keeps a component for each base.
#[derive(Drop)]
pub struct Decomposed<E: Encoding> {
    bases: Bases,
    components: Vec<E>,
    not_null: NotNull,
    // Neither the bitmap nor a component has less.
    room: u64,
}

// Clauses see the bases, the entries and for how many more there is room.
impl<E: Encoding> Model for Decomposed<E> {
    ghost use Rattle.std.specs.Prelude.{◌≡◌, length, map};
    ghost use Rattle.bsi_columns.specs.Decomposed.{Decomposition, Decomposes, IsRoomy, entries_of};

    ghost Value = { Decomposition };

    ghost view = { λ c. record {
      bases = c.bases;
      entries = entries_of c.bases c.not_null.bits (map E.digits c.components.items);
      room = c.room;
    } };

    ghost invariant = { λ c. Decomposes c.bases c.not_null.bits (map E.digits c.components.items)
        (entries_of c.bases c.not_null.bits (map E.digits c.components.items))
        × (map E.base_of c.components.items ≡ c.bases)
        × IsRoomy (length c.not_null.bits) c.room c.not_null.room
        (map E.room_of c.components.items) };
}

impl<E: Encoding> Decomposed<E> {
    /// Makes a column of no entries under these bases.
    pub fn new(alloc: Global, bases: Bases) -> Result<Decomposed<E>, NoMemory>
        ensures { IfOk result (λ c. (c.bases ≡ bases) × (c.entries ≡ [])) }
    {
        let components = make_each(alloc, &bases)?;
        Ok(Decomposed {
            bases,
            components,
            not_null: NotNull::new(alloc),
            room: 0,
        })
    }

    /// Makes the column of these components, that of the least significant digits first, and of these rows that have a
    /// number. The digits of a row without one are 0. It takes no memory.
    pub fn from_components(bases: Bases, components: Vec<E>, not_null: Bits) -> Decomposed<E>
        requires bases { map E.base_of components.items ≡ bases }
        requires digits { AreDigitLists bases not_null.bits (map E.digits components.items) }
        ensures bases { result.bases ≡ bases }
        ensures digits { Decomposes bases not_null.bits (map E.digits components.items)
            result.entries }
    {
        // The proof takes from this that there are at most 2^32 rows.
        prove!(not_null.len() <= MAX_LEN);
        Decomposed {
            bases,
            components,
            not_null: NotNull::from_bits(not_null),
            room: 0,
        }
    }

    /// Returns the bases. Component `i` has the one at place `i`, and each number is below their product.
    pub fn bases(&self) -> &Bases
        ensures bases { result.now ≡ self.now.bases }
        ensures below { All (λ e. number_or_zero e < product self.now.bases) self.now.entries }
    {
        &self.bases
    }

    /// Returns the component of the digits at place `i`, least significant first. The digit of a null row is 0.
    pub fn component(&self, i: u32) -> &E
        requires { i < length self.now.bases }
        ensures digits { E.digits result.now
            ≡ map (λ e. digit_of self.now.bases (number_or_zero e) i) self.now.entries }
        ensures base { E.base_of result.now ≡ slice_index self.now.bases i }
    {
        &self.components[i as usize]
    }
}

impl<E: Encoding> Column for Decomposed<E> {
    ghost Form = { List ℕ };

    ghost form_of = { λ c. c.bases };

    ghost size_of = { product };

    ghost entries = { λ c. c.entries };

    ghost room_of = { λ c. c.room };

    fn size(&self) -> u64 {
        self.bases.size()
    }

    fn len(&self) -> u64 {
        self.not_null.len()
    }

    fn room(&self) -> u64 {
        self.room
    }

    fn reserve(&mut self, more: u64) -> Result<(), NoMemory> {
        if more <= self.room {
            return Ok(());
        }
        let growth = room_to_make(self.not_null.len(), more);
        self.not_null.reserve(growth)?;
        reserve_each(&mut self.components, growth)?;
        self.room = growth;
        Ok(())
    }

    fn clear(&mut self) {
        let room = self.not_null.len() + self.room;
        clear_each(&mut self.components);
        self.not_null.clear();
        self.room = room;
    }

    fn push_reserved(&mut self, entry: Option<u64>) {
        push_digits(&mut self.components, &self.bases, entry.unwrap_or(0));
        self.not_null.push_reserved(entry.is_some());
        self.room -= 1;
    }

    fn push_block_reserved(&mut self, numbers: &[u64], not_null: u64) {
        push_blocks(&mut self.components, &self.bases, numbers);
        let count = numbers.len() as u64;
        self.not_null.push_word_reserved(not_null, count);
        self.room -= count;
    }

    fn push_all_reserved(&mut self, other: &Self) {
        push_all_digits(&mut self.components, &other.components);
        self.not_null.push_all_reserved(&other.not_null);
        self.room -= other.len();
    }

    fn compare(&self, op: Op, constant: u64) -> Result<Bits, NoMemory> {
        self.select_compared(op, constant)
    }

    fn sum(&self, selection: &Bits) -> u128 {
        self.sum_selected(selection)
    }

    fn ranked(&self, selection: &Bits, rank: u64) -> Result<u64, NoMemory> {
        self.number_of_rank(selection, rank)
    }

    // It passes once over the components, and takes no memory, where the encoding works on spans.
    fn least(&self, selection: &Bits) -> Result<Option<u64>, NoMemory>
        requires { length self.now.entries ≡ length selection.now.bits }
        ensures least { IfOk result (IsLeastOf (values_at selection.now.bits self.now.entries)) }
        ensures succeeds { IsTrue E.works_on_spans → IsOk result }
    {
        self.find_extreme(selection, Extreme::Least)
    }

    // It passes once over the components, and takes no memory, where the encoding works on spans.
    fn greatest(&self, selection: &Bits) -> Result<Option<u64>, NoMemory>
        requires { length self.now.entries ≡ length selection.now.bits }
        ensures greatest { IfOk result (IsGreatestOf (values_at selection.now.bits self.now.entries)) }
        ensures succeeds { IsTrue E.works_on_spans → IsOk result }
    {
        self.find_extreme(selection, Extreme::Greatest)
    }

    fn not_null(&self) -> &Bits {
        self.not_null.bits()
    }

    fn copy(&self) -> Result<Self, NoMemory> {
        Ok(Decomposed {
            bases: self.bases.copy()?,
            components: copy_each(&self.components)?,
            not_null: self.not_null.copy()?,
            room: 0,
        })
    }
}

/// Makes an empty component of each base.
fn make_each<E: Encoding>(alloc: Global, bases: &Bases) -> Result<Vec<E>, NoMemory>
    ensures digits { IfOk result (λ cs. map E.digits cs.items ≡ replicate (length bases.now) []) }
    ensures bases { IfOk result (λ cs. map E.base_of cs.items ≡ bases.now) }
{
    let mut components = Vec::with_capacity(alloc, bases.len() as usize)?;
    for i in 0..bases.len() {
        components.push_reserved(E::make(alloc, bases.base(i))?);
    }
    Ok(components)
}

/// Copies each component.
fn copy_each<E: Encoding>(components: &Vec<E>) -> Result<Vec<E>, NoMemory>
    ensures digits { IfOk result (λ cs. map E.digits cs.items ≡ map E.digits components.now.items) }
    ensures bases { IfOk result (λ cs. map E.base_of cs.items
        ≡ map E.base_of components.now.items) }
{
    let mut copies = Vec::with_capacity(*components.allocator(), components.len())?;
    for component in components {
        copies.push_reserved(component.copy()?);
    }
    Ok(copies)
}
