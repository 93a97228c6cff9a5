//! Columns of every form as the tests make them, and what the tests ask of them. A refused allocation is tried again.

ghost use Rattle.std.specs.Prelude.{◌≡◌, ◌↔◌, ◌<◌, ◌++◌, ◌∷◌, [], reverse, length, map, IsTrue, All, IfOk, OnOk, OnErr, IsOkUnless, ◌+◌, ◌≤◌};
ghost use Rattle.bsi_bits.specs.BitList.{max_len};
ghost use Rattle.bsi_columns.specs.AnyColumns.{any_entries, any_form};
ghost use Rattle.bsi_digits.specs.Comparisons.{number_or_zero, selects};
ghost use Rattle.bsi_fixtures.specs.Columns.{column_form, AreBases, IsWidth, IsWide};

use crate::NoMemory;
use bsi_bits::Bits;
use bsi_columns::{AnyColumn, Column, Decomposed, Encoding, Op, Slices};
use bsi_digits::Bases;
use bsi_table::{MAX_ROWS, MAX_SLICES};
use std::alloc::Global;

/// The forms of a column, as tests go through them.
#[derive(Clone, Copy, Debug)]
pub enum TestForm {
    /// Slices.
    Slices,
    /// Equality encoded components.
    Equality,
    /// Range encoded components.
    Range,
}

/// Each form, once.
pub const FORMS: [TestForm; 3] = [TestForm::Slices, TestForm::Equality, TestForm::Range];

/// How wide a column is: in slices, and in bases, most significant first.
#[derive(Clone, Copy)]
pub struct Wide<'a> {
    /// How many slices.
    pub width: u32,
    /// The bases.
    pub bases: &'a [u32],
}

/// Why a column was not made, or did not accept an entry.
#[derive(Clone, Copy, Debug, PartialEq, Eq)]
pub enum MakingError {
    /// There is no such column: it has no slice or more than 63, or its bases are refused.
    BadWidth,
    /// The entry of this row is not below the size, or there are 2^32 rows already.
    NotAccepted(u64),
    /// Memory was refused.
    NoMemory,
}

impl From<NoMemory> for MakingError {
    ghost use Rattle.bsi_fixtures.specs.declared.columns.MakingError.TheVariants.{NoMemory as no_memory};

    ghost from_gives = { λ _ e. e ≡ no_memory };

    fn from(_refused: NoMemory) -> MakingError {
        MakingError::NoMemory
    }
}

/// Makes bases of a list as it is written, most significant first, in one call.
fn bases_once(alloc: Global, list: &[u32]) -> Result<Bases, MakingError>
    ensures bases { IfOk result (λ bases. bases ≡ reverse list.now) }
    ensures err { AreBases list.now → IsOkUnless result MakingError.NoMemory }
{
    let written = Vec::from_slice(alloc, list)?;
    Bases::new(written).map_err(|_| MakingError::BadWidth)
}

/// Makes bases of a list as it is written, most significant first.
fn bases(alloc: Global, list: &[u32]) -> Result<Bases, MakingError>
    ensures bases { IfOk result (λ bases. bases ≡ reverse list.now) }
    ensures err { AreBases list.now → IsOkUnless result MakingError.NoMemory }
{
    match bases_once(alloc, list) {
        Err(MakingError::NoMemory) => bases_once(alloc, list),
        made => made,
    }
}

/// Makes a column of so many slices and no rows.
pub fn empty_slices(alloc: Global, width: u32) -> Result<Slices, MakingError>
    ensures entries { IfOk result (λ column. column.entries ≡ []) }
    ensures width { IfOk result (λ column. column.width ≡ width) }
    ensures err { IsWidth width → IsOkUnless result MakingError.NoMemory }
{
    if width == 0 || width > MAX_SLICES {
        return Err(MakingError::BadWidth);
    }
    match Slices::new(alloc, width) {
        Err(_) => Ok(Slices::new(alloc, width)?),
        Ok(column) => Ok(column),
    }
}

/// Makes a column of components under the bases of a list, most significant first, and no rows.
pub fn empty_decomposed<E: Encoding>(
    alloc: Global,
    list: &[u32],
) -> Result<Decomposed<E>, MakingError>
    ensures entries { IfOk result (λ column. column.entries ≡ []) }
    ensures bases { IfOk result (λ column. column.bases ≡ reverse list.now) }
    ensures err { AreBases list.now → IsOkUnless result MakingError.NoMemory }
{
    match Decomposed::<E>::new(alloc, bases(alloc, list)?) {
        Err(_) => Ok(Decomposed::<E>::new(alloc, bases(alloc, list)?)?),
        Ok(column) => Ok(column),
    }
}

/// Makes a column of this form and no rows.
pub fn empty_column(alloc: Global, form: TestForm, wide: Wide) -> Result<AnyColumn, MakingError>
    ensures entries { IfOk result (λ column. any_entries column ≡ []) }
    ensures form { IfOk result (λ column. any_form column ≡ column_form form wide.entry) }
    ensures err { IsWide form wide.entry → IsOkUnless result MakingError.NoMemory }
{
    match form {
        TestForm::Slices => Ok(AnyColumn::Slices(empty_slices(alloc, wide.width)?)),
        TestForm::Equality => Ok(AnyColumn::Equality(empty_decomposed(alloc, wide.bases)?)),
        TestForm::Range => Ok(AnyColumn::Range(empty_decomposed(alloc, wide.bases)?)),
    }
}

/// Appends an entry.
fn push<C: Column>(column: &mut C, entry: Option<u64>) -> Result<(), MakingError>
    ensures pushed { OnOk result (C.entries column.new ≡ C.entries column.old ++ entry ∷ []) }
    ensures form { C.form_of column.new ≡ C.form_of column.old }
    ensures unchanged { OnErr result (C.entries column.new ≡ C.entries column.old) }
    ensures err { length (C.entries column.old) < max_len
        → number_or_zero entry < C.size_of (C.form_of column.old)
        → IsOkUnless result MakingError.NoMemory }
{
    let row = column.len();
    if row == MAX_ROWS || entry.unwrap_or(0) >= column.size() {
        return Err(MakingError::NotAccepted(row));
    }
    if column.reserve_one().is_err() {
        column.reserve_one()?;
    }
    column.push_reserved(entry);
    Ok(())
}

/// Appends entries, one after another.
pub fn append<C: Column>(column: &mut C, entries: &[Option<u64>]) -> Result<(), MakingError>
    ensures entries { OnOk result (C.entries column.new ≡ C.entries column.old ++ entries.now) }
    ensures form { C.form_of column.new ≡ C.form_of column.old }
    ensures err { length (C.entries column.old) + length entries.now ≤ max_len
        → All (λ e. number_or_zero e < C.size_of (C.form_of column.old)) entries.now
        → IsOkUnless result MakingError.NoMemory }
{
    for entry in entries {
        push(column, *entry)?;
    }
    Ok(())
}

/// Returns for each row whether it is a number that satisfies the comparison `op` with `constant`.
pub fn compared<C: Column>(column: &C, op: Op, constant: u64) -> Result<Bits, NoMemory>
    ensures { IfOk result (λ selection. selection.bits
        ≡ map (selects op constant) (C.entries column.now)) }
{
    match column.compare(op, constant) {
        Err(_) => column.compare(op, constant),
        selection => selection,
    }
}

/// Returns whether a vector has these bits and no others.
pub fn has_bits(bits: &Bits, expected: &[bool]) -> bool
    ensures { IsTrue result ↔ (bits.now.bits ≡ expected.now) }
{
    if bits.len() != expected.len() as u64 {
        return false;
    }
    for (place, bit) in expected.iter().enumerate() {
        if bits.get(place as u64) != *bit {
            return false;
        }
    }
    true
}
