//! Encodes the name, the form and the offset of a schema's column as words, and decodes them.

ghost use Rattle.std.specs.Prelude.{◌≡◌, ℕ, List, ◌∷◌, ◌++◌, ◌<◌, length, reverse, IfNone, IfOk, IfSome, OnOk};
ghost use Rattle.bsi_digits.specs.Digits.{IsBaseList};
ghost use Rattle.bsi_schema.specs.Columns.{column_at, form_of, IsForm, NamedColumn};
ghost use Rattle.bsi_schema.specs.declared.form.Form.{Form};
ghost use Rattle.bsi_segments.specs.Bytes.{AreBytes};
ghost use Rattle.bsi_segments.specs.Schemas.{column_words, decoded_column, form_words, FitsWords};

use crate::texts::{decode_text, encode_text};
use bsi_bits::NoMemory;
use bsi_digits::Bases;
use bsi_schema::{ColumnSpec, Form, MAX_SLICES, Schema};
use std::alloc::Global;

/// A decoded column.
#[derive(Debug, Drop)]
pub(crate) struct ReadColumn {
    pub(crate) name: Vec<u8>,
    pub(crate) spec: ColumnSpec,
    pub(crate) offset: i64,
}

/// The first word of the form of slices.
const SLICES: u64 = 0;

/// The first word of the form of equality encoded components.
const EQUALITY: u64 = 1;

/// The first word of the form of range encoded components.
const RANGE: u64 = 2;

/// Appends the words of column `c`.
pub(crate) fn encode_column(schema: &Schema, c: u32, out: &mut Vec<u64>) -> Result<(), NoMemory>
    requires { c < length schema.now.columns }
    ensures { OnOk result (out.new.items
        ≡ out.old.items ++ column_words (column_at schema.now.columns c)) }
{
    encode_text(schema.name(c).as_bytes(), out)?;
    encode_form(schema.form(c), out)?;
    out.push(schema.offset(c).cast_unsigned())?;
    Ok(())
}

/// Appends the words of a form.
fn encode_form(form: &Form, out: &mut Vec<u64>) -> Result<(), NoMemory>
    ensures { OnOk result (out.new.items ≡ out.old.items ++ form_words form.now) }
{
    match form {
        Form::Slices(width) => out.extend_from_slice(&[SLICES, u64::from(*width)]),
        Form::Equality(bases) => encode_bases(EQUALITY, bases, out),
        Form::Range(bases) => encode_bases(RANGE, bases, out),
    }
}

/// Appends the first word of a form, how many bases it has, and the bases, least significant first.
fn encode_bases(first: u64, bases: &Bases, out: &mut Vec<u64>) -> Result<(), NoMemory>
    ensures { OnOk result (out.new.items
        ≡ out.old.items ++ (first ∷ length bases.now ∷ bases.now)) }
{
    out.extend_from_slice(&[first, u64::from(bases.len())])?;
    'bases: for i in 0..bases.len() {
        out.push(u64::from(bases.base(i)))?;
    }
    Ok(())
}

/// Makes the column whose words come first, and lends the words after it; or none if there is no such column.
pub(crate) fn decode_column<'a>(
    alloc: Global,
    words: &'a [u64],
) -> Result<Option<(ReadColumn, &'a [u64])>, NoMemory>
    ensures made { IfOk result (λ decoded. IfSome decoded (λ pair.
        words.now ≡ column_words (decoded_column pair.0) ++ pair.1.now)) }
    ensures fits { IfOk result (λ decoded. IfSome decoded (λ pair. FitsWords (decoded_column pair.0))) }
    ensures none { IfOk result (λ decoded. IfNone decoded ((column : NamedColumn) → (rest : List ℕ) →
        AreBytes column.name → IsForm column.form →
        words.now ≡ column_words column ++ rest → ⊥)) }
{
    let Some((name, rest)) = decode_text(alloc, words)? else {
        return Ok(None);
    };
    let Some((spec, rest)) = decode_form(alloc, rest)? else {
        return Ok(None);
    };
    let [offset, rest @ ..] = rest else {
        return Ok(None);
    };
    let offset = offset.cast_signed();
    Ok(Some((ReadColumn { name, spec, offset }, rest)))
}

/// Makes the form whose words come first, and lends the words after it; or none if there is no such form.
fn decode_form<'a>(
    alloc: Global,
    words: &'a [u64],
) -> Result<Option<(ColumnSpec, &'a [u64])>, NoMemory>
    ensures made { IfOk result (λ decoded. IfSome decoded (λ pair.
        words.now ≡ form_words (form_of pair.0) ++ pair.1.now)) }
    ensures none { IfOk result (λ decoded. IfNone decoded ((form : Form) → (rest : List ℕ) →
        IsForm form → words.now ≡ form_words form ++ rest → ⊥)) }
{
    let [kind, count, rest @ ..] = words else {
        return Ok(None);
    };
    if *kind == SLICES && *count <= u64::from(MAX_SLICES) {
        return Ok(Some((ColumnSpec::Slices(*count as u32), rest)));
    }
    if *kind != EQUALITY && *kind != RANGE {
        return Ok(None);
    }
    let Some((bases, rest)) = decode_bases(alloc, *count, rest)? else {
        return Ok(None);
    };
    let spec = if *kind == EQUALITY {
        ColumnSpec::Equality(bases)
    } else {
        ColumnSpec::Range(bases)
    };
    Ok(Some((spec, rest)))
}

/// Makes the list of so many bases that is first, least significant first, and lends the words after it; or none if
/// there is no such list. A false count takes no memory.
fn decode_bases<'a>(
    alloc: Global,
    count: u64,
    words: &'a [u64],
) -> Result<Option<(Vec<u32>, &'a [u64])>, NoMemory>
    ensures made { IfOk result (λ decoded. IfSome decoded (λ pair. (length pair.0.items ≡ count)
        × (words.now ≡ reverse pair.0.items ++ pair.1.now))) }
    ensures none { IfOk result (λ decoded. IfNone decoded ((bases rest : List ℕ) → IsBaseList bases →
        length bases ≡ count → words.now ≡ bases ++ rest → ⊥)) }
{
    if count > words.len() as u64 {
        return Ok(None);
    }
    let (first, rest) = words.split_at(count as usize);
    let Some(mut bases) = narrow_words(alloc, first)? else {
        return Ok(None);
    };
    bases.reverse();
    Ok(Some((bases, rest)))
}

/// Makes the list of these words as numbers of 32 bits, or none if one is past them.
fn narrow_words(alloc: Global, words: &[u64]) -> Result<Option<Vec<u32>>, NoMemory>
    ensures made { IfOk result (λ decoded. IfSome decoded (λ bases. bases.items ≡ words.now)) }
    ensures none { IfOk result (λ decoded. IfNone decoded (IsBaseList words.now → ⊥)) }
{
    let mut bases = Vec::with_capacity(alloc, words.len())?;
    'words: for word in words {
        let Ok(base) = u32::try_from(*word) else {
            return Ok(None);
        };
        bases.push_reserved(base);
    }
    Ok(Some(bases))
}
