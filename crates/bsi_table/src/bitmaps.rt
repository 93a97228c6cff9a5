//! Makes a column of an index from bitmaps, as a saved index has them, and counts the bitmaps of a form.

ghost use Rattle.std.specs.Prelude.{◌≡◌, ℕ, ◌+◌, ◌<◌, All, length, IfNone, IfOk, IfSome};
ghost use Rattle.bsi_bits.specs.BitLists.{bits_at};
ghost use Rattle.bsi_columns.specs.AnyColumns.{any_entries};
ghost use Rattle.bsi_columns.specs.StoredBitmaps.{bits_each, column_bitmaps, form_places, HaveNoEntriesBelow};
ghost use Rattle.bsi_schema.specs.Columns.{column_at, size_in, IsForm};
ghost use Rattle.bsi_shift.specs.Shifted.{shifted_entries};
ghost use Rattle.bsi_table.specs.Bitmaps.{bitmap_count, entries_bitmaps, HaveNoEntries};
ghost use Rattle.bsi_table.specs.Encoded.{encoded_form, IsInForm, Encodes};

use crate::{Form, NoMemory, Schema};
use bsi_bits::Bits;
use bsi_columns::{AnyColumn, Decomposed, count_places, slices_from_bitmaps};
use bsi_shift::Shifted;

/// Returns how many bitmaps a column of this form has: the not-null bitmap, and one for each binary place.
pub fn count_bitmaps(form: &Form) -> usize
    requires { IsForm form.now }
    ensures { result ≡ bitmap_count form.now }
{
    match form {
        Form::Slices(width) => 1 + *width as usize,
        Form::Equality(bases) | Form::Range(bases) => 1 + count_places(bases),
    }
}

/// Makes column `c` of a schema of its bitmaps, or none if no entries that it accepts have them. The not-null
/// bitmap comes first, and then each binary place, the least first.
pub fn column_from_bitmaps(
    schema: &Schema,
    c: u32,
    bitmaps: Vec<Bits>,
) -> Result<Option<Shifted>, NoMemory>
    requires there { c < length schema.now.columns }
    requires count { length bitmaps.items ≡ bitmap_count (column_at schema.now.columns c).form }
    requires even { (j : ℕ) → j < length bitmaps.items →
        length (bits_at bitmaps.items j) ≡ length (bits_at bitmaps.items 0) }
    ensures encodes { IfOk result (λ made. IfSome made (λ column.
        Encodes (column_at schema.now.columns c) column (length (bits_at bitmaps.items 0)))) }
    ensures bitmaps { IfOk result (λ made. IfSome made (λ column.
        entries_bitmaps (column_at schema.now.columns c) (shifted_entries column)
        ≡ bits_each bitmaps.items)) }
    ensures none { IfOk result (λ made. IfNone made
        (HaveNoEntries (column_at schema.now.columns c) (bits_each bitmaps.items))) }
{
    let Some(stored) = stored_from_bitmaps(schema.form(c), bitmaps)? else {
        return Ok(None);
    };
    let column = Shifted::new(stored, schema.offset(c));
    // The proof takes from this that each number is in range.
    prove!(column.size() > 0);
    Ok(Some(column))
}

/// Makes a stored column of its bitmaps, or none if no numbers below its size have them.
fn stored_from_bitmaps(form: &Form, bitmaps: Vec<Bits>) -> Result<Option<AnyColumn>, NoMemory>
    requires form { IsForm form.now }
    requires count { length bitmaps.items ≡ bitmap_count form.now }
    requires even { (j : ℕ) → j < length bitmaps.items →
        length (bits_at bitmaps.items j) ≡ length (bits_at bitmaps.items 0) }
    ensures form { IfOk result (λ made. IfSome made (IsInForm form.now)) }
    ensures bitmaps { IfOk result (λ made. IfSome made (λ column.
        column_bitmaps (encoded_form form.now) (any_entries column) ≡ bits_each bitmaps.items)) }
    ensures none { IfOk result (λ made. IfNone made
        (HaveNoEntriesBelow (form_places (encoded_form form.now)) (size_in form.now)
        (bits_each bitmaps.items))) }
{
    match form {
        Form::Slices(width) => {
            let column = slices_from_bitmaps(*width, bitmaps);
            Ok(column.map(AnyColumn::Slices))
        }
        Form::Equality(bases) => {
            let column = Decomposed::from_bitmaps(bases.copy()?, bitmaps)?;
            Ok(column.map(AnyColumn::Equality))
        }
        Form::Range(bases) => {
            let column = Decomposed::from_bitmaps(bases.copy()?, bitmaps)?;
            Ok(column.map(AnyColumn::Range))
        }
    }
}
