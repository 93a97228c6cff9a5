//! Encodes a column as the words of its bitmaps: the not-null bitmap, and then each binary place.

ghost use Rattle.std.specs.Prelude.{◌≡◌, ◌++◌, OnOk};
ghost use Rattle.std.specs.List.{flat_map};
ghost use Rattle.bsi_columns.specs.AnyColumns.{any_entries, any_form};
ghost use Rattle.bsi_columns.specs.ComponentPlaces.{digit_bitmaps};
ghost use Rattle.bsi_columns.specs.StoredBitmaps.{bitmaps_by, column_bitmaps, places_under, slice_places};
ghost use Rattle.bsi_segments.specs.Bitmaps.{packed};

use crate::NoMemory;
use bsi_bits::Bits;
use bsi_columns::{AnyColumn, BinaryPlaces, Column, Decomposed, Slices};
use bsi_components::place_count;
use bsi_segments::encode_bits;

/// Appends the words of the bitmaps of a column: the not-null bitmap, and then each binary place, the least first; under
/// bases those of the least significant digits first.
pub(crate) fn encode_column(column: &AnyColumn, words: &mut Vec<u64>) -> Result<(), NoMemory>
    ensures { OnOk result (words.new.items ≡ words.old.items
        ++ flat_map packed (column_bitmaps (any_form column.now) (any_entries column.now))) }
{
    match column {
        AnyColumn::Slices(column) => encode_slices(column, words),
        AnyColumn::Equality(column) => encode_components(column, words),
        AnyColumn::Range(column) => encode_components(column, words),
    }
}

/// Appends the words of the not-null bitmap, and then of each slice, the least place first.
fn encode_slices(column: &Slices, words: &mut Vec<u64>) -> Result<(), NoMemory>
    ensures { OnOk result (words.new.items ≡ words.old.items
        ++ flat_map packed (bitmaps_by (slice_places column.now.width) column.now.entries)) }
{
    encode_bits(column.not_null(), words)?;
    'slices: for k in 0..column.width() {
        encode_bits(column.slice(k), words)?;
    }
    Ok(())
}

/// Appends the words of the not-null bitmap, and then of the binary places of each component, that of the least
/// significant digits first.
fn encode_components<E: BinaryPlaces>(
    column: &Decomposed<E>,
    words: &mut Vec<u64>,
) -> Result<(), NoMemory>
    ensures { OnOk result (words.new.items ≡ words.old.items
        ++ flat_map packed (bitmaps_by (places_under column.now.bases) column.now.entries)) }
{
    encode_bits(column.not_null(), words)?;
    'components: for i in 0..column.bases().len() {
        encode_places(column.component(i), words)?;
    }
    Ok(())
}

/// Appends the words of the binary places of a component's digits, the least first.
fn encode_places<E: BinaryPlaces>(component: &E, words: &mut Vec<u64>) -> Result<(), NoMemory>
    ensures { OnOk result (words.new.items ≡ words.old.items
        ++ flat_map packed (digit_bitmaps (E.base_of component.now) (E.digits component.now))) }
{
    let mut place = Bits::filled(*words.allocator(), component.len(), false)?;
    'places: for k in 0..place_count(component.base()) {
        component.place_into(k, &mut place);
        encode_bits(&place, words)?;
    }
    Ok(())
}
