//! How many bytes the rows of an index take (`index_bytes`), by its schema, its feeders and how many rows there are.

ghost use Rattle.std.specs.Prelude.{◌≡◌, ◌≤◌, ◌*◌, length, sum_by};
ghost use Rattle.bsi_digits.specs.Digits.{IsBase};
ghost use Rattle.bsi_origins.specs.Origins.{tally_count, tally_len};
ghost use Rattle.bsi_schema.specs.Columns.{IsForm};
ghost use Rattle.bsi_table.specs.Index.{table_of};
ghost use Rattle.bsi_ffi.specs.Memory.{index_bytes, stored_bitmaps, stored_digit_bitmaps};

use bsi_components::stored_places;
use bsi_digits::Bases;
use bsi_table::{Form, Index, Schema};

/// The number of rows from one count by feeder to the next.
const CHUNK_ROWS: u64 = 512;

/// Returns how many bytes the rows of the index take. Reserved memory comes on top.
pub(crate) fn index_bytes(index: &Index) -> u64
    ensures { result ≡ index_bytes (table_of index.now) }
{
    let rows = index.len();
    // The proof takes from this that there are at most 2^32 rows.
    prove!(rows <= index.limit());
    let words = rows.div_ceil(64);
    8 * words * count_bitmaps(index.schema()) + rows + tally_bytes(index.feeders(), rows)
}

/// Returns how many bytes the counts by feeder take.
fn tally_bytes(feeders: u32, rows: u64) -> u64
    requires { (feeders ≤ 64) × (rows ≤ 4294967296) }
    ensures bytes { result ≡ 4 * tally_len feeders * tally_count rows }
    ensures few { result ≤ 4294967296 }
{
    if feeders <= 1 {
        return 0;
    }
    4 * u64::from(feeders) * rows.div_ceil(CHUNK_ROWS)
}

/// Returns how many bitmaps the columns of a schema have.
fn count_bitmaps(schema: &Schema) -> u64
    ensures count { result ≡ sum_by (λ column. stored_bitmaps column.form) schema.now.columns }
    ensures few { result ≤ 65536 * 64 }
{
    let mut count = 0;
    'columns: for c in 0..schema.columns() {
        count += stored_bitmaps(schema.form(c));
    }
    count
}

/// Returns how many bitmaps a column of this form has.
fn stored_bitmaps(form: &Form) -> u64
    requires { IsForm form.now }
    ensures count { result ≡ stored_bitmaps form.now }
    ensures few { result ≤ 65536 }
{
    match form {
        Form::Slices(width) => 1 + u64::from(*width),
        Form::Equality(bases) => 1 + count_digits(bases, false),
        Form::Range(bases) => 1 + count_digits(bases, true),
    }
}

/// Returns how many bitmaps store the digits below these bases.
fn count_digits(bases: &Bases, is_range: bool) -> u64
    ensures count { result ≡ sum_by (stored_digit_bitmaps is_range) bases.now }
    ensures few { result ≤ 65535 }
{
    let mut count = 0;
    'bases: for i in 0..bases.len() {
        count += stored_digit_bitmaps(bases.base(i), is_range);
    }
    count
}

/// Returns how many bitmaps store the digits below a base.
fn stored_digit_bitmaps(base: u32, is_range: bool) -> u64
    requires { IsBase base }
    ensures count { result ≡ stored_digit_bitmaps is_range base }
    ensures few { result ≤ 1040 }
{
    let own = if is_range || base == 2 {
        base - 1
    } else {
        base
    };
    u64::from(own) + stored_places(base) as u64
}
