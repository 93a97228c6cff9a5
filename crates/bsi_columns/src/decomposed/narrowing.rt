//! Compares one more digit of the rows of a span with that of a constant, chunk by chunk of the span (`narrow_digit`).

ghost use Rattle.std.specs.Prelude.{◌≡◌, ℕ, ◌+◌, ◌*◌, ◌≤◌, ◌<◌, ◌||◌, length, slice_index, IsTrue};
ghost use Rattle.bsi_bits.specs.BitList.{max_len, word_count};
ghost use Rattle.bsi_bits.specs.Packed.{bit_of};
ghost use Rattle.bsi_columns.specs.DigitTests.{relates_step};

use crate::Encoding;
use bsi_slices::Relation;

/// The number of words in a chunk of a span. A component narrows a chunk by all the bitmaps that it reads before it
/// goes on to the next chunk, so that it reads them side by side.
const CHUNK_WORDS: usize = 64;

/// Compares one more digit in the test of a span, chunk by chunk. At the lowest digit it ignores what the span holds.
pub(crate) fn narrow_digit<E: Encoding>(
    component: &E,
    relation: Relation,
    digit: u32,
    is_lowest: bool,
    at: usize,
    span: &mut [u64],
)
    requires spans { IsTrue E.works_on_spans }
    requires below { digit < E.base_of component.now }
    requires within { at + length span.old ≤ word_count (length (E.digits component.now)) }
    ensures { (p : ℕ) → p < 64 * length span.old →
        64 * at + p < length (E.digits component.now) → bit_of span.new p
        ≡ relates_step relation (is_lowest || bit_of span.old p)
        (slice_index (E.digits component.now) (64 * at + p)) digit }
{
    know_rows(component);
    let len = span.len();
    'chunks: for k in 0..len.div_ceil(CHUNK_WORDS) {
        let from = CHUNK_WORDS * k;
        let chunk = &mut span[from..from + CHUNK_WORDS.min(len - from)];
        narrow_chunk(component, relation, digit, is_lowest, at + from, chunk);
    }
}

/// Asks for the length alone: its clause tells a proof that a component has at most 2^32 rows.
fn know_rows<E: Encoding>(component: &E)
    ensures { length (E.digits component.now) ≤ max_len }
{
    let _rows = component.len();
}

/// Compares one more digit in the test of a chunk of a span.
fn narrow_chunk<E: Encoding>(
    component: &E,
    relation: Relation,
    digit: u32,
    is_lowest: bool,
    at: usize,
    span: &mut [u64],
)
    requires spans { IsTrue E.works_on_spans }
    requires below { digit < E.base_of component.now }
    requires within { at + length span.old ≤ word_count (length (E.digits component.now)) }
    ensures { (p : ℕ) → p < 64 * length span.old →
        64 * at + p < length (E.digits component.now) → bit_of span.new p
        ≡ relates_step relation (is_lowest || bit_of span.old p)
        (slice_index (E.digits component.now) (64 * at + p)) digit }
{
    match relation {
        Relation::Equal if is_lowest => component.eq_span_into(digit, at, span),
        Relation::Equal => component.eq_span(digit, at, span),
        Relation::AtMost if is_lowest => component.le_span_into(digit, at, span),
        Relation::AtMost => component.le_span(digit, at, span),
    }
}
