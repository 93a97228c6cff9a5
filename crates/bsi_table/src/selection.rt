//! Selects the rows of a predicate, one span of rows after another.
//!
//! A span is `MAX_SPAN_WORDS` words of bitmaps, or as many as are left, and the rows that they stand for: with
//! shorter ones too little of a bitmap is read before the next. `or` and `not` push the span's words on one stack
//! that grows and shrinks with them, so a level of a predicate takes no more stack than the call. A count narrows,
//! trims and counts one span after the other in the same words, and takes memory for the stack alone.

ghost use Rattle.std.specs.Prelude.{◌≡◌, ℕ, ◌+◌, ◌-◌, ◌≤◌, ◌++◌, bit_or, bit_xor, count_by, drop, false, length, map, take, IfOk, IsFalse, IsOk, OnOk};
ghost use Rattle.bsi_bits.specs.BitList.{max_len, word_count};
ghost use Rattle.bsi_bits.specs.Packed.{bit_of, bits_of, IsPacked};
ghost use Rattle.std.specs.Simd.Lanes.{zip2};
ghost use Rattle.bsi_rows.specs.Answers.{IsConjunction, ReadsAmong};
ghost use Rattle.bsi_rows.specs.Rows.{holds};
ghost use Rattle.bsi_table.specs.Encoded.{rows_in, HaveRows};
ghost use Rattle.bsi_table.specs.Spans.{AreSelected, AreNarrowed};

use crate::{NoMemory, Pred};
use bsi_bits::{Bits, know_fits, lanes};
use bsi_shift::{MAX_SPAN_WORDS, Shifted};
use std::alloc::Global;

/// The most rows of a span. Its words, as many as a column takes at once, stay in the first cache while a predicate goes
/// over them.
const MAX_SPAN_ROWS: u64 = 64 * MAX_SPAN_WORDS as u64;

/// Returns for each of so many rows whether the predicate holds of it. Each column that it reads is there. It goes over
/// the rows span by span, each by the whole predicate. It pushes the words of one span for each `or` and `not` around
/// the operand that it is reading.
pub(crate) fn select_rows(
    alloc: Global,
    columns: &[Shifted],
    rows: u64,
    pred: &Pred,
) -> Result<Bits, NoMemory>
    requires few { rows ≤ max_len }
    requires even { HaveRows columns.now rows }
    requires there { ReadsAmong (length columns.now) pred.now }
    ensures { IfOk result (λ selection. selection.bits ≡ map (holds pred.now) (rows_in columns.now rows)) }
{
    let mut words = Bits::filled(alloc, rows, true)?.into_words();
    narrow_each(alloc, columns, rows, pred, &mut words)?;
    Ok(Bits::from_words(words, rows))
}

/// Returns how many of so many rows the predicate selects. Each column that it reads is there. It goes over the rows as
/// `select_rows` does, but has the words of one span, in its own frame, in place of a bit for each row.
pub(crate) fn count_selected(
    alloc: Global,
    columns: &[Shifted],
    rows: u64,
    pred: &Pred,
) -> Result<u64, NoMemory>
    requires few { rows ≤ max_len }
    requires even { HaveRows columns.now rows }
    requires there { ReadsAmong (length columns.now) pred.now }
    ensures counted { IfOk result (λ selected. selected
        ≡ count_by (λ b. b) (map (holds pred.now) (rows_in columns.now rows))) }
    ensures succeeds { IsConjunction pred.now → IsOk result }
{
    let mut stack = Vec::new(alloc);
    let mut words = [u64::MAX; MAX_SPAN_WORDS];
    let mut selected = 0;
    'spans: for k in 0..rows.div_ceil(MAX_SPAN_ROWS) {
        let here = MAX_SPAN_ROWS.min(rows - MAX_SPAN_ROWS * k);
        let span = &mut words[..here.div_ceil(64) as usize];
        select_span(
            columns,
            rows,
            pred,
            MAX_SPAN_WORDS * k as usize,
            span,
            &mut stack,
        )?;
        selected += count_span(span, here);
    }
    Ok(selected)
}

/// Returns how many of the first `rows` bits of a span are set. Its words are as few as hold them; it clears the
/// bits after them.
fn count_span(span: &mut [u64], rows: u64) -> u64
    requires within { rows ≤ MAX_SPAN_ROWS }
    requires few { length span.old ≡ word_count rows }
    ensures { result ≡ count_by (λ b. b) (bits_of rows span.old) }
{
    trim(span, rows);
    // The proof takes from this call that each word is below 2^64.
    know_fits(span);
    lanes::count(span) as u64
}

/// Clears the bits of a span past the first `rows`.
fn trim(span: &mut [u64], rows: u64)
    requires within { rows ≤ MAX_SPAN_ROWS }
    requires few { length span.old ≡ word_count rows }
    ensures packed { IsPacked rows span.new }
    ensures bits { bits_of rows span.new ≡ bits_of rows span.old }
{
    let used = rows % 64;
    if used != 0 {
        let last = (rows / 64) as usize;
        span[last] &= (1 << used) - 1;
    }
}

/// Keeps the rows of which the predicate holds, in words that stand for all rows.
fn narrow_each(
    alloc: Global,
    columns: &[Shifted],
    rows: u64,
    pred: &Pred,
    words: &mut [u64],
) -> Result<(), NoMemory>
    requires few { rows ≤ max_len }
    requires long { length words.old ≡ word_count rows }
    requires even { HaveRows columns.now rows }
    requires there { ReadsAmong (length columns.now) pred.now }
    ensures { OnOk result (AreNarrowed columns.now rows pred.now 0 words.old words.new) }
{
    let mut stack = Vec::new(alloc);
    let len = words.len();
    'spans: for k in 0..len.div_ceil(MAX_SPAN_WORDS) {
        let at = MAX_SPAN_WORDS * k;
        let span = &mut words[at..len.min(at + MAX_SPAN_WORDS)];
        narrow(columns, rows, pred, at, span, &mut stack)?;
    }
    Ok(())
}

/// Writes in a span of words the rows of which the predicate holds, as `narrow` keeps them in a span of ones.
fn select_span(
    columns: &[Shifted],
    rows: u64,
    pred: &Pred,
    at: usize,
    span: &mut [u64],
    stack: &mut Vec<u64>,
) -> Result<(), NoMemory>
    requires few { length span.old ≤ MAX_SPAN_WORDS }
    requires within { at + length span.old ≤ word_count rows }
    requires even { HaveRows columns.now rows }
    requires there { ReadsAmong (length columns.now) pred.now }
    ensures rows { OnOk result (AreSelected columns.now rows pred.now at span.new) }
    ensures stack { OnOk result (stack.new.items ≡ stack.old.items) }
    ensures succeeds { IsConjunction pred.now → IsOk result }
{
    span.fill(u64::MAX);
    narrow(columns, rows, pred, at, span, stack)
}

/// Keeps in a span of words the rows of which the predicate holds. The first word stands for the 64 rows from row
/// `64 * at` on. It calls itself for each operand of the predicate. What it pushes on the stack it pops again.
fn narrow(
    columns: &[Shifted],
    rows: u64,
    pred: &Pred,
    at: usize,
    span: &mut [u64],
    stack: &mut Vec<u64>,
) -> Result<(), NoMemory>
    requires few { length span.old ≤ MAX_SPAN_WORDS }
    requires within { at + length span.old ≤ word_count rows }
    requires even { HaveRows columns.now rows }
    requires there { ReadsAmong (length columns.now) pred.now }
    ensures rows { OnOk result (AreNarrowed columns.now rows pred.now at span.old span.new) }
    ensures stack { OnOk result (stack.new.items ≡ stack.old.items) }
    ensures succeeds { IsConjunction pred.now → IsOk result }
{
    match pred {
        Pred::All => {}
        Pred::Compare(c, op, constant) => {
            columns[*c as usize].and_compare(*op, *constant, at, span);
        }
        Pred::Columns(first, op, second) => {
            columns[*first as usize].and_compare_columns(*op, &columns[*second as usize], at, span);
        }
        Pred::Null(c) => columns[*c as usize].and_nulls(at, span),
        Pred::Both(first, second) => {
            narrow(columns, rows, first, at, span, stack)?;
            if has_row(span) {
                narrow(columns, rows, second, at, span, stack)?;
            }
        }
        Pred::Either(first, second) => {
            stack.extend_from_slice(span)?;
            narrow(columns, rows, first, at, span, stack)?;
            swap_top(span, stack);
            narrow(columns, rows, second, at, span, stack)?;
            or_top(span, stack);
        }
        Pred::Not(pred) => {
            stack.extend_from_slice(span)?;
            narrow(columns, rows, pred, at, span, stack)?;
            not_top(span, stack);
        }
    }
    Ok(())
}

/// Returns false only if the span has no row.
fn has_row(span: &[u64]) -> bool
    ensures { IsFalse result → (p : ℕ) → bit_of span.now p ≡ false }
{
    // No clause says when it is true: an operand that is narrowed in vain costs time alone.
    span.iter().any(|word| *word != 0)
}

/// Exchanges the span with the top of the stack: as many words, the last ones.
fn swap_top(span: &mut [u64], stack: &mut Vec<u64>)
    requires { length span.old ≤ length stack.old.items }
    ensures span { span.new ≡ drop (length stack.old.items - length span.old) stack.old.items }
    ensures stack { stack.new.items
        ≡ take (length stack.old.items - length span.old) stack.old.items ++ span.old }
{
    let start = stack.len() - span.len();
    span.swap_with_slice(&mut stack[start..]);
}

/// Pops the top of the stack, as many words as the span has, and sets in the span the rows that they have.
fn or_top(span: &mut [u64], stack: &mut Vec<u64>)
    requires { length span.old ≤ length stack.old.items }
    ensures span { span.new
        ≡ zip2 bit_or span.old (drop (length stack.old.items - length span.old) stack.old.items) }
    ensures stack { stack.new.items
        ≡ take (length stack.old.items - length span.old) stack.old.items }
{
    let start = stack.len() - span.len();
    lanes::or(span, &stack[start..]);
    stack.truncate(start);
}

/// Pops the top of the stack, as many words as the span has, and inverts in the span the rows that they have: it had
/// the rows of the top that an operand selects, and has the others afterwards.
fn not_top(span: &mut [u64], stack: &mut Vec<u64>)
    requires { length span.old ≤ length stack.old.items }
    ensures span { span.new
        ≡ zip2 bit_xor span.old
        (drop (length stack.old.items - length span.old) stack.old.items) }
    ensures stack { stack.new.items
        ≡ take (length stack.old.items - length span.old) stack.old.items }
{
    let start = stack.len() - span.len();
    lanes::xor(span, &stack[start..]);
    stack.truncate(start);
}
