//! The evaluator of comparisons with a constant, digit by digit: RangeEval-Opt (Chan and Ioannidis 1998).
//!
//! It reads digits only where the constant alone does not decide. The rows in the relation are narrowed by the not-null
//! bitmap, so that a complement selects no null.
//!
//! A span of 1,024 words is written by the lowest component, narrowed by each further one, complemented if needed, and
//! cut with the not-null bitmap. So each bitmap that the constant needs is read once, the result is written once, and
//! nothing else is as long as the column. An encoding without calls on spans works on whole vectors, with one vector
//! more.

ghost use Rattle.std.specs.Prelude.{◌≡◌, ℕ, ◌+◌, ◌*◌, ◌≤◌, ◌<◌, ◌&&◌, None, false, length, map, slice_index_or, IfOk, IsTrue};
ghost use Rattle.bsi_bits.specs.BitList.{word_count};
ghost use Rattle.bsi_bits.specs.Packed.{bit_of};
ghost use Rattle.bsi_digits.specs.Digits.{product};
ghost use Rattle.bsi_digits.specs.Comparisons.{number_or_zero, selects};
ghost use Rattle.bsi_columns.specs.DigitTests.{passes_entry};
ghost use Rattle.bsi_slices.specs.Spans.{AndsRows};
ghost use Rattle.bsi_slices.specs.Decisions.{as_expected, relates};

use crate::decomposed::Decomposed;
use crate::decomposed::narrowing::narrow_digit;
use crate::{Encoding, NoMemory, Op};
use bsi_bits::{Bits, know_fits, lanes};
use bsi_kernels::spans::{MAX_SPAN_WORDS, flip};
use bsi_slices::{Decision, Test, decide};

impl<E: Encoding> Decomposed<E> {
    /// Returns the rows whose number satisfies the comparison `op` with `constant`. It reads no component if the answer
    /// is known beforehand.
    pub(crate) fn select_compared(&self, op: Op, constant: u64) -> Result<Bits, NoMemory>
        ensures { IfOk result (λ b. b.bits ≡ map (selects op constant) self.now.entries) }
    {
        match decide(op, constant, self.bases.size()) {
            Decision::Nothing => {
                Bits::filled(*self.components.allocator(), self.not_null.len(), false)
            }
            Decision::Everything => self.not_null.bits().copy(),
            Decision::Tested(test) => self.select(test),
        }
    }

    /// Keeps in a span of at most 1,024 words the rows whose number satisfies the comparison `op` with `constant`,
    /// which may be past the size. The first word stands for the 64 rows from row `64 * at` on. A null row is not kept,
    /// nor a bit past the last row. It takes no memory. The encoding works on spans.
    pub fn and_compare(&self, op: Op, constant: u64, at: usize, span: &mut [u64])
        requires spans { IsTrue E.works_on_spans }
        requires few { length span.old ≤ MAX_SPAN_WORDS }
        requires within { at + length span.old ≤ word_count (length self.now.entries) }
        ensures { AndsRows (selects op constant) self.now.entries at span.old span.new }
    {
        match decide(op, constant, self.bases.size()) {
            Decision::Nothing => span.fill(0),
            Decision::Everything => self.not_null.and_assign(at, span),
            Decision::Tested(test) => self.and_test(test, at, span),
        }
    }

    /// Keeps in a span the rows that pass a test, whose constant is below the size.
    fn and_test(&self, test: Test, at: usize, span: &mut [u64])
        requires spans { IsTrue E.works_on_spans }
        requires below { test.constant < product self.now.bases }
        requires few { length span.old ≤ MAX_SPAN_WORDS }
        requires within { at + length span.old ≤ word_count (length self.now.entries) }
        ensures { AndsRows (passes_entry test) self.now.entries at span.old span.new }
    {
        let mut buffer = [0; MAX_SPAN_WORDS];
        let selection = &mut buffer[..span.len()];
        self.find_span(test, at, selection);
        and_expected(selection, test.expected, span);
        self.not_null.and_assign(at, span);
    }

    /// Returns the rows that pass a test, whose constant is below the size.
    fn select(&self, test: Test) -> Result<Bits, NoMemory>
        requires { test.constant < product self.now.bases }
        ensures { IfOk result (λ b. b.bits ≡ map (passes_entry test) self.now.entries) }
    {
        if E::on_spans() {
            let words = self.select_words(test)?;
            Ok(Bits::from_words(words, self.not_null.len()))
        } else {
            let selection = self.not_null.bits().copy()?;
            self.select_vectors(test, selection)
        }
    }

    /// Returns the words of the rows that pass a test.
    fn select_words(&self, test: Test) -> Result<Vec<u64>, NoMemory>
        requires spans { IsTrue E.works_on_spans }
        requires below { test.constant < product self.now.bases }
        ensures few { IfOk result (λ words. length words.items
            ≡ word_count (length self.now.entries)) }
        ensures bits { IfOk result (λ words. (p : ℕ) → p < length self.now.entries →
            bit_of words.items p ≡ slice_index_or (map (passes_entry test) self.now.entries) p false) }
    {
        let len = self.not_null.bits().words().len();
        let mut words = Vec::with_capacity(*self.components.allocator(), len)?;
        let mut buffer = [0; MAX_SPAN_WORDS];
        for k in 0..len.div_ceil(MAX_SPAN_WORDS) {
            let at = MAX_SPAN_WORDS * k;
            let span = &mut buffer[..MAX_SPAN_WORDS.min(len - at)];
            self.select_span(test, at, span);
            words.extend_from_slice(span)?;
        }
        Ok(words)
    }

    /// Writes in a span the rows that pass a test. The first word stands for the 64 rows from row `64 * at` on.
    fn select_span(&self, test: Test, at: usize, span: &mut [u64])
        requires spans { IsTrue E.works_on_spans }
        requires below { test.constant < product self.now.bases }
        requires within { at + length span.old ≤ word_count (length self.now.entries) }
        ensures { (p : ℕ) → p < 64 * length span.old →
            64 * at + p < length self.now.entries → bit_of span.new p
            ≡ slice_index_or (map (passes_entry test) self.now.entries) (64 * at + p) false }
    {
        self.find_span(test, at, span);
        if !test.expected {
            flip(span);
        }
        self.not_null.and_assign(at, span);
    }

    /// Writes in a span the rows whose number is in the test's relation to the constant, be that expected or not. A
    /// null row counts as 0.
    fn find_span(&self, test: Test, at: usize, span: &mut [u64])
        requires spans { IsTrue E.works_on_spans }
        requires below { test.constant < product self.now.bases }
        requires within { at + length span.old ≤ word_count (length self.now.entries) }
        ensures { (p : ℕ) → p < 64 * length span.old →
            64 * at + p < length self.now.entries → bit_of span.new p
            ≡ relates test.relation (number_or_zero
            (slice_index_or self.now.entries (64 * at + p) None)) test.constant }
    {
        for i in 0..self.bases.len() {
            let digit = self.bases.digit(test.constant, i);
            narrow_digit(
                &self.components[i as usize],
                test.relation,
                digit,
                i == 0,
                at,
                span,
            );
        }
    }
}

/// Keeps in a span the rows that are in `selection` or, unless `expected`, the rows that are not.
pub(crate) fn and_expected(selection: &[u64], expected: bool, span: &mut [u64])
    requires { length selection.now ≡ length span.old }
    ensures len { length span.new ≡ length span.old }
    ensures bits { (p : ℕ) → p < 64 * length span.old →
        bit_of span.new p ≡ (bit_of span.old p && as_expected expected (bit_of selection.now p)) }
{
    if expected {
        lanes::and(span, selection);
    } else {
        know_fits(selection);
        lanes::and_not(span, selection);
    }
}
