//! The trait `Reads`: what each encoding reads from its bitmaps in its own way, for comparisons, sums, ranks and
//! extremes.

ghost use Rattle.std.specs.Prelude.{◌≡◌, ℕ, ◌+◌, ◌*◌, ◌<◌, ◌≤◌, ◌==◌, ◌&&◌, true, length, map, nat_le, slice_index, sum, count_by};
ghost use Rattle.std.specs.List.{items_where_true};
ghost use Rattle.bsi_bits.specs.BitList.{word_count};
ghost use Rattle.bsi_bits.specs.Packed.{bit_of};
ghost use Rattle.bsi_bits.specs.SetRows.{HasRow};
ghost use Rattle.bsi_kernels.specs.Places.{at_most_step};
ghost use Rattle.bsi_kernels.specs.Ranks.{IsRankedRows};
ghost use Rattle.bsi_components.specs.Component.{count_where};
ghost use Rattle.bsi_components.specs.ExtremeDigits.{AnswersLeast, AnswersGreatest};

use crate::component::Component;
use crate::marking::Marking;
use bsi_bits::Bits;
use bsi_kernels::RankedRows;

/// The reads of a component in an encoding of its own. `Encoding` says more of each.
pub trait Reads: Marking {
    /// Writes for each row whether its digit is `d`.
    fn eq_into(component: &Component<Self>, d: u32, out: &mut Bits)
        requires below { d < component.now.base }
        requires same { length component.now.digits ≡ length out.old.bits }
        ensures bits { out.new.bits ≡ map (λ v. v == d) component.now.digits }
        ensures room { out.new.room ≡ out.old.room };

    /// Writes for each row whether its digit is at most `d`.
    fn le_into(component: &Component<Self>, d: u32, out: &mut Bits)
        requires below { d < component.now.base }
        requires same { length component.now.digits ≡ length out.old.bits }
        ensures bits { out.new.bits ≡ map (λ v. nat_le v d) component.now.digits }
        ensures room { out.new.room ≡ out.old.room };

    /// Returns the sum of the digits of the selected rows, by the bitmaps.
    fn sum_by_bitmaps(component: &Component<Self>, selection: &Bits) -> u128
        requires { length component.now.digits ≡ length selection.now.bits }
        ensures { result ≡ sum (items_where_true selection.now.bits component.now.digits) };

    /// Returns how many selected rows have a digit of at most `d`.
    fn count_le(component: &Component<Self>, d: u32, selection: &Bits) -> u64
        requires below { d < component.now.base }
        requires same { length component.now.digits ≡ length selection.now.bits }
        ensures { result ≡ count_where (λ v. nat_le v d) selection.now.bits component.now.digits };

    /// Finds the digit of the row of a rank among the selected rows, and returns the rows that have it.
    fn rows_of_rank(component: &Component<Self>, rank: u64, selection: Bits) -> RankedRows
        requires same { length component.now.digits ≡ length selection.bits }
        requires there { rank < count_by (λ b. b) selection.bits }
        ensures digit { result.number < component.now.base }
        ensures ranked { IsRankedRows rank selection.bits component.now.digits
            result.number result.rank result.rows.bits };

    /// Clears in a span the rows whose digit is not `d`.
    fn eq_span(component: &Component<Self>, d: u32, at: usize, span: &mut [u64])
        requires below { d < component.now.base }
        requires within { at + length span.old ≤ word_count (length component.now.digits) }
        ensures { (p : ℕ) → p < 64 * length span.old → 64 * at + p < length component.now.digits →
            bit_of span.new p ≡ (bit_of span.old p
            && (slice_index component.now.digits (64 * at + p) == d)) };

    /// Compares one digit more of each row with a constant, whose lower digits are compared already.
    fn le_span(component: &Component<Self>, d: u32, at: usize, span: &mut [u64])
        requires below { d < component.now.base }
        requires within { at + length span.old ≤ word_count (length component.now.digits) }
        ensures { (p : ℕ) → p < 64 * length span.old → 64 * at + p < length component.now.digits →
            bit_of span.new p ≡ at_most_step (bit_of span.old p)
            (slice_index component.now.digits (64 * at + p)) d };

    /// Writes into a span whether the digit of each row is `d`.
    fn eq_span_into(component: &Component<Self>, d: u32, at: usize, span: &mut [u64])
        requires below { d < component.now.base }
        requires within { at + length span.old ≤ word_count (length component.now.digits) }
        ensures { (p : ℕ) → p < 64 * length span.old → 64 * at + p < length component.now.digits →
            bit_of span.new p ≡ (slice_index component.now.digits (64 * at + p) == d) };

    /// Writes into a span whether the digit of each row is at most `d`.
    fn le_span_into(component: &Component<Self>, d: u32, at: usize, span: &mut [u64])
        requires below { d < component.now.base }
        requires within { at + length span.old ≤ word_count (length component.now.digits) }
        ensures { (p : ℕ) → p < 64 * length span.old → 64 * at + p < length component.now.digits →
            bit_of span.new p ≡ nat_le (slice_index component.now.digits (64 * at + p)) d };

    /// Returns the least digit of the rows of a span, or none if each is above `bound`.
    fn least_in_span(
        component: &Component<Self>,
        bound: u32,
        at: usize,
        span: &[u64],
    ) -> Option<u32>
        requires below { bound < component.now.base }
        requires within { at + length span.now ≤ word_count (length component.now.digits) }
        requires rows { (p : ℕ) → p < 64 * length span.now → bit_of span.now p ≡ true →
            64 * at + p < length component.now.digits }
        requires some { HasRow (bit_of span.now) (64 * length span.now) }
        ensures { AnswersLeast bound (bit_of span.now)
            (λ p. slice_index component.now.digits (64 * at + p)) (64 * length span.now) result };

    /// Returns the greatest digit of the rows of a span, or none if each is below `bound`.
    fn greatest_in_span(
        component: &Component<Self>,
        bound: u32,
        at: usize,
        span: &[u64],
    ) -> Option<u32>
        requires below { bound < component.now.base }
        requires within { at + length span.now ≤ word_count (length component.now.digits) }
        requires rows { (p : ℕ) → p < 64 * length span.now → bit_of span.now p ≡ true →
            64 * at + p < length component.now.digits }
        requires some { HasRow (bit_of span.now) (64 * length span.now) }
        ensures { AnswersGreatest bound (bit_of span.now)
            (λ p. slice_index component.now.digits (64 * at + p)) (64 * length span.now) result };
}
