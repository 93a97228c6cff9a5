//! Implements `Reads` for range encoding: comparisons, sums, ranks and extremes, by bitmaps that say of each row
//! whether its digit is at most theirs.

use crate::range::{Range, RangeComponent};
use crate::reads::Reads;
use bsi_bits::Bits;
use bsi_kernels::RankedRows;
use bsi_kernels::spans::{
    and_and_not_assign, and_assign, and_not_assign, and_or_assign, assign, or_assign,
};

impl Reads for Range {
    fn eq_into(component: &RangeComponent, d: u32, out: &mut Bits) {
        if d == component.top() {
            out.copy_from(component.bitmap(d - 1));
            out.flip();
        } else {
            out.copy_from(component.bitmap(d));
            if d > 0 {
                out.and_not_with(component.bitmap(d - 1));
            }
        }
    }

    fn le_into(component: &RangeComponent, d: u32, out: &mut Bits) {
        let top = component.top();
        if d < top {
            out.copy_from(component.bitmap(d));
        } else {
            // All rows: those that a bitmap does not have, and those that it has.
            out.copy_from(component.bitmap(0));
            out.flip();
            out.or_with(component.bitmap(0));
        }
    }

    // For each bitmap, the number of the selected rows that it does not have.
    fn sum_by_bitmaps(component: &RangeComponent, selection: &Bits) -> u128 {
        let mut sum = 0u128;
        'bitmaps: for j in 0..component.top() {
            sum += selection.count_and_not(component.bitmap(j)) as u128;
        }
        sum
    }

    fn count_le(component: &RangeComponent, d: u32, selection: &Bits) -> u64 {
        if d < component.top() {
            selection.count_and(component.bitmap(d))
        } else {
            selection.count()
        }
    }

    fn rows_of_rank(component: &RangeComponent, rank: u64, selection: Bits) -> RankedRows {
        let ranked = component.find_rank(rank, &selection);
        let mut rows = selection;
        component.and_digit(ranked.digit, &mut rows);
        RankedRows {
            number: u64::from(ranked.digit),
            rank: ranked.rank,
            rows,
        }
    }

    fn eq_span(component: &RangeComponent, d: u32, at: usize, span: &mut [u64]) {
        if d == component.top() {
            and_not_assign(component.bitmap(d - 1), at, span);
        } else if d > 0 {
            and_and_not_assign(component.bitmap(d), component.bitmap(d - 1), at, span);
        } else {
            and_assign(component.bitmap(0), at, span);
        }
    }

    fn le_span(component: &RangeComponent, d: u32, at: usize, span: &mut [u64]) {
        if d == component.top() {
            or_assign(component.bitmap(d - 1), at, span);
        } else if d > 0 {
            and_or_assign(component.bitmap(d), component.bitmap(d - 1), at, span);
        } else {
            and_assign(component.bitmap(0), at, span);
        }
    }

    fn eq_span_into(component: &RangeComponent, d: u32, at: usize, span: &mut [u64]) {
        span.fill(u64::MAX);
        Self::eq_span(component, d, at, span);
    }

    // It reads one bitmap, where `le_span` may read two.
    fn le_span_into(component: &RangeComponent, d: u32, at: usize, span: &mut [u64]) {
        if d == component.top() {
            span.fill(u64::MAX);
        } else {
            assign(component.bitmap(d), at, span);
        }
    }

    // The first bitmap that it reads tells whether a digit is within the bound.
    fn least_in_span(
        component: &RangeComponent,
        bound: u32,
        at: usize,
        span: &[u64],
    ) -> Option<u32> {
        if bound < component.top() && !component.has_upto(bound, at, span) {
            return None;
        }
        'digits: for digit in (0..bound).rev() {
            if !component.has_upto(digit, at, span) {
                return Some(digit + 1);
            }
        }
        Some(0)
    }

    // The first bitmap that it reads tells whether a digit is within the bound.
    fn greatest_in_span(
        component: &RangeComponent,
        bound: u32,
        at: usize,
        span: &[u64],
    ) -> Option<u32> {
        if bound > 0 && !component.has_above(bound - 1, at, span) {
            return None;
        }
        let top = component.top();
        'digits: for digit in bound..top {
            if !component.has_above(digit, at, span) {
                return Some(digit);
            }
        }
        Some(top)
    }
}
