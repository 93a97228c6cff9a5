//! Implements `Reads` for equality encoding: comparisons, sums, ranks and extremes by a bitmap for each digit.

use crate::equality::extremes::just_below;
use crate::equality::{Equality, EqualityComponent};
use crate::reads::Reads;
use bsi_bits::Bits;
use bsi_digits::Extreme;
use bsi_kernels::spans::{and_assign, and_not_assign, assign};
use bsi_kernels::{RankedRows, order_by_places, rows_of_rank};

impl Reads for Equality {
    fn eq_into(component: &EqualityComponent, d: u32, out: &mut Bits) {
        if component.is_stored(d) {
            out.copy_from(component.bitmap(d));
        } else {
            out.copy_from(component.bitmap(1));
            out.flip();
        }
    }

    // It reads the bitmaps up to the digit, or those past it, whichever are fewer.
    fn le_into(component: &EqualityComponent, d: u32, out: &mut Bits) {
        let base = component.own_base();
        if base > 2 && 2 * (d + 1) <= base {
            component.among_into(0, d + 1, out);
        } else if d + 1 < base {
            component.among_into(d + 1, base, out);
            out.flip();
        } else {
            // All rows: those that a bitmap does not have, and those that it has.
            out.copy_from(component.bitmap(1));
            out.flip();
            out.or_with(component.bitmap(1));
        }
    }

    // Each digit but 0 times the number of the rows that have it.
    fn sum_by_bitmaps(component: &EqualityComponent, selection: &Bits) -> u128 {
        let mut sum = 0u128;
        'digits: for j in 1..component.own_base() {
            sum += j as u128 * selection.count_and(component.bitmap(j)) as u128;
        }
        sum
    }

    // It counts by the bitmaps up to the digit, or by those past it, whichever are fewer.
    fn count_le(component: &EqualityComponent, d: u32, selection: &Bits) -> u64 {
        let base = component.own_base();
        if 2 * (d + 1) <= base {
            component.count_among(0, d + 1, selection)
        } else {
            selection.count() - component.count_among(d + 1, base, selection)
        }
    }

    // It goes down the binary places of the digits, which are fewer than their bitmaps.
    fn rows_of_rank(component: &EqualityComponent, rank: u64, selection: Bits) -> RankedRows {
        let places = component.places();
        if places.is_empty() {
            component.rows_by_counts(rank, selection)
        } else {
            rows_of_rank(places, rank, selection)
        }
    }

    fn eq_span(component: &EqualityComponent, d: u32, at: usize, span: &mut [u64]) {
        if component.is_stored(d) {
            and_assign(component.bitmap(d), at, span);
        } else {
            and_not_assign(component.bitmap(1), at, span);
        }
    }

    // It reads the bitmaps up to the digit, those from it on, or the binary places, whichever are fewest.
    fn le_span(component: &EqualityComponent, d: u32, at: usize, span: &mut [u64]) {
        let base = component.own_base();
        let places = component.places();
        let fewest = (d + 1).min(base - d) as usize;
        if !places.is_empty() && places.len() < fewest {
            order_by_places(places, u64::from(d), at, span);
        } else {
            component.le_by_bitmaps(d, at, span);
        }
    }

    // It copies one bitmap, but for digit 0 under base 2, which has none.
    fn eq_span_into(component: &EqualityComponent, d: u32, at: usize, span: &mut [u64]) {
        if component.is_stored(d) {
            assign(component.bitmap(d), at, span);
        } else {
            span.fill(u64::MAX);
            Self::eq_span(component, d, at, span);
        }
    }

    fn le_span_into(component: &EqualityComponent, d: u32, at: usize, span: &mut [u64]) {
        span.fill(u64::MAX);
        Self::le_span(component, d, at, span);
    }

    // It reads the bitmaps of the digits up to the bound, or goes down the binary places, whichever are fewer.
    fn least_in_span(
        component: &EqualityComponent,
        bound: u32,
        at: usize,
        span: &[u64],
    ) -> Option<u32> {
        let places = component.places().len();
        if 0 < places && places <= bound as usize {
            component.extreme_in_span(Extreme::Least, Some(u64::from(bound) + 1), at, span)
        } else {
            component.least_by_bitmaps(bound, at, span)
        }
    }

    // It reads the bitmaps of the digits from the bound on, or goes down the binary places, whichever are fewer.
    fn greatest_in_span(
        component: &EqualityComponent,
        bound: u32,
        at: usize,
        span: &[u64],
    ) -> Option<u32> {
        let places = component.places().len();
        if 0 < places && places < (component.own_base() - bound) as usize {
            component.extreme_in_span(Extreme::Greatest, just_below(bound), at, span)
        } else {
            component.greatest_by_bitmaps(bound, at, span)
        }
    }
}
