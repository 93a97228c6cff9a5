//! A column of a caller's own encoding: each component in the encoding that suits its base.

ghost use Rattle.std.specs.Prelude.{◌≡◌, true, IfOk, map, sum};
ghost use Rattle.bsi_library.specs.Comparisons.{selects};
ghost use Rattle.bsi_library.specs.Orders.{values_at};
ghost use Rattle.bsi_examples.specs.Encodings.{inner_base, inner_digits, inner_room, Suits};

use crate::refused::Refused;
use bsi_library::NoMemory;
use bsi_library::bits::Bits;
use bsi_library::columns::{Column, Decomposed, Encoding, EqualityComponent, Op, RangeComponent};
use bsi_library::digits::Bases;
use std::alloc::Global;

/// Past this base a component is equality encoded, so that `=` reads one bitmap of it.
const MAX_RANGE_BASE: u32 = 16;

/// The most numbers of a column that is made here.
const MAX_NUMBERS: u64 = 1_000_000;

/// A component in one of two encodings.
#[derive(Drop)]
enum EitherComponent {
    Range(RangeComponent),
    Equality(EqualityComponent),
}

/// A component that is range encoded under a small base, and equality encoded under a large one.
#[derive(Drop)]
pub struct ByBase {
    inner: EitherComponent,
    ghost suits: { Suits inner },
}

impl Encoding for ByBase {
    ghost base_of = { λ c. inner_base c.inner };

    ghost digits = { λ c. inner_digits c.inner };

    ghost room_of = { λ c. inner_room c.inner };

    ghost works_on_spans = { true };

    fn on_spans() -> bool {
        true
    }

    fn make(alloc: Global, base: u32) -> Result<Self, NoMemory> {
        let inner = if base <= MAX_RANGE_BASE {
            EitherComponent::Range(RangeComponent::make(alloc, base)?)
        } else {
            EitherComponent::Equality(EqualityComponent::make(alloc, base)?)
        };
        Ok(ByBase { inner })
    }

    fn base(&self) -> u32 {
        match &self.inner {
            EitherComponent::Range(component) => component.base(),
            EitherComponent::Equality(component) => component.base(),
        }
    }

    fn len(&self) -> u64 {
        match &self.inner {
            EitherComponent::Range(component) => component.len(),
            EitherComponent::Equality(component) => component.len(),
        }
    }

    fn room(&self) -> u64 {
        match &self.inner {
            EitherComponent::Range(component) => component.room(),
            EitherComponent::Equality(component) => component.room(),
        }
    }

    fn reserve(&mut self, more: u64) -> Result<(), NoMemory> {
        match &mut self.inner {
            EitherComponent::Range(component) => component.reserve(more),
            EitherComponent::Equality(component) => component.reserve(more),
        }
    }

    fn clear(&mut self) {
        match &mut self.inner {
            EitherComponent::Range(component) => component.clear(),
            EitherComponent::Equality(component) => component.clear(),
        }
    }

    fn push_reserved(&mut self, digit: u32) {
        match &mut self.inner {
            EitherComponent::Range(component) => component.push_reserved(digit),
            EitherComponent::Equality(component) => component.push_reserved(digit),
        }
    }

    fn push_all_reserved(&mut self, other: &Self) {
        match (&mut self.inner, &other.inner) {
            (EitherComponent::Range(component), EitherComponent::Range(others)) =>
                component.push_all_reserved(others),
            (EitherComponent::Equality(component), EitherComponent::Equality(others)) => {
                component.push_all_reserved(others);
            }
            // Components of one base are in one encoding.
            _ => unreachable!(),
        }
    }

    fn eq_into(&self, d: u32, out: &mut Bits) {
        match &self.inner {
            EitherComponent::Range(component) => component.eq_into(d, out),
            EitherComponent::Equality(component) => component.eq_into(d, out),
        }
    }

    fn le_into(&self, d: u32, out: &mut Bits) {
        match &self.inner {
            EitherComponent::Range(component) => component.le_into(d, out),
            EitherComponent::Equality(component) => component.le_into(d, out),
        }
    }

    fn eq_span(&self, d: u32, at: usize, span: &mut [u64]) {
        match &self.inner {
            EitherComponent::Range(component) => component.eq_span(d, at, span),
            EitherComponent::Equality(component) => component.eq_span(d, at, span),
        }
    }

    fn le_span(&self, d: u32, at: usize, span: &mut [u64]) {
        match &self.inner {
            EitherComponent::Range(component) => component.le_span(d, at, span),
            EitherComponent::Equality(component) => component.le_span(d, at, span),
        }
    }

    fn digit_sum(&self, selection: &Bits) -> u128 {
        match &self.inner {
            EitherComponent::Range(component) => component.digit_sum(selection),
            EitherComponent::Equality(component) => component.digit_sum(selection),
        }
    }

    fn copy(&self) -> Result<Self, NoMemory> {
        let inner = match &self.inner {
            EitherComponent::Range(component) => EitherComponent::Range(component.copy()?),
            EitherComponent::Equality(component) => EitherComponent::Equality(component.copy()?),
        };
        Ok(ByBase { inner })
    }
}

/// Makes a column of the numbers below 6,400, whose components have the bases 64 and 100.
pub(crate) fn make_column(alloc: Global, numbers: &[u64]) -> Result<Decomposed<ByBase>, Refused> {
    let bases = Bases::new(vec![in alloc; 64, 100]?)?;
    let mut column = Decomposed::new(alloc, bases)?;
    for number in numbers {
        if *number >= column.size() || column.len() >= MAX_NUMBERS {
            continue;
        }
        column.reserve_one()?;
        column.push_reserved(Some(*number));
    }
    Ok(column)
}

/// Sums the numbers up to a bound, whatever the encoding.
pub(crate) fn sum_up_to<E: Encoding>(column: &Decomposed<E>, bound: u64) -> Result<u128, NoMemory>
    ensures { IfOk result (λ total. total
        ≡ sum (values_at (map (selects Op.Le bound) column.now.entries) column.now.entries)) }
{
    let selection = column.compare(Op::Le, bound)?;
    Ok(column.sum(&selection))
}
