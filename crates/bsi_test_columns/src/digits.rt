//! Tests of lists of bases (`Bases`): sizes, refusals and copies. Each tolerates one refused allocation, and then makes
//! the same call again.

use bsi_digits::{Bases, BasesError, NoMemory, laws};
use std::alloc::Global;

fn bases_once(alloc: Global, list: &[u32]) -> Result<Bases, BasesError> {
    Bases::new(Vec::from_slice(alloc, list)?)
}

fn bases(alloc: Global, list: &[u32]) -> Result<Bases, BasesError> {
    match bases_once(alloc, list) {
        Err(BasesError::NoMemory) => bases_once(alloc, list),
        made => made,
    }
}

fn twos(alloc: Global, w: u32) -> Result<Bases, BasesError> {
    match Bases::twos(alloc, w) {
        Err(BasesError::NoMemory) => Bases::twos(alloc, w),
        answer => answer,
    }
}

fn size(made: Result<Bases, BasesError>) -> Result<u64, BasesError> {
    made.map(|bases| bases.size())
}

// Whether each list is refused, or has the size, that it should.
fn are_sized(alloc: Global) -> bool {
    let many = [2; 64];
    let rows: [(&[u32], Result<u64, BasesError>); 6] = [
        (&[], Err(BasesError::Empty)),
        (&many, Err(BasesError::TooMany)),
        (&[3, 1], Err(BasesError::BaseOutOfRange(1))),
        (&[1024, 1024, 1024, 1024, 2], Err(BasesError::TooWide)),
        (
            &[512, 512, 512, 512, 512, 512, 512, 2],
            Err(BasesError::ProductTooLarge),
        ),
        (&[5, 3], Ok(15)),
    ];
    let mut right = true;
    for (list, want) in rows {
        right &= size(bases(alloc, list)) == want;
    }
    right
}

#[test]
fn bases_refused(rt: HostRuntime) {
    assert!(rt; are_sized(rt.alloc()));
}

fn copied(bases: &Bases) -> Result<Bases, NoMemory> {
    match bases.copy() {
        Err(_) => bases.copy(),
        copy => copy,
    }
}

// Whether 14 has the digits 4 and 2 under the bases 5 and 3.
fn has_fourteen(bases: &Bases) -> bool {
    bases.size() == 15
        && bases.len() == 2
        && bases.digit(14, 1) == 4
        && bases.digit(14, 0) == 2
        && bases.weight(1) == 3
        && bases.base(1) == 5
}

fn copy_has_fourteen(alloc: Global) -> Result<bool, BasesError> {
    let bases = bases(alloc, &[5, 3])?;
    let copy = copied(&bases)?;
    Ok(has_fourteen(&bases) && has_fourteen(&copy))
}

#[test]
fn copies_have_the_same_digits(rt: HostRuntime) {
    assert!(rt; matches!(copy_has_fourteen(rt.alloc()), Ok(true)));
}

#[test]
fn twos_have_the_greatest_size(rt: HostRuntime) {
    let size = size(twos(rt.alloc(), 63));
    assert!(rt; matches!(size, Ok(9223372036854775808)));
}

#[test]
fn laws_return(_rt: HostRuntime) {
    laws::digits_are_unique();
    laws::weighted_sum_in_any_order();
    laws::values_compare_by_digits();
    laws::refusals_are_complete();
}
