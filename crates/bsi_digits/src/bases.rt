//! Checks a list of bases (`Bases`), and gives the weights and the digits of numbers under it without a division.

ghost use Rattle.std.specs.Prelude.{◌≡◌, ℕ, ◌+◌, ◌/◌, ◌<◌, ◌≤◌, ◌↔◌, length, slice_index, position, sum, reverse, replicate, EachIndex, IsNone, IfNone, IfOk, IfErr, IfSome, IsErrOf, IsTrue};
ghost use Rattle.std.specs.Result.{result_err};
ghost use Rattle.bsi_digits.specs.Digits.{digit_of, max_bases, max_size, product, weight, IsBase, IsBaseList};
ghost use Rattle.bsi_digits.specs.Refusal.{refusal, is_bad_base, IsFirstOr};
ghost use Rattle.bsi_digits.specs.Weights.{AreWeights};

use crate::divisor::Divisor;
use crate::{BasesError, NoMemory};
use std::alloc::Global;
use std::marker::Model;

/// The most bases of a list.
const MAX_BASES: usize = 63;

/// The least base of a list.
const MIN_BASE: u32 = 2;

/// The greatest base of a list, as a `u32` like each base. Each digit is below it.
pub const MAX_BASE: u32 = 1024;

/// The greatest sum of a list's bases.
const MAX_SUM: u64 = 4096;

/// The greatest product of a list's bases.
const MAX_SIZE: u64 = 1 << 63;

/// The most bit slices of a column, whose numbers are below the same size.
pub const MAX_SLICES: u32 = 63;

/// A list of 1 to 63 bases. A contract sees the bases least significant first, as the components are numbered:
/// component 0 is the least significant, and has the last base of the list as written.
#[derive(Debug, Drop)]
pub struct Bases {
    bases: Vec<u32>,
    weights: [Divisor; MAX_BASES + 1],
}

/// A digit of a number, and what is left above it.
#[derive(Clone, Copy, Debug)]
pub struct DigitStep {
    /// The digit of the component.
    pub digit: u32,
    /// The quotient of the number by the weight of the next component.
    pub above: u64,
}

impl Model for Bases {
    ghost use Rattle.std.specs.Prelude.{ℕ, List};
    ghost use Rattle.bsi_digits.specs.Digits.{IsBaseList};
    ghost use Rattle.bsi_digits.specs.Weights.{AreWeights};

    ghost Value = { List ℕ };

    ghost view = { λ b. b.bases.items };

    ghost invariant = { λ b. IsBaseList b.bases.items × AreWeights b.bases.items b.weights };
}

impl Bases {
    /// Takes a list of bases, written most significant first. It allocates no memory, and drops a list that it refuses.
    pub fn new(mut bases: Vec<u32>) -> Result<Bases, BasesError>
        ensures refused { result_err result ≡ refusal bases.items }
        ensures ok { IfOk result (λ b. b ≡ reverse bases.items) }
    {
        if bases.is_empty() {
            return Err(BasesError::Empty);
        }
        if bases.len() > MAX_BASES {
            return Err(BasesError::TooMany);
        }
        if let Some(at) = bad_base_at(&bases) {
            return Err(BasesError::BaseOutOfRange(at as u32));
        }
        if sum_of(&bases) > MAX_SUM {
            return Err(BasesError::TooWide);
        }
        bases.reverse();
        match weights(&bases) {
            None => Err(BasesError::ProductTooLarge),
            Some(weights) => Ok(Bases { bases, weights }),
        }
    }

    /// Makes `w` bases of 2, from 1 to 63, under which the digits of a number are its binary digits. It refuses any
    /// other `w` as `new` refuses that list, before it asks for memory.
    pub fn twos(alloc: Global, w: u32) -> Result<Bases, BasesError>
        ensures empty { IsErrOf result BasesError.Empty ↔ (w ≡ 0) }
        ensures too_many { IsErrOf result BasesError.TooMany ↔ (max_bases < w) }
        ensures refused { IfErr result (IsFirstOr BasesError.NoMemory (refusal (replicate w 2))) }
        ensures ok { IfOk result (λ b. b ≡ replicate w 2) }
    {
        if w == 0 {
            return Err(BasesError::Empty);
        }
        if w > MAX_BASES as u32 {
            return Err(BasesError::TooMany);
        }
        Bases::new(vec![in alloc; 2; w as usize]?)
    }

    /// Makes a second list of the same bases.
    pub fn copy(&self) -> Result<Bases, NoMemory>
        ensures { IfOk result (λ b. b ≡ self.now) }
    {
        let bases = self.bases.clone()?;
        Ok(Bases {
            bases,
            weights: self.weights,
        })
    }

    /// Returns whether another list has the same bases in the same order.
    pub fn is_same(&self, other: &Bases) -> bool
        ensures { IsTrue result ↔ (self.now ≡ other.now) }
    {
        self.bases.as_slice() == other.bases.as_slice()
    }

    /// Returns how many values the bases tell apart, at most 2^63: the product of all bases.
    pub fn size(&self) -> u64
        ensures size { result ≡ product self.now }
        ensures within { result ≤ max_size }
        ensures valid { IsBaseList self.now }
    {
        self.divisor(self.bases.len()).value()
    }

    /// Returns the number of components, from 1 to 63. A list is never empty.
    pub fn len(&self) -> u32
        ensures len { result ≡ length self.now }
        ensures within { (1 ≤ result) × (result ≤ max_bases) }
        ensures valid { IsBaseList self.now }
    {
        self.bases.len() as u32
    }

    /// Returns the base of component `i`, from 2 to 1,024.
    pub fn base(&self, i: u32) -> u32
        requires { i < length self.now }
        ensures base { result ≡ slice_index self.now i }
        ensures within { IsBase result }
    {
        self.bases[i as usize]
    }

    /// Returns the digit of component `i` of `v`. It costs no division.
    pub fn digit(&self, v: u64, i: u32) -> u32
        requires within { i < length self.now }
        requires below { v < product self.now }
        ensures digit { result ≡ digit_of self.now v i }
        ensures below { result < slice_index self.now i }
    {
        let from_here = self.divisor(i as usize).quotient(v);
        self.next_digit(v, i, from_here).digit
    }

    /// Returns the digit of component `i` of `v`, and what is left of `v` above it. `from_here` is the quotient of `v`
    /// by the weight of that component. It costs one multiplication less than `digit`.
    pub fn next_digit(&self, v: u64, i: u32, from_here: u64) -> DigitStep
        requires within { i < length self.now }
        requires below { v < product self.now }
        requires from { from_here ≡ v / weight self.now i }
        ensures digit { result.digit ≡ digit_of self.now v i }
        ensures below { result.digit < slice_index self.now i }
        ensures above { result.above ≡ v / weight self.now (i + 1) }
    {
        let above = self.divisor(i as usize + 1).quotient(v);
        let digit = from_here - above * u64::from(self.base(i));
        DigitStep {
            digit: digit as u32,
            above,
        }
    }

    /// Returns the weight of a digit of component `i`: the product of the bases below it.
    pub fn weight(&self, i: u32) -> u64
        requires { i < length self.now }
        ensures weight { result ≡ weight self.now i }
        ensures within { (1 ≤ result) × (result ≤ product self.now) }
    {
        self.divisor(i as usize).value()
    }

    /// Returns the divisor of component `at`, which is its weight or, after the last component, the size.
    fn divisor(&self, at: usize) -> &Divisor
        requires { at ≤ length self.now }
        ensures weight { result.now ≡ weight self.now at }
        ensures valid { IsBaseList self.now }
    {
        // A slice: at an array's index the proof would have to bound a multiplication before it knows the place.
        let weights = &self.weights[..];
        &weights[at]
    }
}

/// Returns the position of the first base that is out of range.
fn bad_base_at(bases: &[u32]) -> Option<usize>
    ensures position { result ≡ position is_bad_base bases.now }
    ensures within { IfSome result (λ at. at < length bases.now) }
    ensures none { IfNone result (EachIndex bases.now (λ i. IsBase (slice_index bases.now i))) }
{
    bases
        .iter()
        .position(|base| !(MIN_BASE..=MAX_BASE).contains(base))
}

/// Returns the sum of the bases.
fn sum_of(bases: &[u32]) -> u64
    requires { length bases.now ≤ max_bases }
    ensures { result ≡ sum bases.now }
{
    bases.iter().map(|base| u64::from(*base)).sum()
}

/// Returns the weight of each component and, after the last one, the product of all bases. The bases are least
/// significant first. It returns `None` if the product is over the largest size.
fn weights(bases: &[u32]) -> Option<[Divisor; MAX_BASES + 1]>
    requires few { length bases.now ≤ max_bases }
    requires each { EachIndex bases.now (λ i. 1 ≤ slice_index bases.now i) }
    ensures none { IsNone result ↔ (max_size < product bases.now) }
    ensures some { IfSome result (AreWeights bases.now) }
{
    let mut divisors = [Divisor::new(1); MAX_BASES + 1];
    let mut weight = 1u64;
    for (i, base) in bases.iter().enumerate() {
        let next = u128::from(weight) * u128::from(*base);
        if next > u128::from(MAX_SIZE) {
            return None;
        }
        weight = next as u64;
        divisors[i + 1] = Divisor::new(weight);
    }
    Some(divisors)
}
