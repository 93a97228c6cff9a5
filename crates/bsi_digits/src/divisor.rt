//! A divisor that is stored with its reciprocal, so that a quotient is a multiplication and a shift (Granlund and
//! Montgomery 1994).
//!
//! The reciprocal is rounded up, at 2^(63 + s), where 2^s is the least power of two that is no smaller than the
//! divisor. That is exact for each number below 2^63.
ghost use Rattle.std.specs.Prelude.{◌≡◌, ℕ, ◌/◌, ◌<◌, ◌≤◌};
ghost use Rattle.bsi_digits.specs.Divisor.{max_divisor};

use std::marker::Model;

/// A divisor from 1 to 2^63.
#[derive(Clone, Copy, Debug)]
pub struct Divisor {
    divisor: u64,
    reciprocal: u64,
    shift: u32,
}

impl Model for Divisor {
    ghost use Rattle.std.specs.Prelude.{ℕ};
    ghost use Rattle.std.proofs.Common.{sym};
    ghost use Rattle.bsi_digits.specs.Divisor.{IsDivisor, reciprocal_of, shift_of};

    ghost Value = { ℕ };

    ghost view = { λ d. d.divisor };

    ghost invariant = { λ d. IsDivisor d.divisor d.reciprocal d.shift };

    ghost inverse = { λ n. record
        { divisor = n; reciprocal = reciprocal_of n; shift = shift_of n } };

    ghost inverse_ok = { λ d h. λ i. record
        { divisor = d.divisor; reciprocal = sym h.reciprocal_is i; shift = sym h.shift_is i } };
}

impl Divisor {
    /// Makes a divisor with its reciprocal. It costs a division.
    pub fn new(divisor: u64) -> Divisor
        requires { (1 ≤ divisor) × (divisor ≤ max_divisor) }
        ensures { result ≡ divisor }
    {
        let shift = 64 - (divisor - 1).leading_zeros();
        let unit = 1u128 << (63 + shift);
        let rounded_up = (unit + u128::from(divisor) - 1) / u128::from(divisor);
        Divisor {
            divisor,
            reciprocal: rounded_up as u64,
            shift,
        }
    }

    /// Returns the divisor.
    pub fn value(&self) -> u64
        ensures { result ≡ self.now }
    {
        self.divisor
    }

    /// Returns the quotient of `v`, rounded down. It costs no division.
    pub fn quotient(&self, v: u64) -> u64
        requires { v < max_divisor }
        ensures { result ≡ v / self.now }
    {
        let scaled = u128::from(v) * u128::from(self.reciprocal);
        (scaled >> 63) as u64 >> self.shift
    }
}
