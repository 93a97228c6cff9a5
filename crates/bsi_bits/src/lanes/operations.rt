//! Boolean operations on two words, which the kernels take as a parameter.

ghost use Rattle.std.specs.Prelude.{◌≡◌, ℕ, bit_and, bit_or, bit_xor};
ghost use Rattle.std.specs.Int.{bit_not, w64};
ghost use Rattle.std.specs.Simd.Lanes.{zip2};

use std::simd::u64x4;

/// A Boolean operation on two words, bit by bit: on single words, and on four side by side.
pub(crate) trait Operation {
    /// The word that it makes of two.
    ghost word_of: { ℕ → ℕ → ℕ };

    /// Applies it to four pairs of words.
    fn words(a: u64x4, b: u64x4) -> u64x4
        ensures { result ≡ zip2 word_of a b };

    /// Applies it to a pair of words.
    fn word(a: u64, b: u64) -> u64
        ensures { result ≡ word_of a b };
}

/// The bits that are set in both words.
pub(crate) struct AndWords;

impl Operation for AndWords {
    ghost word_of = { bit_and };

    fn words(a: u64x4, b: u64x4) -> u64x4 {
        a & b
    }

    fn word(a: u64, b: u64) -> u64 {
        a & b
    }
}

/// The bits that are set in either word.
pub(crate) struct OrWords;

impl Operation for OrWords {
    ghost word_of = { bit_or };

    fn words(a: u64x4, b: u64x4) -> u64x4 {
        a | b
    }

    fn word(a: u64, b: u64) -> u64 {
        a | b
    }
}

/// The bits that are set in one of the words alone.
pub(crate) struct XorWords;

impl Operation for XorWords {
    ghost word_of = { bit_xor };

    fn words(a: u64x4, b: u64x4) -> u64x4 {
        a ^ b
    }

    fn word(a: u64, b: u64) -> u64 {
        a ^ b
    }
}

/// The bits that are set in the first word and clear in the second.
pub(crate) struct AndNotWords;

impl Operation for AndNotWords {
    ghost word_of = { λ x y. bit_and x (bit_not w64 y) };

    fn words(a: u64x4, b: u64x4) -> u64x4 {
        a & !b
    }

    fn word(a: u64, b: u64) -> u64 {
        a & !b
    }
}

/// The bits that are set in the first word or clear in the second.
pub(crate) struct OrNotWords;

impl Operation for OrNotWords {
    ghost word_of = { λ x y. bit_or x (bit_not w64 y) };

    fn words(a: u64x4, b: u64x4) -> u64x4 {
        a | !b
    }

    fn word(a: u64, b: u64) -> u64 {
        a | !b
    }
}
