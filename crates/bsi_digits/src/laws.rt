//! Laws of digits: a number has one list of digits, which add up to it in any order and compare as it does. Each is the
//! contract of a function that does nothing, so that it is checked as any contract is.
ghost use Rattle.std.specs.Prelude.{◌≡◌, ℕ, ◌<◌, ◌↔◌, List, None, reverse, IsPermutation};
ghost use Rattle.std.specs.Ordering.{nat_cmp};
ghost use Rattle.std.specs.Cmp.Lexicographic.{slice_cmp};
ghost use Rattle.bsi_digits.specs.Digits.{product, components, weighted_sum, digits_of, IsDigits, IsBaseList};
ghost use Rattle.bsi_digits.specs.Refusal.{refusal};

/// States that a value below the size has exactly one list of digits.
pub fn digits_are_unique()
    ensures exist { (bs : List ℕ) (v : ℕ) → IsBaseList bs → v < product bs →
        IsDigits bs v (digits_of bs v) }
    ensures unique { (bs ds : List ℕ) (v : ℕ) → IsDigits bs v ds → ds ≡ digits_of bs v }
{}

/// States that the digits times their weights add up to the value, in whatever order of the components they are added.
pub fn weighted_sum_in_any_order()
    ensures { (bs ds order : List ℕ) (v : ℕ) → IsDigits bs v ds →
        IsPermutation (components bs) order →
        weighted_sum bs ds order ≡ v }
{}

/// States that two values compare as their lists of digits do, from the most significant digit down.
pub fn values_compare_by_digits()
    ensures { (bs : List ℕ) (u v : ℕ) → IsBaseList bs → u < product bs → v < product bs →
        slice_cmp nat_cmp (reverse (digits_of bs u)) (reverse (digits_of bs v)) ≡ nat_cmp u v }
{}

/// States that a list of bases as written is refused exactly if, least significant first, it is no list of bases.
pub fn refusals_are_complete()
    ensures { (bs : List ℕ) → (refusal bs ≡ None) ↔ IsBaseList (reverse bs) }
{}
