//! Tests whether the bitmaps of a column are clear at its null rows, as they must be (`are_clear_at_nulls`).

ghost use Rattle.std.specs.Prelude.{◌≡◌, ℕ, ◌<◌, length, IsFalse, IsTrue};
ghost use Rattle.bsi_bits.specs.BitLists.{bits_at};
ghost use Rattle.bsi_kernels.specs.Nulls.{AreClearAtNulls, HasBitOfNull};

use bsi_bits::Bits;

/// Returns whether each bitmap is clear where a row has no number. It takes no memory.
pub fn are_clear_at_nulls(bitmaps: &[Bits], not_null: &Bits) -> bool
    requires { (k : ℕ) → k < length bitmaps.now →
        length (bits_at bitmaps.now k) ≡ length not_null.now.bits }
    ensures clear { IsTrue result → AreClearAtNulls not_null.now.bits bitmaps.now }
    ensures bit { IsFalse result → HasBitOfNull not_null.now.bits bitmaps.now }
{
    'bitmaps: for bitmap in bitmaps {
        if bitmap.count_and_not(not_null) > 0 {
            return false;
        }
    }
    true
}
