//! Decodes bitmaps of one length from their words, one bitmap after another (`decode_bitmaps`).

ghost use Rattle.std.specs.Prelude.{◌≡◌, Bool, List, ◌*◌, ◌≤◌, ◌<◌, length, IfNone, IfOk, IfSome};
ghost use Rattle.std.specs.List.{flat_map};
ghost use Rattle.bsi_bits.specs.BitList.{max_len, word_count};
ghost use Rattle.bsi_segments.specs.Bitmaps.{bits_of_bitmaps, packed, AreBitmaps};

use crate::packed::decode_bits;
use bsi_bits::{Bits, NoMemory};
use std::alloc::Global;

/// Makes the bitmaps of n bits each whose words these are, or none if they are those of no such bitmaps.
pub fn decode_bitmaps(
    alloc: Global,
    words: &[u64],
    count: usize,
    n: u64,
) -> Result<Option<Vec<Bits>>, NoMemory>
    requires within { n ≤ max_len }
    requires few { length words.now ≡ count * word_count n }
    ensures made { IfOk result (λ made. IfSome made (λ maps. AreBitmaps count n (bits_of_bitmaps maps.items)
        × (words.now ≡ flat_map packed (bits_of_bitmaps maps.items)))) }
    ensures none { IfOk result (λ made. IfNone made ((bits : List (List Bool)) →
        AreBitmaps count n bits → words.now ≡ flat_map packed bits → ⊥)) }
{
    let mut maps = Vec::with_capacity(alloc, count)?;
    let mut rest = words;
    let long = n.div_ceil(64) as usize;
    'maps: for _ in 0..count {
        let (first, others) = rest.split_at(long);
        let Some(map) = decode_bits(Vec::from_slice(alloc, first)?, n) else {
            return Ok(None);
        };
        maps.push_reserved(map);
        rest = others;
    }
    Ok(Some(maps))
}
