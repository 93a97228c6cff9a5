//! Reads the bitmaps at an offset of a file, and compares each with its checksum.

ghost use Rattle.std.specs.Prelude.{◌≡◌, ◌+◌, ◌*◌, ◌^◌, ◌<◌, ◌≤◌, length, map, IfErr, IfOk};
ghost use Rattle.std.specs.List.{flat_map};
ghost use Rattle.bsi_bits.specs.BitList.{max_len, word_count};
ghost use Rattle.bsi_segments.specs.Bitmaps.{bits_of_bitmaps, packed, AreBitmaps};
ghost use Rattle.bsi_segments.specs.Lanes.{lanes_of};
ghost use Rattle.bsi_segments.specs.Segments.{AreWords};
ghost use Rattle.bsi_pread.specs.Offsets.{AreNoBitmaps, IsNoBitmap, StandAt};

use crate::offsets::{At, ReadAt};
use bsi_bits::Bits;
use bsi_segments::{SegmentFault, decode_bits, lanes_checksum, read_words};
use std::alloc::Global;

/// Does nothing when the program runs. Its clause tells a proof that words are numbers of 64 bits.
fn know_words(words: &[u64])
    ensures { AreWords words.now }
{}

/// Reads the bitmap of so many bits at an offset, of which the checksum by lanes is known. Its words are read into the
/// memory that the bitmap keeps.
pub fn read_bitmap<R: ReadAt>(
    alloc: Global,
    reader: &R,
    at: u64,
    rows: u64,
    sum: u64,
) -> Result<Bits, SegmentFault>
    requires { rows ≤ max_len }
    ensures long { IfOk result (λ bits. length bits.bits ≡ rows) }
    ensures words { IfOk result (λ bits.
        StandAt (R.all_bytes reader.now) at (packed bits.bits)) }
    ensures sum { IfOk result (λ bits. lanes_of (packed bits.bits) ≡ sum) }
    ensures fault { IfErr result (IsNoBitmap (R.all_bytes reader.now) at rows sum) }
{
    let count = rows.div_ceil(64);
    let mut words = Vec::with_capacity(alloc, count as usize)?;
    let mut input = At::new(reader, at);
    read_words(&mut input, count, &mut words)?;
    know_words(&words);
    if lanes_checksum(&words) != sum {
        return Err(SegmentFault::Damaged);
    }
    match decode_bits(words, rows) {
        Some(bits) => Ok(bits),
        None => Err(SegmentFault::Damaged),
    }
}

/// Reads the bitmaps of so many bits each that stand at an offset, one behind the other, of each of which the checksum by
/// lanes is known.
pub fn read_bitmaps<R: ReadAt>(
    alloc: Global,
    reader: &R,
    at: u64,
    rows: u64,
    sums: &[u64],
) -> Result<Vec<Bits>, SegmentFault>
    requires within { rows ≤ max_len }
    requires offset { at + 8 * (length sums.now * word_count rows) < 2 ^ 64 }
    ensures long { IfOk result (λ maps. AreBitmaps (length sums.now) rows (bits_of_bitmaps maps.items)) }
    ensures words { IfOk result (λ maps.
        StandAt (R.all_bytes reader.now) at (flat_map packed (bits_of_bitmaps maps.items))) }
    ensures sums { IfOk result (λ maps.
        map (λ bits. lanes_of (packed bits)) (bits_of_bitmaps maps.items) ≡ sums.now) }
    ensures fault { IfErr result (AreNoBitmaps (R.all_bytes reader.now) at rows sums.now) }
{
    let mut maps = Vec::with_capacity(alloc, sums.len())?;
    let long = 8 * rows.div_ceil(64);
    let mut offset = at;
    'maps: for sum in sums {
        let bits = read_bitmap(alloc, reader, offset, rows, *sum)?;
        maps.push_reserved(bits);
        offset += long;
    }
    Ok(maps)
}
