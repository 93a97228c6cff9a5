//! Encodes words as bytes, little endian, and decodes them.

ghost use Rattle.std.specs.Prelude.{◌≡◌, ◌+◌, ◌*◌, ◌≤◌, [], ◌∷◌, ◌++◌, length, vec_capacity, IfOk};
ghost use Rattle.bsi_segments.specs.Segments.{bytes_of, words_of, AreWords};

use bsi_bits::NoMemory;
use byteorder::{ByteOrder, LittleEndian};
use std::alloc::Global;

/// Writes the bytes of words.
pub(crate) fn encode_words(words: &[u64], bytes: &mut [u8])
    requires { length bytes.old ≡ 8 * length words.now }
    ensures { bytes.new ≡ bytes_of words.now }
{
    LittleEndian::write_u64_into(words, bytes);
}

/// Makes the bytes of words.
pub(crate) fn to_bytes(alloc: Global, words: &[u64]) -> Result<Vec<u8>, NoMemory>
    ensures { IfOk result (λ bytes. bytes.items ≡ bytes_of words.now) }
{
    let mut bytes = vec![in alloc; 0; 8 * words.len()]?;
    encode_words(words, &mut bytes);
    Ok(bytes)
}

/// Returns the word of eight bytes.
pub(crate) fn word_of(bytes: &[u8]) -> u64
    requires { length bytes.now ≡ 8 }
    ensures { bytes.now ≡ bytes_of (result ∷ []) }
{
    u64::from_le_bytes([
        bytes[0], bytes[1], bytes[2], bytes[3], bytes[4], bytes[5], bytes[6], bytes[7],
    ])
}

/// Appends the words of bytes, into reserved memory.
pub(crate) fn decode_words(bytes: &[u8], count: usize, words: &mut Vec<u64>)
    requires long { length bytes.now ≡ 8 * count }
    requires room { length words.old.items + count ≤ vec_capacity words.old }
    ensures words { words.new.items ≡ words.old.items ++ words_of count bytes.now }
    ensures bytes { bytes.now ≡ bytes_of (words_of count bytes.now) }
    ensures count { length (words_of count bytes.now) ≡ count }
    ensures room { vec_capacity words.new ≡ vec_capacity words.old }
{
    'words: for k in 0..count {
        let at = 8 * k;
        words.push_reserved(u64::from_le_bytes([
            bytes[at],
            bytes[at + 1],
            bytes[at + 2],
            bytes[at + 3],
            bytes[at + 4],
            bytes[at + 5],
            bytes[at + 6],
            bytes[at + 7],
        ]));
    }
}

/// Does nothing when the program runs. Its clause tells a proof that words are numbers of 64 bits.
pub(crate) fn know_words(words: &[u64])
    ensures { AreWords words.now }
{}
