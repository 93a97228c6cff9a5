//! Packs bytes into words, eight to a word and 0 past the last, and unpacks them. (`words` turns words into bytes.)

ghost use Rattle.std.specs.Prelude.{◌≡◌, ℕ, List, ◌+◌, ◌≤◌, ◌++◌, ◌==◌, length, vec_capacity, IfNone, IfOk, IfSome, OnErr, OnOk};
ghost use Rattle.std.specs.Int.{div_ceil};
ghost use Rattle.std.specs.List.{list_all};
ghost use Rattle.bsi_segments.specs.Bytes.{packed_bytes, AreBytes};
ghost use Rattle.bsi_segments.specs.Segments.{word_at};

use crate::words::{decode_words, to_bytes};
use bsi_bits::NoMemory;
use std::alloc::Global;

/// Appends the words of bytes: the lowest byte of a word is the first, and what is past the last byte is 0.
pub fn encode_bytes(bytes: &[u8], out: &mut Vec<u64>) -> Result<(), NoMemory>
    ensures ok { OnOk result (out.new.items ≡ out.old.items ++ packed_bytes bytes.now) }
    ensures err { OnErr result (out.new.items ≡ out.old.items) }
{
    out.reserve(bytes.len().div_ceil(8))?;
    encode_reserved(bytes, out);
    Ok(())
}

/// Appends the words of bytes, into reserved memory.
pub(crate) fn encode_reserved(bytes: &[u8], out: &mut Vec<u64>)
    requires { length out.old.items + div_ceil (length bytes.now) 8 ≤ vec_capacity out.old }
    ensures { out.new.items ≡ out.old.items ++ packed_bytes bytes.now }
{
    let whole = bytes.len() / 8;
    let (first, last) = bytes.split_at(8 * whole);
    decode_words(first, whole, out);
    if !last.is_empty() {
        out.push_reserved(last_word(last));
    }
}

/// Returns the word of at most eight bytes.
fn last_word(bytes: &[u8]) -> u64
    requires { length bytes.now ≤ 8 }
    ensures { result ≡ word_at bytes.now 0 }
{
    let mut padded = [0; 8];
    padded[..bytes.len()].copy_from_slice(bytes);
    u64::from_le_bytes(padded)
}

/// Makes the `len` bytes whose words these are, or none if they are those of no bytes, as a byte past the last is not
/// 0.
pub fn decode_bytes(alloc: Global, words: &[u64], len: usize) -> Result<Option<Vec<u8>>, NoMemory>
    requires { length words.now ≡ div_ceil len 8 }
    ensures made { IfOk result (λ decoded. IfSome decoded (λ bytes. (length bytes.items ≡ len)
        × (words.now ≡ packed_bytes bytes.items))) }
    ensures fits { IfOk result (λ decoded. IfSome decoded (λ bytes. AreBytes bytes.items)) }
    ensures none { IfOk result (λ decoded. IfNone decoded ((bytes : List ℕ) → AreBytes bytes →
        length bytes ≡ len → words.now ≡ packed_bytes bytes → ⊥)) }
{
    let mut bytes = to_bytes(alloc, words)?;
    let (_, past) = bytes.split_at(len);
    if !are_zero(past) {
        return Ok(None);
    }
    bytes.truncate(len);
    Ok(Some(bytes))
}

/// Returns whether each byte is 0.
fn are_zero(bytes: &[u8]) -> bool
    ensures { result ≡ list_all (λ byte. byte == 0) bytes.now }
{
    bytes.iter().all(|byte| *byte == 0)
}
