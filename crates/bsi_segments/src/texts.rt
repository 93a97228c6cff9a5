//! Encodes a text as words, its length and its bytes, and decodes it.

ghost use Rattle.std.specs.Prelude.{◌≡◌, ℕ, List, ◌++◌, IfNone, IfOk, IfSome, OnErr, OnOk};
ghost use Rattle.bsi_segments.specs.Bytes.{text_words, AreBytes};

use crate::bytes::{decode_bytes, encode_reserved};
use bsi_bits::NoMemory;
use std::alloc::Global;

/// Appends the words of a text.
pub fn encode_text(text: &[u8], out: &mut Vec<u64>) -> Result<(), NoMemory>
    ensures ok { OnOk result (out.new.items ≡ out.old.items ++ text_words text.now) }
    ensures err { OnErr result (out.new.items ≡ out.old.items) }
{
    out.reserve(1 + text.len().div_ceil(8))?;
    out.push_reserved(text.len() as u64);
    encode_reserved(text, out);
    Ok(())
}

/// Makes the text whose words come first, and lends the words after it; or none if there is no such text. A false
/// length takes no memory.
pub fn decode_text<'a>(
    alloc: Global,
    words: &'a [u64],
) -> Result<Option<(Vec<u8>, &'a [u64])>, NoMemory>
    ensures made { IfOk result (λ decoded. IfSome decoded (λ pair.
        words.now ≡ text_words pair.0.items ++ pair.1.now)) }
    ensures fits { IfOk result (λ decoded. IfSome decoded (λ pair. AreBytes pair.0.items)) }
    ensures none { IfOk result (λ decoded. IfNone decoded ((text rest : List ℕ) → AreBytes text →
        words.now ≡ text_words text ++ rest → ⊥)) }
{
    let [len, rest @ ..] = words else {
        return Ok(None);
    };
    let count = len.div_ceil(8);
    if count > rest.len() as u64 {
        return Ok(None);
    }
    let (packed, behind) = rest.split_at(count as usize);
    let Some(text) = decode_bytes(alloc, packed, *len as usize)? else {
        return Ok(None);
    };
    Ok(Some((text, behind)))
}
