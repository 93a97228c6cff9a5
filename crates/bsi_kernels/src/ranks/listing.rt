//! Lists the indices of words of a selection, among them all words that are not 0, where these are few (`Listed`).
//!
//! A pass over these words alone reads no more of the set and of a bit vector than they are.

ghost use Rattle.std.specs.Prelude.{◌≤◌, length, IfSome, IsTrue};
ghost use Rattle.bsi_bits.specs.BitList.{max_words};
ghost use Rattle.bsi_kernels.specs.Listing.{AreListed};

use bsi_bits::lanes::{LINE_WORDS, is_clear};

/// The most words that are listed. A set of fewer words is passed over as soon.
const MAX_LISTED: usize = 2048;

/// The fewest words for each rank before that of the row that is asked for. Among fewer, some passes over all words cost
/// less than the list.
const MIN_WORDS_PER_RANK: u64 = 64;

/// The indices, rising, of words among which are all that have a row.
#[derive(Drop)]
pub(crate) struct Listed {
    pub(crate) indices: [u32; MAX_LISTED],
    pub(crate) count: usize,
}

/// Lists words among which are all that have a row. Returns none where there are more than `MAX_LISTED`, where there are fewer words than
/// that, or where a rank tells that there are many rows for so many words.
pub(crate) fn list_words(words: &[u64], rank: u64) -> Option<Listed>
    requires { length words.now ≤ max_words }
    ensures { IfSome result (λ listed.
        AreListed (length words.now) listed.indices listed.count words.now) }
{
    // A median of so few rows has a rank of half as many.
    let most = (MAX_LISTED as u64 / 2).min(words.len() as u64 / MIN_WORDS_PER_RANK);
    if words.len() < MAX_LISTED || rank >= most {
        return None;
    }
    let mut listed = Listed {
        indices: [0; MAX_LISTED],
        count: 0,
    };
    let mut at = 0;
    'lines: while at < words.len() {
        let end = words.len().min(at + LINE_WORDS);
        if !list_line(&mut listed, words, at, end) {
            return None;
        }
        at = end;
    }
    Some(listed)
}

/// Lists the words from `at` on and before `end` that have a row. Returns whether there is room for all.
fn list_line(listed: &mut Listed, words: &[u64], at: usize, end: usize) -> bool
    requires few { length words.now ≤ max_words }
    requires forward { at ≤ end }
    requires within { end ≤ length words.now }
    requires listed { AreListed at listed.old.indices listed.old.count words.now }
    ensures { IsTrue result → AreListed end listed.new.indices listed.new.count words.now }
{
    if is_clear(&words[at..end]) {
        return true;
    }
    'words: for k in at..end {
        if words[k] != 0 {
            if listed.count == MAX_LISTED {
                return false;
            }
            listed.indices[listed.count] = k as u32;
            listed.count += 1;
        }
    }
    true
}
