//! Computes the checksums of words, numbers of 64 bits, by one step for each word: in one chain (`checksum`), and by four
//! lanes (`lanes_checksum`).

ghost use Rattle.std.specs.Prelude.{◌≡◌};
ghost use Rattle.bsi_segments.specs.Lanes.{lanes_of};
ghost use Rattle.bsi_segments.specs.Segments.{checksum_of, checksum_step};

/// What each step multiplies by: the odd number that is nearest to 2^64 over the golden ratio.
const MULTIPLIER: u64 = 0x9e37_79b9_7f4a_7c15;

/// Takes one more word into a checksum.
fn step(sum: u64, word: u64) -> u64
    ensures { result ≡ checksum_step sum word }
{
    (sum ^ word).wrapping_mul(MULTIPLIER).rotate_left(29)
}

/// Returns the checksum of words.
pub fn checksum(words: &[u64]) -> u64
    ensures { result ≡ checksum_of words.now }
{
    let mut sum = words.len() as u64;
    'words: for word in words {
        sum = step(sum, *word);
    }
    sum
}

/// Returns the checksum of words by four lanes, which a processor works on side by side.
pub fn lanes_checksum(words: &[u64]) -> u64
    ensures { result ≡ lanes_of words.now }
{
    let (mut a, mut b, mut c, mut d) = (words.len() as u64, 1, 2, 3);
    let fours = words.len() / 4;
    'fours: for i in 0..fours {
        let at = 4 * i;
        a = step(a, words[at]);
        b = step(b, words[at + 1]);
        c = step(c, words[at + 2]);
        d = step(d, words[at + 3]);
    }
    'rest: for k in 4 * fours..words.len() {
        let last = step(a, words[k]);
        a = b;
        b = c;
        c = d;
        d = last;
    }
    step(step(step(a, b), c), d)
}
