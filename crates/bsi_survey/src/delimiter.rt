//! Finds the byte between the fields of a text (`find_delimiter`), by its first line.

ghost use Rattle.std.specs.Prelude.{◌≡◌, false};
ghost use Rattle.bsi_survey.specs.Delimiters.{bare_count, delimiter_of, is_line_end, more_often};

/// Returns the first of comma, semicolon, tab and vertical bar that stands most often in the first line of a text outside
/// quotes, or a comma if none of them does.
pub fn find_delimiter(text: &[u8]) -> u8
    ensures { result ≡ delimiter_of text.now }
{
    let semicolon = choose_more_often(text, b',', b';');
    let tab = choose_more_often(text, semicolon, b'\t');
    choose_more_often(text, tab, b'|')
}

/// Returns the second byte if it stands more often than the first, and else the first.
fn choose_more_often(text: &[u8], first: u8, second: u8) -> u8
    ensures { result ≡ more_often text.now first second }
{
    if count_bare(text, first) < count_bare(text, second) {
        second
    } else {
        first
    }
}

/// Returns how often a byte stands in the first line of a text outside quotes.
fn count_bare(text: &[u8], byte: u8) -> usize
    ensures { result ≡ bare_count byte false text.now }
{
    let mut quoted = false;
    let mut count = 0;
    'bytes: for each in text {
        if *each == b'"' {
            quoted = !quoted;
            continue;
        }
        if quoted {
            continue;
        }
        if is_line_end(*each) {
            return count;
        }
        if *each != byte {
            continue;
        }
        count += 1;
    }
    count
}

/// Returns whether a byte ends a line.
fn is_line_end(byte: u8) -> bool
    ensures { result ≡ is_line_end byte }
{
    byte == b'\n' || byte == b'\r'
}
