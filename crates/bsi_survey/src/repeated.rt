//! Finds the first title of a header that stands in it before, too (`find_repeated`).

ghost use Rattle.std.specs.Prelude.{◌↔◌, ◌<◌, length, map, IfNone, IfSome, IsTrue};
ghost use Rattle.bsi_survey.specs.Titles.{AreDistinct, IsFirstRepeated, IsRepeated};

/// Returns the first column whose title is that of a column before it, too, or none if no two titles are the same.
pub(crate) fn find_repeated(titles: &[Vec<u8>]) -> Option<usize>
    ensures some { IfSome result (IsFirstRepeated (map (λ title. title.items) titles.now)) }
    ensures none { IfNone result (AreDistinct (map (λ title. title.items) titles.now)) }
{
    'columns: for c in 0..titles.len() {
        if is_repeated(titles, c) {
            return Some(c);
        }
    }
    None
}

/// Returns whether the title of column `c` is that of a column before it, too.
fn is_repeated(titles: &[Vec<u8>], c: usize) -> bool
    requires { c < length titles.now }
    ensures { IsTrue result ↔ IsRepeated (map (λ title. title.items) titles.now) c }
{
    'columns: for k in 0..c {
        if titles[k].as_slice() == titles[c].as_slice() {
            return true;
        }
    }
    false
}
