//! What reasons call a column (`label`): its title, if this is a short text, or else its name.

ghost use Rattle.std.specs.Prelude.{◌≡◌, ◌⊎◌, ◌<◌, length};
ghost use Rattle.bsi_schema.specs.Columns.{column_at};

use crate::explains::Explains;

/// The most bytes of a title that reasons show.
const MAX_LABEL: usize = 40;

/// Returns what reasons call column `c`: its title, if this is a text of 1 to 40 bytes without control characters, or
/// else its name. It allocates no memory.
pub(crate) fn label<F: Explains>(format: &F, c: u32) -> &str
    requires { c < length (F.format format.now).schema.columns }
    ensures { (result.now ≡ (F.judge format.now).title c)
        ⊎ (result.now ≡ (column_at (F.format format.now).schema.columns c).name) }
{
    match str::from_utf8(format.column_title(c)) {
        Ok(title) if is_label(title) => title,
        _ => format.row_schema().name(c),
    }
}

/// Returns whether a title is short, not empty, and without control characters.
fn is_label(title: &str) -> bool {
    !title.is_empty() && title.len() <= MAX_LABEL && !title.chars().any(|c| c.is_control())
}
