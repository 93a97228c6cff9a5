//! The trait of what says why a format does not accept a header or a record, in texts for people (`Explains`).

ghost use Rattle.std.specs.Prelude.{◌≡◌, ◌<◌, length, IfOk, IfSome};
ghost use Rattle.std.specs.Option.{is_none};
ghost use Rattle.bsi_check.specs.Judges.{Judge};

use crate::NoMemory;
use bsi_input::RowFormat;
use std::alloc::Global;

/// A format that says why it does not accept a field: a `Schema`, a `LogicalFormat`, or either as a `TableSchema`.
pub trait Explains: RowFormat {
    /// How it judges the fields of a record.
    ghost judge: { Self → Judge };

    /// Returns the column whose fields are under a field of a header, or none. It allocates no memory.
    fn find_column_under(&self, name: &[u8]) -> Option<u32>
        ensures column { result ≡ (judge self.now).column name.now }
        ensures within { IfSome result (λ c. c < length (Self.format self.now).schema.columns) };

    /// Lends what a header calls column `c`.
    fn column_title(&self, c: u32) -> &[u8]
        requires { c < length (Self.format self.now).schema.columns }
        ensures { result.now ≡ (judge self.now).title c };

    /// Returns why column `c` does not accept a field, or none if it does.
    fn why_refused(&self, alloc: Global, c: u32, text: &[u8]) -> Result<Option<String>, NoMemory>
        requires { c < length (Self.format self.now).schema.columns }
        ensures { IfOk result (λ why. is_none why ≡ (judge self.now).accepts c text.now) };

    /// Returns whether a header may have fields that name no column.
    fn passes_over_others(&self) -> bool;
}
