//! Joins the candidates of the columns of two texts (`join_each`), and compares their headers.

ghost use Rattle.std.specs.Prelude.{◌≡◌, ◌≢◌, ◌<◌, ℕ, length, map, true, false, slice_index_or, OnOk};
ghost use Rattle.bsi_inference.specs.ColumnCandidates.{HaveSameForms};
ghost use Rattle.bsi_inference.specs.declared.candidates.Candidates.{Candidates};
ghost use Rattle.bsi_survey.specs.Looking.{AcceptMore, AreGrown, HaveJoined};

use crate::NoMemory;
use bsi_inference::Candidates;

/// Joins each column with the one of another text. If memory is refused, the last columns have joined theirs.
pub(crate) fn join_each(columns: &mut [Candidates], others: Vec<Candidates>) -> Result<(), NoMemory>
    requires len { length others.items ≡ length columns.old }
    requires alike { (c : ℕ) → (d : Candidates) → c < length columns.old →
        HaveSameForms (slice_index_or columns.old c d) (slice_index_or others.items c d) }
    ensures grown { AreGrown columns.old columns.new }
    ensures joined { OnOk result (AcceptMore others.items columns.new) }
    ensures kinds { OnOk result (HaveJoined columns.old others.items columns.new) }
{
    let mut others = others;
    'columns: while let Some(other) = others.pop() {
        let c = others.len();
        columns[c].join(other)?;
    }
    Ok(())
}

/// Returns whether two headers have the same fields.
pub(crate) fn are_same_fields(first: &[Vec<u8>], second: &[Vec<u8>]) -> bool
    ensures same { result ≡ true →
        map (λ field. field.items) second.now ≡ map (λ field. field.items) first.now }
    ensures other { result ≡ false →
        map (λ field. field.items) second.now ≢ map (λ field. field.items) first.now }
{
    if first.len() != second.len() {
        return false;
    }
    'fields: for k in 0..first.len() {
        if first[k].as_slice() != second[k].as_slice() {
            return false;
        }
    }
    true
}
