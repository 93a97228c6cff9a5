//! Opens the columns that records name, beside those that are open (`open_named`).

ghost use Rattle.std.specs.Prelude.{◌≡◌, ◌<◌, ◌^◌, All, IfErr, IfOk, IfSome, length, map};
ghost use Rattle.csv.specs.Records.{fields_of};
ghost use Rattle.bsi_projection.specs.Words.{AreChosen};
ghost use Rattle.bsi_pruning.specs.Named.{IsOpenOf};
ghost use Rattle.bsi_rows.specs.Table.{Table};
ghost use Rattle.bsi_storage.specs.ChosenFiles.{AreFileHeads};
ghost use Rattle.bsi_storage.specs.Opens.{IsReadOrNoMemory};
ghost use Rattle.bsi_syntax.specs.Bytes.{Bytes};

use crate::choosing::{choose_by_records, choose_first};
use crate::open_columns::OpenColumns;
use bsi_pread::ReadAt;
use bsi_storage::{FileHeads, OpenFault};
use bsi_syntax::Vocabulary;
use csv::ByteRecord;
use std::alloc::Global;

/// Opens the columns that records name, beside those that are open already.
pub(crate) fn open_named<S: ReadAt, V: Vocabulary>(
    alloc: Global,
    file: &S,
    heads: &FileHeads,
    vocabulary: &V,
    ahead: &[ByteRecord],
    before: Option<OpenColumns>,
) -> Result<OpenColumns, OpenFault>
    requires { IfSome before (IsOpenOf (S.all_bytes file.now) heads.now.heads.items) }
    ensures open_of { IfOk result (IsOpenOf (S.all_bytes file.now) heads.now.heads.items) }
    ensures chosen { IfOk result (λ columns. All (λ fields.
        AreChosen (V.words vocabulary.now) fields columns.chosen.items) (map fields_of ahead.now)) }
    ensures fault { IfErr result (λ fault. (t : Table) → (notes kinds : Bytes) →
        AreFileHeads (S.all_bytes file.now) heads.now.heads.items t notes kinds →
        IsReadOrNoMemory fault) }
{
    match before {
        Some(columns) => open_more(alloc, file, heads, vocabulary, ahead, columns),
        None => open_first(alloc, file, heads, vocabulary, ahead),
    }
}

/// Opens the columns that the first records name, or the first column if they name none.
fn open_first<S: ReadAt, V: Vocabulary>(
    alloc: Global,
    file: &S,
    heads: &FileHeads,
    vocabulary: &V,
    ahead: &[ByteRecord],
) -> Result<OpenColumns, OpenFault>
    ensures open_of { IfOk result (IsOpenOf (S.all_bytes file.now) heads.now.heads.items) }
    ensures chosen { IfOk result (λ columns. All (λ fields.
        AreChosen (V.words vocabulary.now) fields columns.chosen.items) (map fields_of ahead.now)) }
    ensures fault { IfErr result (λ fault. (t : Table) → (notes kinds : Bytes) →
        AreFileHeads (S.all_bytes file.now) heads.now.heads.items t notes kinds →
        IsReadOrNoMemory fault) }
{
    let mut chosen = Vec::new(alloc);
    choose_by_records(alloc, vocabulary, ahead, &mut chosen)?;
    if chosen.is_empty() && chosen.push(0).is_err() {
        return Err(OpenFault::NoMemory);
    }
    open_chosen(alloc, file, heads, chosen)
}

/// Opens the columns that records name, beside those that are open already. These stay as they are if they
/// are all that is named. Otherwise all are read anew, and twice as many as before, if there are, so that a text that names
/// its columns one by one reads few columns often.
fn open_more<S: ReadAt, V: Vocabulary>(
    alloc: Global,
    file: &S,
    heads: &FileHeads,
    vocabulary: &V,
    ahead: &[ByteRecord],
    columns: OpenColumns,
) -> Result<OpenColumns, OpenFault>
    requires { IsOpenOf (S.all_bytes file.now) heads.now.heads.items columns }
    ensures open_of { IfOk result (IsOpenOf (S.all_bytes file.now) heads.now.heads.items) }
    ensures chosen { IfOk result (λ columns. All (λ fields.
        AreChosen (V.words vocabulary.now) fields columns.chosen.items) (map fields_of ahead.now)) }
    ensures fault { IfErr result (λ fault. (t : Table) → (notes kinds : Bytes) →
        AreFileHeads (S.all_bytes file.now) heads.now.heads.items t notes kinds →
        IsReadOrNoMemory fault) }
{
    let mut chosen = Vec::from_slice(alloc, &columns.chosen)?;
    choose_by_records(alloc, vocabulary, ahead, &mut chosen)?;
    if chosen.len() == columns.chosen.len() {
        return Ok(columns);
    }
    let target = columns.chosen.len().saturating_mul(2);
    drop(columns);
    choose_first(heads.schema().columns(), target, &mut chosen)?;
    open_chosen(alloc, file, heads, chosen)
}

/// Opens these columns.
fn open_chosen<S: ReadAt>(
    alloc: Global,
    file: &S,
    heads: &FileHeads,
    chosen: Vec<u32>,
) -> Result<OpenColumns, OpenFault>
    ensures open_of { IfOk result (IsOpenOf (S.all_bytes file.now) heads.now.heads.items) }
    ensures chosen { IfOk result (λ columns. columns.chosen.items ≡ chosen.items) }
    ensures fault { IfErr result (λ fault. (t : Table) → (notes kinds : Bytes) →
        AreFileHeads (S.all_bytes file.now) heads.now.heads.items t notes kinds →
        IsReadOrNoMemory fault) }
{
    // Columns may be chosen once each, so there are few of them; a reader that finds other ones has failed.
    if chosen.len() as u64 > u64::from(u32::MAX) {
        return Err(OpenFault::Read);
    }
    match heads.open_columns(alloc, file, &chosen)? {
        Some(index) => Ok(OpenColumns { index, chosen }),
        None => Err(OpenFault::Read),
    }
}
