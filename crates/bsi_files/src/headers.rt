//! Reads the headers of the row files before any row is read, and gives the capacity of each file's ring.

ghost use Rattle.std.specs.Prelude.{◌≡◌, ◌≤◌, IfErr, IfOk, length, map, replicate, true};
ghost use Rattle.bsi_files.specs.Feeding.{max_batch_rows};
ghost use Rattle.bsi_files.specs.Begun.{Begins};
ghost use Rattle.std.specs.List.{AllZip};
ghost use Rattle.bsi_answers.specs.Faults.{raised_at_headers};
ghost use Rattle.bsi_files.specs.Headers.{IsHeaderFault, IsHeadersFault};
ghost use Rattle.bsi_rows.specs.Table.{max_feeders};

use crate::{FilesFault, MAX_BATCH_ROWS, NoMemory};
use bsi_answers::file_number;
use bsi_input::{RowFormat, RowSource};
use std::alloc::Global;
use std::io::Read;

/// Reads the header of each file, in their order, and makes the sources of their rows.
pub(crate) fn begin_all<I: Read + Drop, F: RowFormat + Drop>(
    alloc: Global,
    format: &F,
    readers: Vec<I>,
) -> Result<Vec<RowSource<I, F>>, FilesFault>
    requires few { length readers.items ≤ max_feeders }
    ensures first { IfErr result (λ fault. raised_at_headers fault ≡ true) }
    ensures fault { IfErr result (IsHeadersFault (F.format format.now) (map I.remaining readers.items)) }
    ensures begun { IfOk result (λ sources.
        AllZip (Begins F.format I.remaining (F.format format.now)) readers.items sources.items) }
{
    let mut sources = Vec::with_capacity(alloc, readers.len())?;
    'files: for reader in readers {
        let number = sources.len();
        let source = begin(alloc, format, reader, file_number(number))?;
        if sources.push(source).is_err() {
            return Err(FilesFault::NoMemory);
        }
    }
    Ok(sources)
}

/// Reads the header of the file of this number, and makes the source of its rows.
fn begin<I: Read + Drop, F: RowFormat + Drop>(
    alloc: Global,
    format: &F,
    reader: I,
    number: u32,
) -> Result<RowSource<I, F>, FilesFault>
    ensures first { IfErr result (λ fault. raised_at_headers fault ≡ true) }
    ensures fault { IfErr result (IsHeaderFault (F.format format.now) (I.remaining reader) number) }
    ensures begun { IfOk result (Begins F.format I.remaining (F.format format.now) reader) }
{
    RowSource::begin(alloc, format, reader).map_err(|fault| FilesFault::Source(number, fault))
}

/// Returns the capacity of each file's ring: as many of its rows may wait for the loader as a batch has.
pub(crate) fn capacities(alloc: Global, files: usize) -> Result<Vec<u32>, NoMemory>
    ensures many { IfOk result (λ made. length made.items ≡ files) }
    ensures each { IfOk result (λ made. made.items ≡ replicate files max_batch_rows) }
{
    vec![in alloc; MAX_BATCH_ROWS as u32; files]
}
