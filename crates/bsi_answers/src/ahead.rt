//! Reads records of a text ahead: several, before the question of the first is answered (`read_ahead`).

ghost use Rattle.std.specs.Prelude.{◌≡◌, ◌≤◌, None, IfErr, IfOk, map, true};
ghost use Rattle.csv.specs.Records.{fields_of};
ghost use Rattle.bsi_input.specs.Formats.{max_records};
ghost use Rattle.bsi_input.specs.Sources.{HasNext};
ghost use Rattle.bsi_answers.specs.Faults.{may_follow_output};
ghost use Rattle.bsi_answers.specs.ReadAhead.{FailsAhead, ReadsAhead, ReadsOne};

use crate::{FilesFault, Which};
use bsi_input::{RecordAwareReader, RecordSource};
use csv::ByteRecord;
use std::alloc::Global;
use std::io::Read;

/// The most records that are read ahead.
const MAX_AHEAD: u64 = 64;

/// Reads the next records of a text, at most 64, while the next one was already read as a whole. So no bytes are asked for
/// beside a question that waits for its answer. A question whose answer may grow with the rows is the last of them, so
/// there is one such answer at most. Returns whether there may be more records.
pub fn read_ahead<A: Read + Drop>(
    alloc: Global,
    records: &mut RecordSource<RecordAwareReader<A>>,
    ahead: &mut Vec<ByteRecord>,
) -> Result<bool, FilesFault>
    requires going { records.old.end ≡ None }
    requires few { records.old.read_so_far ≤ max_records }
    ensures follows_output { IfErr result (λ fault. may_follow_output fault ≡ true) }
    ensures reads { IfOk result
        (ReadsAhead (λ w. A.remaining w.inner) records.old records.new (map fields_of ahead.new.items)) }
    ensures stopped { IfErr result
        (FailsAhead (λ w. A.remaining w.inner) records.old (map fields_of ahead.new.items)) }
{
    ahead.clear();
    'records: for _ in 0..MAX_AHEAD {
        let more = read_one(alloc, records, ahead)?;
        if !more || ends_in_long_answer(ahead) || !records.has_buffered_record() {
            return Ok(more);
        }
    }
    Ok(true)
}

/// Reads the next record behind the others that were read ahead. Returns false if there is none.
fn read_one<A: Read + Drop>(
    alloc: Global,
    records: &mut RecordSource<RecordAwareReader<A>>,
    ahead: &mut Vec<ByteRecord>,
) -> Result<bool, FilesFault>
    requires { records.old.end ≡ None }
    ensures follows_output { IfErr result (λ fault. may_follow_output fault ≡ true) }
    ensures reads { IfOk result (ReadsOne (λ w. A.remaining w.inner) records.old records.new
        (map fields_of ahead.old.items) (map fields_of ahead.new.items)) }
    ensures unchanged { IfErr result (λ _. ahead.new.items ≡ ahead.old.items) }
    ensures too_long { IfErr result (λ fault. fault ≡ FilesFault.TooLong Which.AsksFile →
        (records.old.read_so_far ≡ max_records) × HasNext (λ w. A.remaining w.inner) records.old.input) }
{
    let mut record = ByteRecord::new(alloc);
    match records.next_record(&mut record) {
        Ok(true) => {}
        Ok(false) => return Ok(false),
        Err(fault) => return Err(FilesFault::of_text(Which::AsksFile, fault)),
    }
    match ahead.push(record) {
        Ok(()) => Ok(true),
        Err(_) => Err(FilesFault::NoMemory),
    }
}

/// Returns whether the answer to the last record may grow with the rows: it is of a list, of groups or of first rows.
fn ends_in_long_answer(ahead: &[ByteRecord]) -> bool {
    let Some(record) = ahead.last() else {
        return false;
    };
    let Some(word) = record.get(0) else {
        return false;
    };
    word == b"list".as_slice()
        || word == b"by".as_slice()
        || word == b"top".as_slice()
        || word == b"bottom".as_slice()
}
