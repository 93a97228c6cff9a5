//! Checks a file of questions (`check_asks`): counts the records that are none, and adds the reasons of the first 100.

ghost use Rattle.std.specs.Prelude.{◌≡◌, ◌≢◌, IfErr, IfOk, IfSome, OnOk};
ghost use Rattle.csv.specs.Reading.{reader_state, source_of};
ghost use Rattle.csv.specs.Records.{fields_of};
ghost use Rattle.csv.specs.declared.parser.State.TheVariants as st;
ghost use Rattle.bsi_input.specs.Sources.{IsPlainReader};
ghost use Rattle.bsi_input.specs.Texts.{ForText};
ghost use Rattle.bsi_check.specs.Checks.{AreCountedAsks, AreTooManyAsks, IsAskVerdict, IsAsksFinding};
ghost use Rattle.bsi_check.specs.Reasons.{AddsAsksReasons, AddsBadRecordReasons, AddsFirstReasons, AddsOneReason, AddsSomeReasons};

use crate::NoMemory;
use crate::diagnostics::why_no_ask;
use crate::finding::AsksFinding;
use crate::lines::{Lines, MAX_REASONS, add_more_bad, add_reason_at};
use crate::rows::add_unread;
use bsi_input::{MAX_RECORDS, SourceFault, plain_reader, read_next};
use bsi_logical::{LogicalSchema, TableSchema};
use bsi_schema::Schema;
use bsi_syntax::{Grammar, QuestionError, lend_fields, read_query, read_question};
use csv::{ByteRecord, Reader};
use std::alloc::Global;
use std::io::Read;

/// Reads the asks to their end, and adds the reason of each that is no question to `reasons`, at most 100 of them. It
/// returns how many are none, or, with the reason added, why the asks were not read to their end.
pub(crate) fn check_asks<A: Read + Drop>(
    alloc: Global,
    schema: &TableSchema,
    path: &str,
    asks: A,
    reasons: &mut Vec<u8>,
) -> Result<AsksFinding, NoMemory>
    ensures finding { IfOk result (λ finding.
        IfSome (A.remaining asks) (IsAsksFinding schema.now finding)) }
    ensures reported { IfOk result (λ finding.
        AddsAsksReasons path.now finding reasons.old.items reasons.new.items) }
{
    let mut input = plain_reader(alloc, asks);
    match check_each_ask(alloc, schema, path, &mut input, reasons) {
        Ok(bad) => Ok(AsksFinding::Counted(bad)),
        Err(fault) => {
            add_unread(alloc, path, fault, reasons)?;
            Ok(AsksFinding::Unread(fault))
        }
    }
}

/// Reads the asks of a text of which no record was read, adds the reason of each that is no question, at most 100 of them,
/// and how many more there are, and returns how many are none.
fn check_each_ask<A: Read + Drop>(
    alloc: Global,
    schema: &TableSchema,
    path: &str,
    input: &mut Reader<A>,
    reasons: &mut Vec<u8>,
) -> Result<u64, SourceFault>
    requires plain { IsPlainReader input.old }
    requires start { reader_state input.old ≡ st.StartRecord }
    ensures counted { IfOk result (λ bad. ForText (source_of A.remaining input.old)
        (AreCountedAsks schema.now bad)) }
    ensures reported { IfOk result (λ bad.
        AddsBadRecordReasons path.now bad reasons.old.items reasons.new.items) }
    ensures some_reasons { IfErr result (λ fault. fault ≢ SourceFault.NoMemory →
        AddsSomeReasons path.now reasons.old.items reasons.new.items) }
    ensures later { IfErr result (λ fault. fault ≢ SourceFault.BadHeader) }
    ensures too_long { IfErr result (λ fault. fault ≡ SourceFault.TooLong →
        ForText (source_of A.remaining input.old) AreTooManyAsks) }
{
    let bad = count_asks(alloc, schema, path, input, reasons)?;
    if bad > MAX_REASONS {
        add_more_bad(alloc, reasons, path, bad)?;
    }
    Ok(bad)
}

/// Reads the asks of a text of which no record was read, adds the reason of each of the first 100 that are no questions,
/// and returns how many are none.
fn count_asks<A: Read + Drop>(
    alloc: Global,
    schema: &TableSchema,
    path: &str,
    input: &mut Reader<A>,
    reasons: &mut Vec<u8>,
) -> Result<u64, SourceFault>
    requires plain { IsPlainReader input.old }
    requires start { reader_state input.old ≡ st.StartRecord }
    ensures counted { IfOk result (λ bad. ForText (source_of A.remaining input.old)
        (AreCountedAsks schema.now bad)) }
    ensures reported { IfOk result (λ bad.
        AddsFirstReasons path.now bad reasons.old.items reasons.new.items) }
    ensures some_reasons { IfErr result (λ fault. fault ≢ SourceFault.NoMemory →
        AddsSomeReasons path.now reasons.old.items reasons.new.items) }
    ensures later { IfErr result (λ fault. fault ≢ SourceFault.BadHeader) }
    ensures too_long { IfErr result (λ fault. fault ≡ SourceFault.TooLong →
        ForText (source_of A.remaining input.old) AreTooManyAsks) }
{
    let (mut records, mut bad) = (0u64, 0u64);
    let mut fields = ByteRecord::new(alloc);
    let mut lines = Lines::new();
    'records: while records < MAX_RECORDS {
        if !read_next(input, &mut fields)? {
            return Ok(bad);
        }
        lines.advance(&fields, input.position());
        let asks = is_ask(alloc, schema, &fields)?;
        records += 1;
        if asks {
            continue;
        }
        bad += 1;
        if bad <= MAX_REASONS {
            let line = lines.line_of(&fields, input.position());
            add_no_ask(alloc, schema, path, line, &fields, reasons)?;
        }
    }
    if read_next(input, &mut fields)? {
        return Err(SourceFault::TooLong);
    }
    Ok(bad)
}

/// Adds the reason why a record is no question.
fn add_no_ask(
    alloc: Global,
    schema: &TableSchema,
    path: &str,
    line: u64,
    fields: &ByteRecord,
    reasons: &mut Vec<u8>,
) -> Result<(), NoMemory>
    ensures { OnOk result (AddsOneReason path.now reasons.old.items reasons.new.items) }
{
    let why = why_no_ask(alloc, schema, fields, line)?;
    add_reason_at(alloc, reasons, path, line, why.as_str())
}

/// Returns whether a record is a question over the table.
fn is_ask(alloc: Global, schema: &TableSchema, fields: &ByteRecord) -> Result<bool, NoMemory>
    ensures { IfOk result (IsAskVerdict schema.now (fields_of fields.now)) }
{
    match schema {
        TableSchema::Plain(schema) => is_query(alloc, schema, fields),
        TableSchema::Logical(format) => is_question(alloc, format.logical(), fields),
    }
}

/// Returns whether a record is a query over whole numbers.
fn is_query(alloc: Global, schema: &Schema, fields: &ByteRecord) -> Result<bool, NoMemory>
    ensures { IfOk result (IsAskVerdict (TableSchema.Plain schema.now) (fields_of fields.now)) }
{
    let query = read_query(alloc, schema, fields)?;
    Ok(query.is_some())
}

/// Returns whether a record is a question over kinds, as `bsi ask` reads it.
fn is_question(
    alloc: Global,
    logical: &LogicalSchema,
    fields: &ByteRecord,
) -> Result<bool, NoMemory>
    ensures { IfOk result (IsAskVerdict (TableSchema.Logical logical.now) (fields_of fields.now)) }
{
    let lent = lend_fields(alloc, fields)?;
    match read_question(alloc, logical, Grammar::Index, &lent) {
        Ok(_) => Ok(true),
        Err(QuestionError::Stopped(_)) => Ok(false),
        Err(QuestionError::NoMemory) => Err(NoMemory),
    }
}
