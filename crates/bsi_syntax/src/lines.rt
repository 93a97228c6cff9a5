//! Writes the lines that answer records: that of a reply, that of a bad record, and that of a feeder that read a file.

ghost use Rattle.std.specs.Prelude.{◌≡◌, ◌++◌, OnErr, OnOk, codes, decimal};
ghost use Rattle.bsi_syntax.specs.Lines.{answer_line, bad_line, close_line, fed_line, load_line, reply_line, rows_text, submit_line, IsAppended};

use crate::NoMemory;
use bsi_rows::{Answer, AskError, CloseRefused, LoadRefused, Reply, SubmitRefused};
use itoa::{Buffer, Integer};

/// Appends the line of a reply, with its line feed, as a whole or not at all. It allocates memory only for the line.
pub fn write_reply(reply: &Reply, line: &mut Vec<u8>) -> Result<(), NoMemory>
    ensures ok { OnOk result (line.new.items ≡ line.old.items ++ reply_line reply.now) }
    ensures err { OnErr result (line.new.items ≡ line.old.items) }
{
    let before = line.len();
    let written = append_reply(reply, line);
    if written.is_err() {
        line.truncate(before);
    }
    written
}

/// Appends the line that answers a bad record, with its line feed, as a whole or not at all.
pub fn write_bad(line: &mut Vec<u8>) -> Result<(), NoMemory>
    ensures ok { OnOk result (line.new.items ≡ line.old.items ++ bad_line) }
    ensures err { OnErr result (line.new.items ≡ line.old.items) }
{
    line.extend_from_slice(b"bad\n")
}

/// Appends the line of a feeder that read a file, with its line feed, as a whole or not at all. The line has the
/// feeder's number, how many of its rows were accepted, and how many of its records were bad.
pub fn write_fed(feeder: u32, accepted: u64, bad: u64, line: &mut Vec<u8>) -> Result<(), NoMemory>
    ensures ok { OnOk result (line.new.items ≡ line.old.items ++ fed_line feeder accepted bad) }
    ensures err { OnErr result (line.new.items ≡ line.old.items) }
{
    let before = line.len();
    let written = write_counts(feeder, accepted, bad, line);
    if written.is_err() {
        line.truncate(before);
    }
    written
}

/// Appends the line of a feeder that read a file, or a prefix of it.
fn write_counts(feeder: u32, accepted: u64, bad: u64, line: &mut Vec<u8>) -> Result<(), NoMemory>
    ensures { IsAppended line.old.items line.new.items (fed_line feeder accepted bad) result }
{
    write_pair(b"fed ", feeder, line)?;
    write_pair(b" ", accepted, line)?;
    write_pair(b" ", bad, line)?;
    line.extend_from_slice(b"\n")
}

/// Appends the line of a reply, or a prefix of it.
fn append_reply(reply: &Reply, line: &mut Vec<u8>) -> Result<(), NoMemory>
    ensures { IsAppended line.old.items line.new.items (reply_line reply.now) result }
{
    match reply {
        Reply::Submitted(reply) => write_submitted(reply, line),
        Reply::Loaded(reply) => write_loaded(*reply, line),
        Reply::Closed(reply) => write_closed(*reply, line),
        Reply::Answered(Ok(answer)) => write_answer(answer, line),
        Reply::Answered(Err(AskError::BadColumn(_))) => write_bad(line),
        Reply::Answered(Err(AskError::NoMemory)) => line.extend_from_slice(b"no memory\n"),
    }
}

/// Appends the line of a submission.
fn write_submitted(reply: &Result<(), SubmitRefused>, line: &mut Vec<u8>) -> Result<(), NoMemory>
    ensures { IsAppended line.old.items line.new.items (submit_line reply.now) result }
{
    match reply {
        Ok(()) => line.extend_from_slice(b"accepted\n"),
        Err(SubmitRefused::UnknownFeeder(_)) => line.extend_from_slice(b"no feeder\n"),
        Err(SubmitRefused::Closed(_)) => line.extend_from_slice(b"closed\n"),
        Err(SubmitRefused::Misfit(_)) => line.extend_from_slice(b"misfit\n"),
        Err(SubmitRefused::Full(_)) => line.extend_from_slice(b"full\n"),
    }
}

/// Appends the line of a load.
fn write_loaded(reply: Result<u64, LoadRefused>, line: &mut Vec<u8>) -> Result<(), NoMemory>
    ensures { IsAppended line.old.items line.new.items (load_line reply) result }
{
    match reply {
        Ok(position) => write_line(b"loaded ", position, line),
        Err(LoadRefused::UnknownFeeder) => line.extend_from_slice(b"no feeder\n"),
        Err(LoadRefused::Ended) => line.extend_from_slice(b"ended\n"),
        Err(LoadRefused::Empty) => line.extend_from_slice(b"empty\n"),
        Err(LoadRefused::IndexFull) => line.extend_from_slice(b"index full\n"),
        Err(LoadRefused::NoMemory) => line.extend_from_slice(b"no memory\n"),
    }
}

/// Appends the line of a closing.
fn write_closed(reply: Result<(), CloseRefused>, line: &mut Vec<u8>) -> Result<(), NoMemory>
    ensures { IsAppended line.old.items line.new.items (close_line reply) result }
{
    match reply {
        Ok(()) => line.extend_from_slice(b"ok\n"),
        Err(CloseRefused::UnknownFeeder) => line.extend_from_slice(b"no feeder\n"),
        Err(CloseRefused::AlreadyClosed) => line.extend_from_slice(b"closed\n"),
    }
}

/// Appends the line of an answer.
fn write_answer(answer: &Answer, line: &mut Vec<u8>) -> Result<(), NoMemory>
    ensures { IsAppended line.old.items line.new.items (answer_line answer.now) result }
{
    match answer {
        Answer::Count(count) => write_line(b"count ", *count, line),
        Answer::Sum(sum) => write_line(b"sum ", *sum, line),
        Answer::Value(None) => line.extend_from_slice(b"none\n"),
        Answer::Value(Some(number)) => write_line(b"value ", i128::from(*number), line),
        Answer::Rows(rows) => write_rows(rows, line),
    }
}

/// Appends a word and a number.
fn write_pair<I: Integer>(word: &[u8], number: I, line: &mut Vec<u8>) -> Result<(), NoMemory>
    ensures { IsAppended line.old.items line.new.items (word.now ++ I.text number) result }
{
    let mut digits = Buffer::new();
    line.extend_from_slice(word)?;
    line.extend_from_slice(digits.format(number).as_bytes())
}

/// Appends a word and a number, and the line feed.
fn write_line<I: Integer>(word: &[u8], number: I, line: &mut Vec<u8>) -> Result<(), NoMemory>
    ensures { IsAppended line.old.items line.new.items
        (word.now ++ I.text number ++ codes "\n") result }
{
    write_pair(word, number, line)?;
    line.extend_from_slice(b"\n")
}

/// Appends the line that answers `list`.
fn write_rows(rows: &[(u32, u64)], line: &mut Vec<u8>) -> Result<(), NoMemory>
    ensures { IsAppended line.old.items line.new.items
        (codes "rows" ++ rows_text rows.now ++ codes "\n") result }
{
    line.extend_from_slice(b"rows")?;
    write_each_row(rows, line)?;
    line.extend_from_slice(b"\n")
}

/// Appends rows, each with a space before it.
fn write_each_row(rows: &[(u32, u64)], line: &mut Vec<u8>) -> Result<(), NoMemory>
    ensures { IsAppended line.old.items line.new.items (rows_text rows.now) result }
{
    'rows: for row in rows {
        let (feeder, number) = *row;
        write_row(feeder, number, line)?;
    }
    Ok(())
}

/// Appends a space, a row's feeder and the row's number among that feeder's rows.
fn write_row(feeder: u32, number: u64, line: &mut Vec<u8>) -> Result<(), NoMemory>
    ensures { IsAppended line.old.items line.new.items
        (codes " " ++ decimal feeder ++ codes ":" ++ decimal number) result }
{
    write_pair(b" ", feeder, line)?;
    write_pair(b":", number, line)
}
