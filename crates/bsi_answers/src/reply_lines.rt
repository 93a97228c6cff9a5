//! Writes the reply to a question as its line: a total, groups, first rows, or a number (`write_reply_line`). The numbers
//! of a column are written as its notation has them.

ghost use Rattle.std.specs.Prelude.{◌≡◌, ◌<◌, ◌++◌, codes, OnOk, Ok, Err, length, slice_index};
ghost use Rattle.bsi_syntax.specs.Lines.{ask_line};
ghost use Rattle.bsi_syntax.specs.Notations.{AppendsText};
ghost use Rattle.bsi_rows.specs.Rows.{feeders_of};
ghost use Rattle.bsi_answers.specs.ReplyLines.{asked_column, distinct_line, group_columns, groups_line, origin_text, total_column, AreEntries, AreTexts, AreWithin, HasRowsWithin, IsEntryText, IsGroupText, IsListLine, IsNumberLine, IsQuantileLine, IsReplyLine, IsRowText, IsTotalLine, IsValueText};

use crate::NoMemory;
use bsi_aggregates::{Group, GroupError, Groups, QuestionReply, TopRow};
use bsi_rows::{AskError, Question, Reply, Total};
use bsi_syntax::{Notation, write_bad, write_reply};
use bsi_table::{Answer, Index};
use itoa::{Buffer, Integer};

/// Appends the line of a reply to a question over the rows of an index.
pub(crate) fn write_reply_line<N: Notation>(
    asked: &Question,
    reply: QuestionReply,
    table: &Index,
    notation: &N,
    line: &mut Vec<u8>,
) -> Result<(), NoMemory>
    requires { HasRowsWithin (length table.now.rows) reply }
    ensures { OnOk result (AppendsText (IsReplyLine (N.number_texts notation.now)
        (feeders_of table.now.rows) asked.now reply) line.old.items line.new.items) }
{
    let c = find_asked_column(asked);
    match reply {
        QuestionReply::Total(reply) => write_total(reply, notation, c, line),
        QuestionReply::Groups(Ok(groups)) => {
            write_groups(&groups, notation, list_group_columns(asked), c, line)
        }
        QuestionReply::Groups(Err(refused)) => write_no_groups(refused, line),
        QuestionReply::Top(Ok(rows)) => write_top(&rows, table, notation, c, line),
        QuestionReply::Top(Err(refused)) => write_refused(refused, line),
        QuestionReply::Distinct(counted) => write_count(counted, line),
        QuestionReply::Quantile(quantile) => write_quantile(quantile, notation, c, line),
    }
}

/// Returns the column of the numbers that a question asks for, or 0 if it asks for none.
fn find_asked_column(asked: &Question) -> u32
    ensures { result ≡ asked_column asked.now }
{
    match asked {
        Question::Total(query) | Question::Groups(query, _) => find_total_column(query.total),
        Question::Top(_, c, _, _) | Question::Distinct(c, _) | Question::Quantile(_, c, _) => *c,
    }
}

/// Returns the column of a total, or 0 if it is of none.
fn find_total_column(total: Total) -> u32
    ensures { result ≡ total_column total }
{
    match total {
        Total::Count | Total::Rows => 0,
        Total::Sum(c) | Total::Least(c) | Total::Greatest(c) | Total::Median(c) => c,
        Total::Rank(c, _) => c,
    }
}

/// Lends the columns of the groups that a question asks for, or none if it asks for no groups.
fn list_group_columns(asked: &Question) -> &[u32]
    ensures { result.now ≡ group_columns asked.now }
{
    match asked {
        Question::Groups(_, by) => by.as_slice(),
        Question::Total(_)
        | Question::Top(_, _, _, _)
        | Question::Distinct(_, _)
        | Question::Quantile(_, _, _) => &[],
    }
}

/// Appends the line of a total of column `c`.
fn write_total<N: Notation>(
    reply: Result<Answer, AskError>,
    notation: &N,
    c: u32,
    line: &mut Vec<u8>,
) -> Result<(), NoMemory>
    ensures { OnOk result (AppendsText (IsTotalLine (N.number_texts notation.now c) reply)
        line.old.items line.new.items) }
{
    match reply {
        Ok(Answer::Count(count)) => write_answer(Answer::Count(count), line),
        Ok(Answer::Sum(sum)) => write_number_line(b"sum ", notation, c, sum, line),
        Ok(Answer::Value(None)) => write_answer(Answer::Value(None), line),
        Ok(Answer::Value(Some(number))) => {
            write_number_line(b"value ", notation, c, i128::from(number), line)
        }
        Ok(Answer::Rows(rows)) => write_answer(Answer::Rows(rows), line),
        Err(refused) => write_refused(refused, line),
    }
}

/// Appends the line of an answer, its numbers as whole numbers.
fn write_answer(answer: Answer, line: &mut Vec<u8>) -> Result<(), NoMemory>
    ensures { OnOk result (line.new.items ≡ line.old.items ++ ask_line (Ok answer)) }
{
    write_reply(&Reply::Answered(Ok(answer)), line)
}

/// Appends a word, the text of a number of column `c`, and the line feed.
fn write_number_line<N: Notation>(
    word: &[u8],
    notation: &N,
    c: u32,
    number: i128,
    line: &mut Vec<u8>,
) -> Result<(), NoMemory>
    ensures { OnOk result (AppendsText (IsNumberLine (N.number_texts notation.now c) word.now number)
        line.old.items line.new.items) }
{
    line.extend_from_slice(word)?;
    notation.write_number(c, number, line)?;
    line.extend_from_slice(b"\n")
}

/// Appends the line of a refusal.
fn write_refused(refused: AskError, line: &mut Vec<u8>) -> Result<(), NoMemory>
    ensures { OnOk result (line.new.items ≡ line.old.items ++ ask_line (Err refused)) }
{
    write_reply(&Reply::Answered(Err(refused)), line)
}

/// Appends the line of a count.
fn write_count(counted: Result<u64, AskError>, line: &mut Vec<u8>) -> Result<(), NoMemory>
    ensures { OnOk result (line.new.items ≡ line.old.items ++ distinct_line counted) }
{
    write_reply(
        &Reply::Answered(counted.map(|count| Answer::Count(count))),
        line,
    )
}

/// Appends the line of a number of column `c` that was asked for, or that there is none.
fn write_quantile<N: Notation>(
    quantile: Result<Option<i64>, AskError>,
    notation: &N,
    c: u32,
    line: &mut Vec<u8>,
) -> Result<(), NoMemory>
    ensures { OnOk result (AppendsText (IsQuantileLine (N.number_texts notation.now c) quantile)
        line.old.items line.new.items) }
{
    match quantile {
        Ok(number) => write_total(Ok(Answer::Value(number)), notation, c, line),
        Err(refused) => write_total(Err(refused), notation, c, line),
    }
}

/// Appends the line of groups by columns, whose answers are about column `c`.
fn write_groups<N: Notation>(
    groups: &Groups,
    notation: &N,
    by: &[u32],
    c: u32,
    line: &mut Vec<u8>,
) -> Result<(), NoMemory>
    ensures { OnOk result (AppendsText (IsListLine (IsGroupText (N.number_texts notation.now) by.now c)
        (codes "groups") groups.now.groups) line.old.items line.new.items) }
{
    line.extend_from_slice(b"groups")?;
    write_each_group(groups, notation, by, c, line)?;
    line.extend_from_slice(b"\n")
}

/// Appends the line that says why there are no groups.
fn write_no_groups(refused: GroupError, line: &mut Vec<u8>) -> Result<(), NoMemory>
    ensures { OnOk result (line.new.items ≡ line.old.items ++ groups_line (Err refused)) }
{
    match refused {
        GroupError::TooMany => line.extend_from_slice(b"more than 65536 groups\n"),
        GroupError::NoMemory => line.extend_from_slice(b"no memory\n"),
        GroupError::BadColumn(_) => write_bad(line),
    }
}

/// Appends groups, each with a space before it.
fn write_each_group<N: Notation>(
    groups: &Groups,
    notation: &N,
    by: &[u32],
    c: u32,
    line: &mut Vec<u8>,
) -> Result<(), NoMemory>
    ensures { OnOk result (AppendsText (AreTexts (IsGroupText (N.number_texts notation.now) by.now c)
        groups.now.groups) line.old.items line.new.items) }
{
    'groups: for k in 0..groups.len() {
        write_group(groups.get(k), notation, by, c, line)?;
    }
    Ok(())
}

/// Appends a space, the entries of a group, and its answer.
fn write_group<N: Notation>(
    group: Group<'_>,
    notation: &N,
    by: &[u32],
    c: u32,
    line: &mut Vec<u8>,
) -> Result<(), NoMemory>
    ensures { OnOk result (AppendsText (IsGroupText (N.number_texts notation.now) by.now c
        (record { entries = group.entry.entries.now; answer = group.entry.answer.now }))
        line.old.items line.new.items) }
{
    line.extend_from_slice(b" ")?;
    write_entries(group.entries, notation, by, line)?;
    line.extend_from_slice(b"=")?;
    write_value(group.answer, notation, c, line)
}

/// Appends the entries of a group, each by its column, with a colon between two.
fn write_entries<N: Notation>(
    entries: &[Option<i64>],
    notation: &N,
    by: &[u32],
    line: &mut Vec<u8>,
) -> Result<(), NoMemory>
    ensures { OnOk result (AppendsText (AreEntries (N.number_texts notation.now) by.now entries.now)
        line.old.items line.new.items) }
{
    'entries: for (at, entry) in entries.iter().enumerate() {
        if at > 0 {
            line.extend_from_slice(b":")?;
        }
        write_entry(*entry, notation, find_column_at(by, at), line)?;
    }
    Ok(())
}

/// Returns the column at an index of a list, or 0 past its end.
fn find_column_at(columns: &[u32], at: usize) -> u32
    ensures { result ≡ slice_index columns.now at }
{
    if at < columns.len() { columns[at] } else { 0 }
}

/// Appends the entry of a group in column `c`.
fn write_entry<N: Notation>(
    entry: Option<i64>,
    notation: &N,
    c: u32,
    line: &mut Vec<u8>,
) -> Result<(), NoMemory>
    ensures { OnOk result (AppendsText (IsEntryText (N.number_texts notation.now c) entry)
        line.old.items line.new.items) }
{
    match entry {
        None => line.extend_from_slice(b"null"),
        Some(number) => notation.write_number(c, i128::from(number), line),
    }
}

/// Appends the number of an answer about column `c`, or that it is none. An answer that lists rows has no text.
fn write_value<N: Notation>(
    answer: &Answer,
    notation: &N,
    c: u32,
    line: &mut Vec<u8>,
) -> Result<(), NoMemory>
    ensures { OnOk result (AppendsText (IsValueText (N.number_texts notation.now c) answer.now)
        line.old.items line.new.items) }
{
    match answer {
        Answer::Count(count) => write_whole(*count, line),
        Answer::Sum(sum) => notation.write_number(c, *sum, line),
        Answer::Value(None) => line.extend_from_slice(b"none"),
        Answer::Value(Some(number)) => notation.write_number(c, i128::from(*number), line),
        Answer::Rows(_) => Ok(()),
    }
}

/// Appends a whole number.
fn write_whole<I: Integer>(number: I, line: &mut Vec<u8>) -> Result<(), NoMemory>
    ensures { OnOk result (line.new.items ≡ line.old.items ++ I.text number) }
{
    line.extend_from_slice(Buffer::new().format(number).as_bytes())
}

/// Appends the line of first rows of an index by column `c`.
fn write_top<N: Notation>(
    rows: &[TopRow],
    table: &Index,
    notation: &N,
    c: u32,
    line: &mut Vec<u8>,
) -> Result<(), NoMemory>
    requires { AreWithin (length table.now.rows) rows.now }
    ensures { OnOk result (AppendsText (IsListLine (IsRowText (N.number_texts notation.now c)
        (feeders_of table.now.rows)) (codes "top") rows.now) line.old.items line.new.items) }
{
    line.extend_from_slice(b"top")?;
    write_each_row(rows, table, notation, c, line)?;
    line.extend_from_slice(b"\n")
}

/// Appends rows of an index, each with a space before it.
fn write_each_row<N: Notation>(
    rows: &[TopRow],
    table: &Index,
    notation: &N,
    c: u32,
    line: &mut Vec<u8>,
) -> Result<(), NoMemory>
    requires { AreWithin (length table.now.rows) rows.now }
    ensures { OnOk result (AppendsText (AreTexts (IsRowText (N.number_texts notation.now c)
        (feeders_of table.now.rows)) rows.now) line.old.items line.new.items) }
{
    'rows: for row in rows {
        write_row(row, table, notation, c, line)?;
    }
    Ok(())
}

/// Appends a space, the feeder of a row, its number among that feeder's rows, and its number in column `c`.
fn write_row<N: Notation>(
    row: &TopRow,
    table: &Index,
    notation: &N,
    c: u32,
    line: &mut Vec<u8>,
) -> Result<(), NoMemory>
    requires { row.now.row < length table.now.rows }
    ensures { OnOk result (AppendsText (IsRowText (N.number_texts notation.now c)
        (feeders_of table.now.rows) row.now) line.old.items line.new.items) }
{
    write_origin(row, table, line)?;
    write_row_number(row, notation, c, line)
}

/// Appends the number of a row in column `c`.
fn write_row_number<N: Notation>(
    row: &TopRow,
    notation: &N,
    c: u32,
    line: &mut Vec<u8>,
) -> Result<(), NoMemory>
    ensures { OnOk result (AppendsText (N.number_texts notation.now c row.now.number)
        line.old.items line.new.items) }
{
    notation.write_number(c, i128::from(row.number), line)
}

/// Appends a space, the feeder of a row, its number among that feeder's rows, and a sign behind them.
fn write_origin(row: &TopRow, table: &Index, line: &mut Vec<u8>) -> Result<(), NoMemory>
    requires { row.now.row < length table.now.rows }
    ensures { OnOk result (line.new.items
        ≡ line.old.items ++ origin_text (feeders_of table.now.rows) row.now) }
{
    line.extend_from_slice(b" ")?;
    write_whole(table.row_feeders()[row.row as usize], line)?;
    line.extend_from_slice(b":")?;
    write_whole(table.row_number(row.row), line)?;
    line.extend_from_slice(b"=")
}
