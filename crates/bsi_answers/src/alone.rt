//! Answers one record by its line, on the thread that asks (`write_answer_line`).

ghost use Rattle.std.specs.Prelude.{OnOk};
ghost use Rattle.bsi_answers.specs.AskLines.{IsAskLineBy};
ghost use Rattle.bsi_syntax.specs.Notations.{AppendsText};
ghost use Rattle.bsi_syntax.specs.Reading.{texts};

use crate::NoMemory;
use crate::reply_lines::write_reply_line;
use bsi_aggregates::{GroupError, QuestionReply, answer};
use bsi_rows::AskError;
use bsi_syntax::{Grammar, Notation, QuestionError, Vocabulary, read_question, write_bad};
use bsi_table::Index;
use std::alloc::Global;

/// Appends the line that answers the fields of a record over the rows of an index, where a vocabulary says what their
/// words mean and how numbers of columns are written.
pub fn write_answer_line<V: Vocabulary + Notation>(
    alloc: Global,
    table: &Index,
    vocabulary: &V,
    grammar: Grammar,
    fields: &[&[u8]],
    line: &mut Vec<u8>,
) -> Result<(), NoMemory>
    ensures { OnOk result (AppendsText (IsAskLineBy grammar (V.words vocabulary.now)
        (V.number_texts vocabulary.now) table.now.schema table.now.rows (texts fields.now))
        line.old.items line.new.items) }
{
    write_line_unless(alloc, table, vocabulary, grammar, fields, true, line)
}

/// Appends the line of a record, as `write_answer_line`, but that refused memory may be what the line says.
pub(crate) fn write_any_line<V: Vocabulary + Notation>(
    alloc: Global,
    table: &Index,
    vocabulary: &V,
    grammar: Grammar,
    fields: &[&[u8]],
    line: &mut Vec<u8>,
) -> Result<(), NoMemory>
    ensures { OnOk result (AppendsText (IsAskLineBy grammar (V.words vocabulary.now)
        (V.number_texts vocabulary.now) table.now.schema table.now.rows (texts fields.now))
        line.old.items line.new.items) }
{
    write_line_unless(alloc, table, vocabulary, grammar, fields, false, line)
}

/// Appends the line of a record, unless memory was refused to its reply and that is to be returned.
fn write_line_unless<V: Vocabulary + Notation>(
    alloc: Global,
    table: &Index,
    vocabulary: &V,
    grammar: Grammar,
    fields: &[&[u8]],
    is_returned: bool,
    line: &mut Vec<u8>,
) -> Result<(), NoMemory>
    ensures { OnOk result (AppendsText (IsAskLineBy grammar (V.words vocabulary.now)
        (V.number_texts vocabulary.now) table.now.schema table.now.rows (texts fields.now))
        line.old.items line.new.items) }
{
    let question = match read_question(alloc, vocabulary, grammar, fields) {
        Ok(question) => question,
        Err(QuestionError::Stopped(_)) => return write_bad(line),
        Err(QuestionError::NoMemory) => return Err(NoMemory),
    };
    let reply = answer(alloc, table, &question);
    if is_returned && found_no_memory(&reply) {
        return Err(NoMemory);
    }
    write_reply_line(&question, reply, table, vocabulary, line)
}

/// Returns whether memory was refused to a reply.
fn found_no_memory(reply: &QuestionReply) -> bool {
    matches!(
        reply,
        QuestionReply::Total(Err(AskError::NoMemory))
            | QuestionReply::Groups(Err(GroupError::NoMemory))
            | QuestionReply::Top(Err(AskError::NoMemory))
            | QuestionReply::Distinct(Err(AskError::NoMemory))
            | QuestionReply::Quantile(Err(AskError::NoMemory))
    )
}
