//! Answers a record by the line that `bsi ask` writes for it (`reply_line`): constants and numbers are values of kinds.

ghost use Rattle.std.specs.Prelude.{◌≡◌, ◌≢◌, drop, IfErr, OnErr, OnOk};
ghost use Rattle.bsi_syntax.specs.Notations.{AppendsText};
ghost use Rattle.bsi_syntax.specs.Reading.{texts};
ghost use Rattle.bsi_ffi.specs.Lines.{IsAnswerLine, IsLineReplied};

use crate::open_index::OpenIndex;
use crate::refusal::Refusal;
use crate::serialization::copy_out;
use bsi_answers::write_answer_line;
use bsi_syntax::Grammar;
use bsi_table::NoMemory;
use std::alloc::Global;

/// Writes the line that answers the fields of a record, if the buffer is large enough, and its length.
pub(crate) fn reply_line(
    alloc: Global,
    opened: &OpenIndex,
    fields: &[&[u8]],
    line: &mut [u8],
    size: &mut usize,
) -> Result<(), Refusal>
    ensures replied { IsLineReplied opened.now (texts fields.now) line.new size.new result }
    ensures size_unchanged { IfErr result (λ why. why ≢ Refusal.BufferTooSmall → size.new ≡ size.old) }
    ensures line_unchanged { OnErr result (line.new ≡ line.old) }
    ensures rest_unchanged { OnOk result (drop size.new line.new ≡ drop size.new line.old) }
{
    let mut text = Vec::new(alloc);
    write_line(alloc, opened, fields, &mut text)?;
    copy_out(&text, line, size)
}

/// Appends the line that answers the fields of a record, by what the numbers of the index stand for.
fn write_line(
    alloc: Global,
    opened: &OpenIndex,
    fields: &[&[u8]],
    line: &mut Vec<u8>,
) -> Result<(), NoMemory>
    ensures { OnOk result (AppendsText (IsAnswerLine opened.now (texts fields.now))
        line.old.items line.new.items) }
{
    let index = opened.index();
    match opened.logical() {
        Some(logical) => write_answer_line(alloc, index, logical, Grammar::Index, fields, line),
        None => write_answer_line(alloc, index, index.schema(), Grammar::Index, fields, line),
    }
}
