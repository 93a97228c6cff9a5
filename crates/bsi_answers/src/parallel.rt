//! Answers each of several questions over one index, on several threads (`answer_each`).

ghost use Rattle.std.specs.Prelude.{IfOk};
ghost use Rattle.std.specs.List.{AllZip};
ghost use Rattle.bsi_aggregates.specs.QuestionReplies.{IsQuestionReply};

use crate::NoMemory;
use bsi_aggregates::{QuestionReply, answer};
use bsi_rows::Question;
use bsi_table::Index;
use rayon::prelude::*;
use std::alloc::Global;
use std::thread::Threads;

/// Answers each question over all rows of an index, in order of the questions, on as many threads as there are
/// processors. The replies are those of `answer`. It takes memory for their list and for the threads.
pub fn answer_each<R: Threads + Sync>(
    rt: &R,
    alloc: Global,
    index: &Index,
    questions: &[Question],
) -> Result<Vec<QuestionReply>, NoMemory>
    ensures { IfOk result (λ replies. AllZip (IsQuestionReply index.now.schema index.now.rows)
        questions.now replies.items) }
{
    // A question passes over all rows, so each may be a piece of its own.
    questions
        .par_iter()
        .with_min_len(1)
        .map(
            |question: &Question| -> QuestionReply
                ensures { IsQuestionReply index.entry.now.schema index.entry.now.rows question.now
                    result }
            { answer(alloc, index, question) },
        )
        .collect(rt, alloc)
}
