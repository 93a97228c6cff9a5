//! Answers a question of an index (`answer`): a total, groups, first rows, different numbers or a quantile; and sorts
//! the rows of an answer by feeder (`arrange_answer`).

ghost use Rattle.std.specs.Prelude.{List};
ghost use Rattle.bsi_rows.specs.Answers.{IsAnswer};
ghost use Rattle.bsi_rows.specs.Rows.{SourcedRow};
ghost use Rattle.bsi_rows.specs.declared.query.Query.{Query};
ghost use Rattle.bsi_aggregates.specs.QuestionReplies.{IsArrangedAnswer, IsQuestionReply};

use crate::distinct_numbers::distinct;
use crate::grouping::{GroupError, group_by};
use crate::groups::Groups;
use crate::quantiles::quantile;
use crate::tops::{TopRow, top};
use bsi_rows::{Question, arrange};
use bsi_table::{Answer, AskError, Index, Query};
use std::alloc::Global;

/// The most groups of a reply to a question.
pub const MAX_GROUPS: usize = 65_536;

/// The reply to a question: what it asks for, or why that can't be had.
#[derive(Drop)]
pub enum QuestionReply {
    /// A total. A list has its rows in order of feeder, and then of their numbers.
    Total(Result<Answer, AskError>),
    /// Groups, at most 65,536.
    Groups(Result<Groups, GroupError>),
    /// The rows that come first.
    Top(Result<Vec<TopRow>, AskError>),
    /// How many different numbers there are.
    Distinct(Result<u64, AskError>),
    /// The number at the end of a share, if there is one.
    Quantile(Result<Option<i64>, AskError>),
}

/// Answers a question over the rows of an index, as `Index::ask`, `group_by`, `top`, `distinct` and `quantile` do. It takes
/// as long and as much memory as these, and sorts the rows of a list.
pub fn answer(alloc: Global, index: &Index, question: &Question) -> QuestionReply
    ensures { IsQuestionReply index.now.schema index.now.rows question.now result }
{
    match question {
        Question::Total(query) => {
            QuestionReply::Total(index.ask(query).map(|answer| arrange_answer(alloc, answer)))
        }
        Question::Groups(query, by) => {
            QuestionReply::Groups(group_by(alloc, index, query, by, MAX_GROUPS))
        }
        Question::Top(extreme, c, most, pred) => {
            QuestionReply::Top(top(alloc, index, *c, *most as usize, *extreme, pred))
        }
        Question::Distinct(c, pred) => QuestionReply::Distinct(distinct(alloc, index, *c, pred)),
        Question::Quantile(share, c, pred) => {
            QuestionReply::Quantile(quantile(index, *c, *share, pred))
        }
    }
}

/// Arranges the rows of an answer in order of feeder, and then of their numbers.
pub fn arrange_answer(alloc: Global, answer: Answer) -> Answer
    ensures { (query : Query) → (rows : List SourcedRow) → IsAnswer query rows answer →
        IsArrangedAnswer query rows result }
{
    match answer {
        Answer::Rows(mut rows) => {
            arrange(alloc, &mut rows);
            Answer::Rows(rows)
        }
        other => other,
    }
}
