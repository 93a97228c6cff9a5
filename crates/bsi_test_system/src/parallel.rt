//! Tests that many questions over one index, answered by several threads, are replied to in their order.

use crate::calls::{quantities, row};
use bsi_aggregates::QuestionReply;
use bsi_answers::answer_each;
use bsi_rows::Question;
use bsi_table::{Answer, AskError, Index, Pred, Query, Total};
use std::alloc::Global;
use std::thread::Threads;

fn append(alloc: Global, index: &mut Index, n: i128) -> Option<u64> {
    let row = row(alloc, n)?;
    if index.feeders() == 0 || !index.schema().fits(&row) {
        return None;
    }
    index.append(0, &row).ok()
}

fn two_rows(alloc: Global) -> Option<Index> {
    let mut index = Index::new(alloc, quantities(alloc)?, 1, 9).ok()?;
    append(alloc, &mut index, 2)?;
    append(alloc, &mut index, 7)?;
    Some(index)
}

fn five_questions(alloc: Global) -> Option<Vec<Question>> {
    let mut questions = Vec::new(alloc);
    for total in [
        Total::Count,
        Total::Sum(0),
        Total::Sum(1),
        Total::Median(0),
        Total::Rank(0, 1),
    ] {
        let pred = Pred::All;
        questions.push(Question::Total(Query { total, pred })).ok()?;
    }
    questions.push(Question::Distinct(0, Pred::All)).ok()?;
    Some(questions)
}

// The number that a reply to one of these questions has. It gives none where memory was refused.
fn number_of(reply: &QuestionReply) -> Option<i128> {
    match reply {
        QuestionReply::Total(Ok(Answer::Count(count))) => Some(i128::from(*count)),
        QuestionReply::Total(Ok(Answer::Sum(sum))) => Some(*sum),
        QuestionReply::Total(Ok(Answer::Value(Some(number)))) => Some(i128::from(*number)),
        QuestionReply::Total(Err(AskError::BadColumn(_))) => Some(-1),
        QuestionReply::Distinct(Ok(count)) => Some(i128::from(*count)),
        _ => None,
    }
}

// Whether each question has the reply that is its own. It gives none where memory was refused.
fn are_in_order<R: Threads + AllocGlobal + Sync>(rt: &R) -> Option<bool> {
    let index = two_rows(rt.alloc())?;
    let questions = five_questions(rt.alloc())?;
    let replies = answer_each(rt, rt.alloc(), &index, &questions).ok()?;
    let mut numbers = Vec::new(rt.alloc());
    for reply in &replies {
        numbers.push(number_of(reply)?).ok()?;
    }
    Some(numbers.as_slice() == [2, 9, -1, 2, 7, 2].as_slice())
}

#[test]
fn replies_come_in_order_of_the_questions(rt: HostRuntime) {
    let done = match are_in_order(&rt) {
        None => are_in_order(&rt),
        done => done,
    };
    assert!(rt; done == Some(true));
}
