//! Answers the query that C passes as fields, and writes the answer as a C struct (`FlatAnswer`) and a list of rows.

ghost use Rattle.std.specs.Prelude.{◌≡◌, ◌≢◌, ◌<◌, drop, map, take, length, Err, IfErr, OnErr, OnOk};
ghost use Rattle.bsi_ffi.specs.Calls.{as_pairs, IsReplied, IsWrittenAnswer, LeavesRest, ListsTooMany};

use crate::open_index::OpenIndex;
use crate::refusal::Refusal;
use crate::selection::read_query;
use bsi_table::{Answer, AskError};
use std::alloc::Global;

/// The kind of a count.
pub const COUNT: u32 = 1;

/// The kind of a sum.
pub const SUM: u32 = 2;

/// The kind of a number or none.
pub const VALUE: u32 = 3;

/// The kind of rows.
pub const ROWS: u32 = 4;

/// What 1 in the high half of a sum stands for.
const HIGH: u128 = 1 << 64;

/// An answer without its rows.
#[repr(C)]
#[derive(Clone, Copy, Debug, PartialEq, Eq)]
pub struct FlatAnswer {
    /// `COUNT`, `SUM`, `VALUE` or `ROWS`.
    pub kind: u32,
    /// Whether there is a number.
    pub present: bool,
    /// The number.
    pub value: i64,
    /// The count, or how many rows there are.
    pub count: u64,
    /// The low half of the sum, a number of 128 bits in two's complement.
    pub low: u64,
    /// The high half of the sum.
    pub high: u64,
}

/// A row of an answer: its feeder, and its number among the feeder's rows.
#[repr(C)]
#[derive(Clone, Copy, Debug, PartialEq, Eq)]
pub struct Origin {
    /// The feeder.
    pub feeder: u32,
    /// The number, from 0.
    pub row: u64,
}

/// Answers the query that the fields ask.
pub(crate) fn reply(
    alloc: Global,
    opened: &OpenIndex,
    fields: &[&[u8]],
    answer: &mut FlatAnswer,
    origins: &mut [Origin],
) -> Result<(), Refusal>
    ensures replied { IsReplied opened.now (map (λ f. f.now) fields.now) answer.new origins.new result }
    ensures answer_unchanged { IfErr result (λ why. why ≢ Refusal.BufferTooSmall → answer.new ≡ answer.old) }
    ensures origins_unchanged { OnErr result (origins.new ≡ origins.old) }
    ensures rest_unchanged { OnOk result (LeavesRest answer.new origins.old origins.new) }
{
    let index = opened.index();
    let Some(query) = read_query(alloc, index.schema(), fields)? else {
        return Err(Refusal::BadQuery);
    };
    match index.ask(&query) {
        Ok(reply) => write(&reply, answer, origins),
        Err(AskError::NoMemory) => Err(Refusal::NoMemory),
        // By the proof this never is, since the columns of a query that was read are there.
        Err(AskError::BadColumn(_)) => Err(Refusal::BadQuery),
    }
}

/// Writes an answer.
pub(crate) fn write(
    reply: &Answer,
    answer: &mut FlatAnswer,
    origins: &mut [Origin],
) -> Result<(), Refusal>
    ensures written { OnOk result (IsWrittenAnswer reply.now answer.new origins.new) }
    ensures short { IfErr result (λ why. (why ≡ Refusal.BufferTooSmall)
        × ListsTooMany reply.now answer.new origins.new) }
    ensures origins_unchanged { OnErr result (origins.new ≡ origins.old) }
    ensures rest_unchanged { OnOk result (LeavesRest answer.new origins.old origins.new) }
{
    match reply {
        Answer::Count(count) => {
            answer.kind = COUNT;
            answer.count = *count;
        }
        Answer::Sum(sum) => {
            let bits = sum.cast_unsigned();
            answer.kind = SUM;
            answer.low = (bits % HIGH) as u64;
            answer.high = (bits / HIGH) as u64;
        }
        Answer::Value(None) => {
            answer.kind = VALUE;
            answer.present = false;
        }
        Answer::Value(Some(value)) => {
            answer.kind = VALUE;
            answer.present = true;
            answer.value = *value;
        }
        Answer::Rows(rows) => {
            answer.kind = ROWS;
            answer.count = rows.len() as u64;
            return list(rows, origins);
        }
    }
    Ok(())
}

/// Writes rows, if the buffer is large enough.
fn list(rows: &[(u32, u64)], origins: &mut [Origin]) -> Result<(), Refusal>
    ensures listed { OnOk result (as_pairs (take (length rows.now) origins.new) ≡ rows.now) }
    ensures short { IfErr result (λ why. (why ≡ Refusal.BufferTooSmall)
        × (length origins.new < length rows.now)) }
    ensures origins_unchanged { OnErr result (origins.new ≡ origins.old) }
    ensures rest_unchanged { OnOk result
        (drop (length rows.now) origins.new ≡ drop (length rows.now) origins.old) }
{
    if rows.len() > origins.len() {
        return Err(Refusal::BufferTooSmall);
    }
    'rows: for (at, row) in rows.iter().enumerate() {
        let (feeder, row) = *row;
        origins[at] = Origin { feeder, row };
    }
    Ok(())
}
