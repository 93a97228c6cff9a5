//! Tests of blocks that an index appends, row by row or column by column, and of indexes that take all rows of another
//! one. Where memory is refused, the same call is made again.

use crate::tables::{answer, index_of, lists};
use bsi_columns::{NoMemory, Op};
use bsi_fixtures::{DeclaredColumn, FORMS, QTY, TestForm, has_fitting_rows, row_of, write_values};
use bsi_table::{Answer, AppendError, Block, Index, IndexError, MAX_BLOCK_ROWS, Pred, Row, Total};
use std::alloc::Global;

fn block_of(index: &Index) -> Result<Block, NoMemory> {
    match index.new_block() {
        Err(_) => index.new_block(),
        made => made,
    }
}

fn batch_like(index: &Index) -> Result<Index, NoMemory> {
    match index.new_like() {
        Err(_) => index.new_like(),
        made => made,
    }
}

// Whether the block has room and takes the row.
fn add(block: &mut Block, feeder: u32, row: &Row) -> bool {
    block.len() < MAX_BLOCK_ROWS && feeder < block.feeders() && block.push(feeder, row)
}

// Fills the block with so many times the same row, of two feeders by turns. Returns whether it takes them.
fn fill(block: &mut Block, rows: u32, row: &Row) -> bool {
    block.clear();
    for number in 0..rows {
        if !add(block, number % 2, row) {
            return false;
        }
    }
    true
}

// A refused growth changes nothing, and the same call is made again.
fn append(index: &mut Index, block: &Block) -> Option<Result<u64, AppendError>> {
    if !index.accepts(block) {
        return None;
    }
    let before = index.len();
    match index.append_block(block) {
        Err(AppendError::NoMemory) if index.len() == before => Some(index.append_block(block)),
        done => Some(done),
    }
}

// Whether so many rows go in as a block, behind the `first` ones.
fn append_rows(index: &mut Index, block: &mut Block, rows: u32, first: u64, row: &Row) -> bool {
    fill(block, rows, row) && append(index, block) == Some(Ok(first))
}

// Whether seventy rows go in, whose numbers are 5.
fn append_seventy(alloc: Global, batch: &mut Index, block: &mut Block) -> Result<bool, NoMemory> {
    let row = row_of(alloc, &[Some(5)])?;
    Ok(append_rows(batch, block, 64, 0, &row) && append_rows(batch, block, 6, 64, &row))
}

fn fill_batch(alloc: Global, batch: &mut Index) -> Result<bool, NoMemory> {
    let mut block = block_of(batch)?;
    append_seventy(alloc, batch, &mut block)
}

// A refused growth changes nothing, and the same call is made again.
fn join(index: &mut Index, batch: &Index) -> Option<Result<u64, AppendError>> {
    if !index.is_encoded_like(batch) {
        return None;
    }
    let before = index.len();
    match index.append_index(batch) {
        Err(AppendError::NoMemory) if index.len() == before => Some(index.append_index(batch)),
        done => Some(done),
    }
}

// Whether the rows of the batch go in behind each other, twice.
fn joins_twice(index: &mut Index, batch: &Index) -> bool {
    let first = join(index, batch);
    let second = join(index, batch);
    let sum = answer(index, Total::Sum(0), Pred::All);
    first == Some(Ok(0)) && second == Some(Ok(70)) && sum == Ok(Answer::Sum(700))
}

// Whether a batch that is emptied takes rows again. It kept its room, so no memory can be refused, and no call is made
// again.
fn is_filled_again(alloc: Global, batch: &mut Index) -> Result<bool, NoMemory> {
    let row = row_of(alloc, &[Some(7)])?;
    let mut block = block_of(batch)?;
    batch.clear();
    if !fill(&mut block, 64, &row) || !batch.accepts(&block) {
        return Ok(false);
    }
    let first = batch.append_block(&block);
    let sum = answer(batch, Total::Sum(0), Pred::All);
    Ok(first == Ok(0) && sum == Ok(Answer::Sum(448)))
}

fn appends_a_batch(alloc: Global, index: &mut Index) -> Result<bool, IndexError> {
    let mut batch = batch_like(index)?;
    let filled = fill_batch(alloc, &mut batch)?;
    Ok(filled && joins_twice(index, &batch) && is_filled_again(alloc, &mut batch)?)
}

fn appends_batches(alloc: Global, form: TestForm) -> Result<bool, IndexError> {
    let column = DeclaredColumn { form, ..QTY };
    let mut index = index_of(alloc, &[column], 2, 200)?;
    appends_a_batch(alloc, &mut index)
}

#[test]
fn batches_one_after_another(rt: HostRuntime) {
    for &form in &FORMS {
        assert!(rt;
            matches!(appends_batches(rt.alloc(), form), Ok(true)),
            "{form:?}"
        );
    }
}

// Fills a block with three rows column by column, of which the second has a null in the first column. Returns whether
// the columns take them.
fn fill_columns(block: &mut Block) -> bool {
    if block.feeders() == 0 {
        return false;
    }
    block.clear();
    block.push_nulls(0, 3);
    write_values(block, 0, &[1, 5, 3], 0b101) && write_values(block, 1, &[2, 4, 0], 0b111)
}

// A block of these rows, for an index.
fn columns_of(index: &Index) -> Result<Option<Block>, NoMemory> {
    let mut block = block_of(index)?;
    if !fill_columns(&mut block) {
        return Ok(None);
    }
    Ok(Some(block))
}

// Appends a block of another schema, if its rows fit. A refused growth changes nothing, and the same call is made again.
fn append_fitting(index: &mut Index, block: &Block) -> Result<Option<u64>, NoMemory> {
    if block.feeders() > index.feeders() || !has_fitting_rows(block, index.schema())? {
        return Ok(None);
    }
    match index.append_block(block) {
        Err(AppendError::NoMemory) => Ok(index.append_block(block).ok()),
        done => Ok(done.ok()),
    }
}

// Whether the rows go in behind each other, as a block of the index and as one of other offsets.
fn appends_columns(index: &mut Index, other: &Index) -> Result<bool, NoMemory> {
    let (Some(own), Some(moved)) = (columns_of(index)?, columns_of(other)?) else {
        return Ok(false);
    };
    let appended = append(index, &own) == Some(Ok(0)) && !index.accepts(&moved);
    Ok(appended && append_fitting(index, &moved)? == Some(3))
}

// Whether the index has the rows of both blocks.
fn has_columns(index: &Index) -> bool {
    lists(index, Pred::Null(0), &[(0, 1), (0, 4)])
        && lists(index, Pred::Columns(0, Op::Lt, 1), &[(0, 0), (0, 3)])
        && answer(index, Total::Sum(0), Pred::All) == Ok(Answer::Sum(8))
        && answer(index, Total::Sum(1), Pred::All) == Ok(Answer::Sum(12))
}

// An index of no rows, in two columns of this form, from these numbers on.
fn two_columns(alloc: Global, form: TestForm, offsets: [i64; 2]) -> Result<Index, IndexError> {
    let first = DeclaredColumn {
        form,
        offset: offsets[0],
        ..QTY
    };
    let second = DeclaredColumn {
        name: "second",
        offset: offsets[1],
        ..first
    };
    index_of(alloc, &[first, second], 1, 10)
}

fn appends_both(alloc: Global, form: TestForm, index: &mut Index) -> Result<bool, IndexError> {
    let other = two_columns(alloc, form, [-1, 0])?;
    Ok(appends_columns(index, &other)? && has_columns(index))
}

fn appends_blocks(alloc: Global, form: TestForm) -> Result<bool, IndexError> {
    let mut index = two_columns(alloc, form, [0, -2])?;
    appends_both(alloc, form, &mut index)
}

#[test]
fn blocks_that_are_filled_column_by_column(rt: HostRuntime) {
    for &form in &FORMS {
        assert!(rt;
            matches!(appends_blocks(rt.alloc(), form), Ok(true)),
            "{form:?}"
        );
    }
}
