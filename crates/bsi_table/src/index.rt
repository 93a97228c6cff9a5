//! The index (`Index`): rows from feeders, stored column by column, and the answers to queries over them.
//!
//! A contract sees one list of rows, each with its feeder, read from the columns (`sourced_rows`). So answers are
//! stated over rows, and no further clause need say that the rows went into the columns.

ghost use Rattle.std.specs.Prelude.{◌≡◌, ◌≢◌, ◌↔◌, [], ◌+◌, ◌<◌, ◌≤◌, None, Some, length, map, slice_get, IfErr, IfOk, IsOk, IsTrue, true, OnErr, OnOk};
ghost use Rattle.std.specs.Result.{result_err};
ghost use Rattle.bsi_rows.specs.Table.{max_feeders, max_rows, no_rows, table, with_row, with_rows, AreFitting, AreFrom, AreEncodedAlike};
ghost use Rattle.bsi_shift.specs.Shifted.{shifted_entries};
ghost use Rattle.bsi_rows.specs.Answers.{columns_of_total, missing_column, missing_of, CountsConjunction, IsAnswer, IsReply, ReadsAmong};
ghost use Rattle.bsi_table.specs.Selections.{IsSelection};
ghost use Rattle.bsi_table.specs.Totals.{IsTotalAt, NeedsNoMemory};
ghost use Rattle.bsi_schema.specs.Columns.{column_at, fits};
ghost use Rattle.bsi_rows.specs.Refusals.{index_refusal, row_refusal, rows_refusal, IsFirstOr};
ghost use Rattle.bsi_rows.specs.Numbering.{number_within};
ghost use Rattle.bsi_rows.specs.RowBlocks.{entries_of, sourced_from, no_block_rows, HaveSameLimits};
ghost use Rattle.bsi_rows.specs.Rows.{column_of, feeders_of, holds, row_entries};
ghost use Rattle.bsi_table.specs.Index.{table_of};
ghost use Rattle.bsi_table.specs.Joined.{rows_as, AreEnough};
ghost use Rattle.bsi_table.specs.Encoded.{sourced_rows, AreEncoded, IsInForm};

use crate::columns::{are_encoded_alike, copy_each, make_each, read_row};
use crate::growth::{clear_rows, push_all, push_row, push_rows, reserve_rows};
use crate::selection::{count_selected, select_rows};
use crate::totals::total_selected;
use crate::{
    Answer, AppendError, AskError, Block, IndexError, NoMemory, Pred, Query, Row, Schema, Total,
};
use bsi_bits::{Bits, room_to_make};
use bsi_origins::Origins;
use bsi_rows::check_table;
use bsi_schema::have_same_limits;
use bsi_shift::Shifted;
use std::alloc::Global;
use std::marker::Model;
use std::sync::Arc;

/// The rows of a schema that came from 1 to 64 feeders, at most as many as a limit. A row is stored as its entry in
/// each column and the number of its feeder, one byte; no row is stored as it came. If there are several feeders, each
/// chunk of 512 rows has a count of 4 bytes for each feeder.
pub struct Index {
    schema: Arc<Schema, Global>,
    columns: Vec<Shifted>,
    origins: Origins,
    limit: u64,
    // No column and not the origins have less.
    room: u64,
}

// What a derive drops, each crate above would prove anew.
impl Drop for Index {
    fn drop(self) {
        let Index {
            schema: _schema,
            columns: _columns,
            origins: _origins,
            limit: _,
            room: _,
        } = self;
    }
}

// Clauses see the schema, the number of feeders, the limit, the list of rows, each with its feeder, and the room.
impl Model for Index {
    ghost use Rattle.bsi_table.specs.Encoded.{sourced_rows, IsTable};
    ghost use Rattle.bsi_table.specs.Index.{AreRoomy, IndexedTable};

    ghost Value = { IndexedTable };

    ghost view = { λ i. record {
      schema = i.schema.value;
      feeders = i.origins.feeders;
      limit = i.limit;
      rows = sourced_rows i.origins.rows i.columns.items;
      room = i.room;
    } };

    ghost invariant = { λ i. IsTable i.schema.value.columns i.origins.feeders i.limit i.origins.rows
        i.columns.items × AreRoomy i.columns.items i.origins i.room };
}

impl Index {
    /// Makes an index of no rows. It drops a schema that it refuses.
    pub fn new(alloc: Global, schema: Schema, feeders: u32, limit: u64) -> Result<Index, IndexError>
        requires { (1 ≤ feeders) × (feeders ≤ max_feeders) }
        ensures ok { IfOk result (λ index. table_of index ≡ no_rows schema feeders limit) }
        ensures accepted { OnOk result (index_refusal schema limit ≡ None) }
        ensures refused { IfErr result
            (IsFirstOr IndexError.NoMemory (index_refusal schema limit)) }
    {
        Index::check(&schema, limit)?;
        let schema = share(alloc, schema)?;
        Ok(Index::with_no_rows(alloc, schema, feeders, limit)?)
    }

    /// Makes an index of no rows, of a schema that has other owners too.
    pub fn with_schema(
        alloc: Global,
        schema: &Arc<Schema, Global>,
        feeders: u32,
        limit: u64,
    ) -> Result<Index, IndexError>
        requires { (1 ≤ feeders) × (feeders ≤ max_feeders) }
        ensures ok { IfOk result (λ index. table_of index
            ≡ no_rows schema.now.value feeders limit) }
        ensures accepted { OnOk result (index_refusal schema.now.value limit ≡ None) }
        ensures refused { IfErr result
            (IsFirstOr IndexError.NoMemory (index_refusal schema.now.value limit)) }
    {
        Index::check(schema, limit)?;
        let schema = Arc::try_clone(schema)?;
        Ok(Index::with_no_rows(alloc, schema, feeders, limit)?)
    }

    /// Makes an index of no rows, of a schema and a limit that need no check.
    fn with_no_rows(
        alloc: Global,
        schema: Arc<Schema, Global>,
        feeders: u32,
        limit: u64,
    ) -> Result<Index, NoMemory>
        requires feeders { (1 ≤ feeders) × (feeders ≤ max_feeders) }
        requires accepted { index_refusal schema.value limit ≡ None }
        ensures { IfOk result (λ index. table_of index ≡ no_rows schema.value feeders limit) }
    {
        let columns = make_each(alloc, &schema)?;
        Ok(Index {
            schema,
            columns,
            origins: Origins::new(alloc, feeders),
            limit,
            room: 0,
        })
    }

    /// Makes the index of these columns, which are those that the schema declares, and of the feeder of each row.
    pub fn from_parts(
        alloc: Global,
        schema: Schema,
        columns: Vec<Shifted>,
        origins: Origins,
        limit: u64,
    ) -> Result<Index, NoMemory>
        requires columns { AreEncoded schema.columns columns.items (length origins.rows) }
        requires within { length origins.rows ≤ limit }
        requires accepted { index_refusal schema limit ≡ None }
        ensures { IfOk result (λ index. table_of index
            ≡ table schema origins.feeders limit (sourced_rows origins.rows columns.items)) }
    {
        // The proof takes from this that each row came from one of at most 64 feeders.
        let _feeders = origins.feeders();
        Ok(Index {
            schema: share(alloc, schema)?,
            columns,
            origins,
            limit,
            room: 0,
        })
    }

    /// Checks a schema and a limit as `new` does, but asks for no memory.
    pub fn check(schema: &Schema, limit: u64) -> Result<(), IndexError>
        ensures { result_err result ≡ index_refusal schema.now limit }
    {
        check_table(schema, limit)
    }

    /// Returns the number of rows, at most the limit.
    pub fn len(&self) -> u64
        ensures len { result ≡ length self.now.rows }
        ensures within { result ≤ self.now.limit }
    {
        self.origins.len()
    }

    /// Returns whether there is no row.
    pub fn is_empty(&self) -> bool
        ensures { IsTrue result ↔ (self.now.rows ≡ []) }
    {
        self.len() == 0
    }

    /// Appends a row from a feeder, and returns its row position: the length before. It takes memory only if there is no
    /// room. It makes room first, so a refused growth leaves the index as it was.
    pub fn append(&mut self, feeder: u32, row: &Row) -> Result<u64, AppendError>
        requires fits { IsTrue (fits self.old.schema.columns row.now) }
        requires feeder { feeder < self.old.feeders }
        ensures appended { OnOk result (table_of self.new
            ≡ with_row (table_of self.old) feeder row.now) }
        ensures room { OnOk result (self.old.room ≤ self.new.room + 1) }
        ensures position { IfOk result (λ position. position ≡ length self.old.rows) }
        ensures accepted { OnOk result (row_refusal (table_of self.old) ≡ None) }
        ensures refused { IfErr result
            (IsFirstOr AppendError.NoMemory (row_refusal (table_of self.old))) }
        ensures unchanged { OnErr result (self.new ≡ self.old) }
        ensures succeeds { 0 < self.old.room → row_refusal (table_of self.old) ≡ None →
            IsOk result }
    {
        let position = self.len();
        if position == self.limit() {
            return Err(AppendError::IndexFull);
        }
        self.reserve(1)?;
        push_row(
            &mut self.columns,
            &mut self.origins,
            feeder as u8,
            row.values(),
        );
        self.room -= 1;
        Ok(position)
    }

    /// Appends a block of rows, each from its feeder, and returns the row position of the first: the length before.
    /// Either all rows are appended, as if one after the other, or none is. It makes room for all rows first, so a
    /// refused growth leaves the index as it was.
    pub fn append_block(&mut self, block: &Block) -> Result<u64, AppendError>
        requires wide { length block.now.schema.columns ≡ length self.old.schema.columns }
        requires fits { AreFitting self.old.schema.columns block.now.rows }
        requires feeders { AreFrom self.old.feeders block.now.rows }
        ensures appended { OnOk result (table_of self.new
            ≡ with_rows (table_of self.old) block.now.rows) }
        ensures room { OnOk result (self.old.room ≤ self.new.room + length block.now.rows) }
        ensures position { IfOk result (λ position. position ≡ length self.old.rows) }
        ensures accepted { OnOk result
            (rows_refusal (table_of self.old) (length block.now.rows) ≡ None) }
        ensures refused { IfErr result
            (IsFirstOr AppendError.NoMemory
            (rows_refusal (table_of self.old) (length block.now.rows))) }
        ensures unchanged { OnErr result (self.new ≡ self.old) }
        ensures succeeds { length block.now.rows ≤ self.old.room →
            rows_refusal (table_of self.old) (length block.now.rows) ≡ None → IsOk result }
    {
        let more = block.len() as u64;
        let first = self.position_for(more)?;
        self.reserve(more)?;
        push_rows(&mut self.columns, &mut self.origins, block);
        self.room -= more;
        Ok(first)
    }

    /// Appends all rows of another index, in their order, and returns the row position of the first: the length before.
    /// Either all rows are appended or none is. Each bitmap is appended by words. It makes room for all
    /// rows first, so a refused growth leaves the index as it was.
    pub fn append_index(&mut self, other: &Index) -> Result<u64, AppendError>
        requires alike { AreEncodedAlike self.old.schema other.now.schema }
        requires feeders { other.now.feeders ≤ self.old.feeders }
        ensures appended { OnOk result (table_of self.new
            ≡ with_rows (table_of self.old) other.now.rows) }
        ensures room { OnOk result (self.old.room ≤ self.new.room + length other.now.rows) }
        ensures position { IfOk result (λ position. position ≡ length self.old.rows) }
        ensures accepted { OnOk result
            (rows_refusal (table_of self.old) (length other.now.rows) ≡ None) }
        ensures refused { IfErr result
            (IsFirstOr AppendError.NoMemory
            (rows_refusal (table_of self.old) (length other.now.rows))) }
        ensures unchanged { OnErr result (self.new ≡ self.old) }
        ensures succeeds { length other.now.rows ≤ self.old.room →
            rows_refusal (table_of self.old) (length other.now.rows) ≡ None → IsOk result }
    {
        let more = other.len();
        let first = self.position_for(more)?;
        self.reserve(more)?;
        self.push_index(other, None);
        Ok(first)
    }

    /// Appends all rows of another index as `append_index` does, but each as a row of this feeder, whatever feeders the
    /// other index has.
    pub fn append_index_from(&mut self, feeder: u32, other: &Index) -> Result<u64, AppendError>
        requires alike { AreEncodedAlike self.old.schema other.now.schema }
        requires feeder { feeder < self.old.feeders }
        ensures appended { OnOk result (table_of self.new
            ≡ with_rows (table_of self.old) (sourced_from feeder (entries_of other.now.rows))) }
        ensures room { OnOk result (self.old.room ≤ self.new.room + length other.now.rows) }
        ensures position { IfOk result (λ position. position ≡ length self.old.rows) }
        ensures accepted { OnOk result
            (rows_refusal (table_of self.old) (length other.now.rows) ≡ None) }
        ensures refused { IfErr result
            (IsFirstOr AppendError.NoMemory
            (rows_refusal (table_of self.old) (length other.now.rows))) }
        ensures unchanged { OnErr result (self.new ≡ self.old) }
        ensures succeeds { length other.now.rows ≤ self.old.room →
            rows_refusal (table_of self.old) (length other.now.rows) ≡ None → IsOk result }
    {
        let more = other.len();
        let first = self.position_for(more)?;
        self.reserve(more)?;
        self.push_index(other, Some(feeder));
        Ok(first)
    }

    /// Appends all rows of another index, into room that is already there: as rows of one feeder, if it is given.
    fn push_index(&mut self, other: &Index, feeder: Option<u32>)
        requires alike { AreEncodedAlike self.old.schema other.now.schema }
        requires feeders { AreEnough self.old.feeders feeder other.now.feeders }
        requires within { length self.old.rows + length other.now.rows ≤ self.old.limit }
        requires room { length other.now.rows ≤ self.old.room }
        ensures table { table_of self.new
            ≡ with_rows (table_of self.old) (rows_as feeder other.now.rows) }
        ensures room_left { self.new.room + length other.now.rows ≡ self.old.room }
    {
        let (columns, origins) = (&other.columns, &other.origins);
        push_all(
            &mut self.columns,
            &mut self.origins,
            columns,
            origins,
            feeder,
        );
        self.room -= other.len();
    }

    /// Returns the row position of the first of `more` further rows, or the refusal if they would pass the limit.
    fn position_for(&self, more: u64) -> Result<u64, AppendError>
        ensures position { IfOk result (λ position. position ≡ length self.now.rows) }
        ensures within { OnOk result (length self.now.rows + more ≤ self.now.limit) }
        ensures refused { result_err result ≡ rows_refusal (table_of self.now) more }
    {
        let first = self.len();
        if more > self.limit() - first {
            return Err(AppendError::IndexFull);
        }
        Ok(first)
    }

    /// Makes row `r`, counted from 0, as a row of its own. It reads the 64 rows around it in each column.
    pub fn row(&self, r: u64) -> Result<Row, NoMemory>
        requires { r < length self.now.rows }
        ensures { IfOk result (λ row. slice_get (entries_of self.now.rows) r ≡ Some row) }
    {
        let alloc = *self.columns.allocator();
        Ok(Row::new(read_row(alloc, &self.columns, self.len(), r)?))
    }

    /// Returns whether another index encodes its columns as this one does, each in the same form and from the same
    /// number on, and has as many feeders or fewer. If so, `append_index` accepts its rows.
    pub fn is_encoded_like(&self, other: &Index) -> bool
        ensures alike { result ≡ true → AreEncodedAlike self.now.schema other.now.schema }
        ensures feeders { result ≡ true → other.now.feeders ≤ self.now.feeders }
        ensures all { other.now.feeders ≤ self.now.feeders →
            AreEncodedAlike self.now.schema other.now.schema → result ≡ true }
    {
        other.feeders() <= self.feeders() && are_encoded_alike(&self.columns, &other.columns)
    }

    /// Makes an index of no rows yet that encodes its columns as this one does, with as many feeders and the same
    /// limit.
    pub fn new_like(&self) -> Result<Index, NoMemory>
        ensures { IfOk result (λ index. table_of index
            ≡ no_rows self.now.schema self.now.feeders self.now.limit) }
    {
        let schema = Arc::try_clone(&self.schema)?;
        let alloc = *self.columns.allocator();
        Index::with_no_rows(alloc, schema, self.feeders(), self.limit())
    }

    /// Returns for how many more rows there is room: to append these takes no memory.
    pub fn room(&self) -> u64
        ensures room { result ≡ self.now.room }
        ensures within { length self.now.rows + result ≤ max_rows }
    {
        self.room
    }

    /// Makes room for `more` further rows, so that each column grows once for them. Whatever the result, the rows stay
    /// and there is no less room than before. If it is refused, the room is as it was. It takes memory only if there is
    /// not enough room already.
    pub fn reserve(&mut self, more: u64) -> Result<(), NoMemory>
        requires { length self.old.rows + more ≤ self.old.limit }
        ensures table { table_of self.new ≡ table_of self.old }
        ensures ok { OnOk result (more ≤ self.new.room) }
        ensures no_less { self.old.room ≤ self.new.room }
        ensures err { OnErr result (self.new ≡ self.old) }
        ensures succeeds { more ≤ self.old.room → IsOk result }
    {
        if more <= self.room {
            return Ok(());
        }
        let growth = room_to_make(self.len(), more);
        reserve_rows(&mut self.columns, &mut self.origins, growth)?;
        self.room = growth;
        Ok(())
    }

    /// Removes all rows. It takes no memory and keeps the room for as many.
    pub fn clear(&mut self)
        ensures table { table_of self.new
            ≡ no_rows self.old.schema self.old.feeders self.old.limit }
        ensures room { length self.old.rows + self.old.room ≤ self.new.room }
    {
        self.room += self.len();
        clear_rows(&mut self.columns, &mut self.origins);
    }

    /// Makes a block of no rows yet, for rows that this index accepts.
    pub fn new_block(&self) -> Result<Block, NoMemory>
        ensures { IfOk result (λ block. block ≡ no_block_rows self.now.schema self.now.feeders) }
    {
        Block::new(*self.columns.allocator(), &self.schema, self.feeders())
    }

    /// Returns whether a block is of rows that this index accepts: its columns accept the same numbers as those of the
    /// index, which has as many feeders as the block or more.
    pub fn accepts(&self, block: &Block) -> bool
        ensures wide { result ≡ true →
            length block.now.schema.columns ≡ length self.now.schema.columns }
        ensures fits { result ≡ true → AreFitting self.now.schema.columns block.now.rows }
        ensures feeders { result ≡ true → AreFrom self.now.feeders block.now.rows }
        ensures all { block.now.feeders ≤ self.now.feeders →
            HaveSameLimits block.now.schema self.now.schema → result ≡ true }
    {
        block.feeders() <= self.feeders() && block.has_limits_of(&self.schema)
    }

    /// Returns whether the columns of a schema accept the same numbers as those of this index.
    pub fn has_limits_of(&self, schema: &Schema) -> bool
        ensures alike { IsTrue result ↔ HaveSameLimits self.now.schema schema.now }
        ensures fits { IsTrue result → AreFitting schema.now.columns self.now.rows }
    {
        have_same_limits(self.schema.limits(), schema.limits())
    }

    /// Answers a query over all rows. A count by a predicate without `or` and `not` takes no memory.
    pub fn ask(&self, query: &Query) -> Result<Answer, AskError>
        ensures reply { IsReply self.now.schema self.now.rows query.now result }
        ensures succeeds { CountsConjunction query.now →
            IfErr result (λ refused. refused ≢ AskError.NoMemory) }
    {
        if let Some(missing) = query.missing_column(self.schema.columns()) {
            return Err(AskError::BadColumn(missing));
        }
        Ok(self.answer(query)?)
    }

    /// Returns for each row whether the predicate holds of it.
    pub fn select(&self, pred: &Pred) -> Result<Bits, AskError>
        ensures { IsSelection self.now.schema self.now.rows pred.now result }
    {
        if let Some(missing) = pred.missing_column(self.schema.columns()) {
            return Err(AskError::BadColumn(missing));
        }
        Ok(self.find(pred)?)
    }

    /// Returns for each row whether a predicate holds of it of which no column is missing.
    fn find(&self, pred: &Pred) -> Result<Bits, NoMemory>
        requires { ReadsAmong (length self.now.schema.columns) pred.now }
        ensures { IfOk result (λ selection. selection.bits ≡ map (λ row. holds pred.now (row_entries row)) self.now.rows) }
    {
        let columns: &[Shifted] = &self.columns;
        let rows = self.len();
        select_rows(*self.columns.allocator(), columns, rows, pred)
    }

    /// Answers a query of which no column is missing. A count keeps no bit for each row.
    fn answer(&self, query: &Query) -> Result<Answer, NoMemory>
        requires { missing_column (length self.now.schema.columns) query.now ≡ None }
        ensures answer { IfOk result (IsAnswer query.now self.now.rows) }
        ensures succeeds { CountsConjunction query.now → IsOk result }
    {
        let alloc = *self.columns.allocator();
        let columns: &[Shifted] = &self.columns;
        let rows = self.len();
        if let Total::Count = query.total {
            return Ok(Answer::Count(count_selected(alloc, columns, rows, &query.pred)?));
        }
        let selection = self.find(&query.pred)?;
        self.total(&selection, query.total)
    }

    /// Returns a total of the rows of a selection, which has a bit for each row. The column that it reads is there.
    /// `Median`, `Rank` and `Rows` take memory.
    pub fn total(&self, selection: &Bits, total: Total) -> Result<Answer, NoMemory>
        requires bits { length selection.now.bits ≡ length self.now.rows }
        requires there { missing_of (length self.now.schema.columns) (columns_of_total total) ≡ None }
        ensures answer { IfOk result (IsTotalAt total selection.now.bits self.now.rows) }
        ensures succeeds { NeedsNoMemory total → IsOk result }
    {
        let alloc = *self.columns.allocator();
        let columns: &[Shifted] = &self.columns;
        total_selected(alloc, columns, &self.origins, selection, total)
    }

    /// Lends column `c`: the entries of all rows there, in the form and with the offset that the schema gives.
    pub fn column(&self, c: u32) -> &Shifted
        requires { c < length self.now.schema.columns }
        ensures entries { shifted_entries result.now ≡ column_of self.now.rows c }
        ensures form { IsInForm (column_at self.now.schema.columns c).form result.now.stored }
        ensures offset { result.now.offset ≡ (column_at self.now.schema.columns c).offset }
    {
        &self.columns[c as usize]
    }

    /// Lends the feeder of each row.
    pub fn row_feeders(&self) -> &[u8]
        ensures { result.now ≡ feeders_of self.now.rows }
    {
        self.origins.row_feeders()
    }

    /// Returns the number of row `r` among the rows of its feeder, from 0. It reads the feeders of at most 512 rows.
    pub fn row_number(&self, r: u64) -> u64
        requires { r < length self.now.rows }
        ensures { result ≡ number_within (feeders_of self.now.rows) r }
    {
        self.origins.number(r)
    }

    /// Makes a second index of the same rows.
    pub fn copy(&self) -> Result<Index, NoMemory>
        ensures { IfOk result (λ index. table_of index ≡ table_of self.now) }
    {
        let schema = Arc::try_clone(&self.schema)?;
        let columns = copy_each(*self.columns.allocator(), &self.columns)?;
        let origins = self.origins.copy()?;
        Ok(Index {
            schema,
            columns,
            origins,
            limit: self.limit,
            room: 0,
        })
    }

    /// Lends the schema, which each row fits.
    pub fn schema(&self) -> &Schema
        ensures schema { result.now ≡ self.now.schema }
        ensures fitting { AreFitting self.now.schema.columns self.now.rows }
    {
        &self.schema
    }

    /// Returns the number of feeders, from 1 to 64. Each row came from one of them.
    pub fn feeders(&self) -> u32
        ensures feeders { result ≡ self.now.feeders }
        ensures within { (1 ≤ result) × (result ≤ max_feeders) }
        ensures from { AreFrom self.now.feeders self.now.rows }
    {
        self.origins.feeders()
    }

    /// Returns the most rows that the index holds, at most 2^32.
    pub fn limit(&self) -> u64
        ensures limit { result ≡ self.now.limit }
        ensures within { result ≤ max_rows }
        ensures accepted { index_refusal self.now.schema self.now.limit ≡ None }
    {
        self.limit
    }
}

/// Makes a schema one that several owners may have.
fn share(alloc: Global, schema: Schema) -> Result<Arc<Schema, Global>, NoMemory>
    ensures { IfOk result (λ shared. shared.value ≡ schema) }
{
    Ok(Arc::new(alloc, schema)?)
}
