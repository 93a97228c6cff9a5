//! The feeder of each row (`Origins`), and the counts that give a row's number among its feeder's rows.
//!
//! A feeder is a byte. Where there are several, a tally stands before each 512th row: for each feeder, how many of the
//! rows before came from it, in 4 bytes, as a rank directory has counts of the set bits before (Jacobson 1989). The
//! tallies cost 4 bytes for each feeder and 512 rows. A row that stands alone is numbered by one tally and the feeders
//! of up to 512 rows, its own among them.

ghost use Rattle.std.specs.Prelude.{◌≡◌, ◌≢◌, ◌↔◌, ◌+◌, ◌-◌, ◌*◌, ◌%◌, ◌<◌, ◌≤◌, ◌^◌, ◌++◌, ◌∷◌, [], All, IfNone, IfOk, IfSome, IsOk, IsTrue, OnErr, OnOk, count_by, length, min, nat_eq, replicate, slice_index, take, vec_len, vec_capacity};
ghost use Rattle.bsi_bits.specs.BitList.{max_len};
ghost use Rattle.bsi_rows.specs.Numbering.{number_within};
ghost use Rattle.bsi_rows.specs.Table.{max_feeders};
ghost use Rattle.bsi_origins.specs.Origins.{chunk_rows, tally_len, AreCountsBefore, HasOtherFeeder};

use crate::NoMemory;
use bsi_bits::room_to_make;
use bsi_rows::MAX_FEEDERS;
use std::alloc::Global;
use std::marker::Model;

/// The number of rows from one tally to the next.
pub(crate) const CHUNK_ROWS: u64 = 512;

/// A count for each feeder.
pub(crate) type Counts = [u64; MAX_FEEDERS as usize];

/// The feeder of each of at most 2^32 rows, and the tallies before their chunks where there are several feeders.
#[derive(Drop)]
pub struct Origins {
    feeders: u32,
    row_feeders: Vec<u8>,
    counts: Counts,
    tallies: Vec<u32>,
    room: u64,
}

// Clauses see the feeder of each row, the number of feeders, and for how many more rows there is room.
impl Model for Origins {
    ghost use Rattle.std.specs.Prelude.{length, vec_capacity};
    ghost use Rattle.bsi_origins.specs.Origins.{HasRoomFor, IsTallied, OriginList};

    ghost Value = { OriginList };

    ghost view = { λ o. record { rows = o.row_feeders.items; feeders = o.feeders; room = o.room } };

    ghost invariant = { λ o. IsTallied o.feeders o.row_feeders.items o.counts o.tallies.items
        × HasRoomFor o.room (length o.row_feeders.items) o.feeders (vec_capacity o.row_feeders)
        (vec_capacity o.tallies) };
}

impl Origins {
    /// Makes the list of no rows. It allocates no memory until it grows.
    pub fn new(alloc: Global, feeders: u32) -> Origins
        requires { (1 ≤ feeders) × (feeders ≤ max_feeders) }
        ensures rows { result.rows ≡ [] }
        ensures feeders { result.feeders ≡ feeders }
    {
        let counts = [0; MAX_FEEDERS as usize];
        Origins {
            feeders,
            row_feeders: Vec::new(alloc),
            counts,
            tallies: Vec::new(alloc),
            room: 0,
        }
    }

    /// Makes the list of rows that came from these feeders, or none if one of them is not below `feeders`.
    pub fn from_feeders(
        alloc: Global,
        feeders: u32,
        row_feeders: &[u8],
    ) -> Result<Option<Origins>, NoMemory>
        requires feeders { (1 ≤ feeders) × (feeders ≤ max_feeders) }
        requires few { length row_feeders.now ≤ max_len }
        ensures made { IfOk result (λ made. IfSome made (λ origins.
            (origins.rows ≡ row_feeders.now) × (origins.feeders ≡ feeders))) }
        ensures none { IfOk result (λ made. IfNone made (HasOtherFeeder feeders row_feeders.now)) }
    {
        let mut origins = Origins::new(alloc, feeders);
        origins.reserve(row_feeders.len() as u64)?;
        'rows: for feeder in row_feeders {
            if u32::from(*feeder) >= feeders {
                return Ok(None);
            }
            origins.push_reserved(*feeder);
        }
        Ok(Some(origins))
    }

    /// Returns the number of rows, at most 2^32.
    pub fn len(&self) -> u64
        ensures len { result ≡ length self.now.rows }
        ensures within { result ≤ max_len }
    {
        self.row_feeders.len() as u64
    }

    /// Returns whether there is no row.
    pub fn is_empty(&self) -> bool
        ensures { IsTrue result ↔ (self.now.rows ≡ []) }
    {
        self.len() == 0
    }

    /// Returns the number of feeders, from 1 to 64. Each row came from one of them.
    pub fn feeders(&self) -> u32
        ensures feeders { result ≡ self.now.feeders }
        ensures within { (1 ≤ result) × (result ≤ max_feeders) }
        ensures from { All (λ feeder. feeder < self.now.feeders) self.now.rows }
    {
        self.feeders
    }

    /// Lends the feeder of each row.
    pub fn row_feeders(&self) -> &[u8]
        ensures { result.now ≡ self.now.rows }
    {
        &self.row_feeders
    }

    /// Returns the feeder of row `r`.
    pub(crate) fn feeder(&self, r: u64) -> u8
        requires { r < length self.now.rows }
        ensures feeder { result ≡ slice_index self.now.rows r }
        ensures within { result < self.now.feeders }
        ensures few { self.now.feeders ≤ max_feeders }
    {
        self.row_feeders[r as usize]
    }

    /// Returns the number of row `r` among the rows of its feeder, from 0: how many of the rows before it came from there. It
    /// reads one tally and the feeders of at most 512 rows.
    pub fn number(&self, r: u64) -> u64
        requires { r < length self.now.rows }
        ensures { result ≡ number_within self.now.rows r }
    {
        if self.feeders == 1 {
            return r;
        }
        let feeder = self.row_feeders[r as usize];
        let chunk = r / CHUNK_ROWS;
        let tally = self.tallies[self.feeders as usize * chunk as usize + feeder as usize];
        let start = chunk * CHUNK_ROWS;
        u64::from(tally) + count_rows_of(feeder, &self.row_feeders[start as usize..r as usize])
    }

    /// Makes room for `more` further rows. Whatever the result, the rows stay and there is no less room than before. It
    /// allocates memory only if there is not enough room already; then there is room for at least twice the rows,
    /// within 2^32.
    pub fn reserve(&mut self, more: u64) -> Result<(), NoMemory>
        requires { length self.old.rows + more ≤ max_len }
        ensures rows { self.new.rows ≡ self.old.rows }
        ensures feeders { self.new.feeders ≡ self.old.feeders }
        ensures ok { OnOk result (more ≤ self.new.room) }
        ensures doubles { OnOk result (self.old.room < more →
            min (length self.old.rows) (max_len - length self.old.rows) ≤ self.new.room) }
        ensures no_less { self.old.room ≤ self.new.room }
        ensures err { OnErr result (self.new ≡ self.old) }
        ensures succeeds { more ≤ self.old.room → IsOk result }
    {
        if more <= self.room {
            return Ok(());
        }
        let growth = room_to_make(self.len(), more);
        let rows = self.len() + growth;
        let tallies = tally_len(self.feeders) * rows.div_ceil(CHUNK_ROWS) as usize;
        self.row_feeders.reserve(growth as usize)?;
        self.tallies.reserve(tallies - self.tallies.len())?;
        self.room = growth;
        Ok(())
    }

    /// Removes all rows. It takes no memory and keeps the room.
    pub fn clear(&mut self)
        ensures rows { self.new.rows ≡ [] }
        ensures feeders { self.new.feeders ≡ self.old.feeders }
        ensures room { length self.old.rows + self.old.room ≤ self.new.room }
    {
        self.room += self.len();
        self.row_feeders.clear();
        self.counts = [0; MAX_FEEDERS as usize];
        self.tallies.clear();
    }

    /// Appends a row of a feeder, into room that is already there.
    pub fn push_reserved(&mut self, feeder: u8)
        requires feeder { feeder < self.old.feeders }
        requires room { 0 < self.old.room }
        ensures rows { self.new.rows ≡ self.old.rows ++ feeder ∷ [] }
        ensures feeders { self.new.feeders ≡ self.old.feeders }
        ensures room { self.new.room + 1 ≡ self.old.room }
    {
        if self.row_feeders.len() as u64 % CHUNK_ROWS == 0 {
            push_tally(&mut self.tallies, &self.counts[..tally_len(self.feeders)]);
        }
        self.row_feeders.push_reserved(feeder);
        self.counts[feeder as usize] += 1;
        self.room -= 1;
    }

    /// Appends all rows of another list, in their order, into room that is already there. The other list has no more
    /// feeders. It goes by runs of one feeder.
    pub fn push_all_reserved(&mut self, other: &Origins)
        requires feeders { other.now.feeders ≤ self.old.feeders }
        requires room { length other.now.rows ≤ self.old.room }
        ensures rows { self.new.rows ≡ self.old.rows ++ other.now.rows }
        ensures feeders { self.new.feeders ≡ self.old.feeders }
        ensures room { self.new.room + length other.now.rows ≡ self.old.room }
    {
        let row_feeders = &other.row_feeders;
        let mut at = 0;
        'runs: while at < row_feeders.len() {
            let run = run_len(&row_feeders[at..]);
            self.push_many_reserved(row_feeders[at], run as u64);
            at += run;
        }
    }

    /// Appends so many rows of one feeder, into room that is already there. It goes chunk by chunk.
    pub fn push_many_reserved(&mut self, feeder: u8, rows: u64)
        requires feeder { feeder < self.old.feeders }
        requires room { rows ≤ self.old.room }
        ensures rows { self.new.rows ≡ self.old.rows ++ replicate rows feeder }
        ensures feeders { self.new.feeders ≡ self.old.feeders }
        ensures room { self.new.room + rows ≡ self.old.room }
    {
        // Of one row this is what costs least.
        if rows == 1 {
            self.push_reserved(feeder);
            return;
        }
        let mut left = rows;
        'chunks: while left > 0 {
            let run = left.min(CHUNK_ROWS - self.len() % CHUNK_ROWS);
            self.push_run(feeder, run);
            left -= run;
        }
    }

    /// Appends so many rows of one feeder, one at least, which are all in one chunk, into room that is already there.
    fn push_run(&mut self, feeder: u8, rows: u64)
        requires feeder { feeder < self.old.feeders }
        requires some { 0 < rows }
        requires within { length self.old.rows % chunk_rows + rows ≤ chunk_rows }
        requires room { rows ≤ self.old.room }
        ensures rows { self.new.rows ≡ self.old.rows ++ replicate rows feeder }
        ensures feeders { self.new.feeders ≡ self.old.feeders }
        ensures room { self.new.room + rows ≡ self.old.room }
    {
        if self.row_feeders.len() as u64 % CHUNK_ROWS == 0 {
            push_tally(&mut self.tallies, &self.counts[..tally_len(self.feeders)]);
        }
        push_feeder(&mut self.row_feeders, feeder, rows);
        self.counts[feeder as usize] += rows;
        self.room -= rows;
    }

    /// Writes how many of the rows before chunk `k` came from each feeder. It requires several feeders.
    pub(crate) fn read_tally(&self, k: u64, counts: &mut Counts)
        requires several { 1 < self.now.feeders }
        requires there { chunk_rows * k < length self.now.rows }
        ensures { AreCountsBefore self.now.feeders self.now.rows (chunk_rows * k) counts.new }
    {
        let len = self.feeders as usize;
        let start = len * k as usize;
        'feeders: for (f, count) in self.tallies[start..start + len].iter().enumerate() {
            counts[f] = u64::from(*count);
        }
    }

    /// Makes a second list of the same rows.
    pub fn copy(&self) -> Result<Origins, NoMemory>
        ensures rows { IfOk result (λ origins. origins.rows ≡ self.now.rows) }
        ensures feeders { IfOk result (λ origins. origins.feeders ≡ self.now.feeders) }
    {
        let row_feeders = self.row_feeders.clone()?;
        let tallies = self.tallies.clone()?;
        Ok(Origins {
            feeders: self.feeders,
            row_feeders,
            counts: self.counts,
            tallies,
            room: 0,
        })
    }
}

/// Returns how many of the first rows came from the feeder of the first.
fn run_len(row_feeders: &[u8]) -> usize
    requires { 0 < length row_feeders.now }
    ensures some { (0 < result) × (result ≤ length row_feeders.now) }
    ensures same { take result row_feeders.now ≡ replicate result (slice_index row_feeders.now 0) }
    ensures next { result < length row_feeders.now →
        slice_index row_feeders.now result ≢ slice_index row_feeders.now 0 }
{
    let first = row_feeders[0];
    let end = row_feeders.iter().position(|feeder| *feeder != first);
    end.unwrap_or(row_feeders.len())
}

/// Counts the rows of a feeder.
fn count_rows_of(feeder: u8, row_feeders: &[u8]) -> u64
    ensures count { result ≡ count_by (λ row_feeder. nat_eq row_feeder feeder) row_feeders.now }
    ensures few { result ≤ length row_feeders.now }
{
    let mut count = 0;
    'rows: for row_feeder in row_feeders {
        count += u64::from(*row_feeder == feeder);
    }
    count
}

/// Returns how many counts a tally has.
fn tally_len(feeders: u32) -> usize
    ensures { result ≡ tally_len feeders }
{
    if feeders > 1 { feeders as usize } else { 0 }
}

/// Appends a feeder so many times, into room that is already there.
fn push_feeder(row_feeders: &mut Vec<u8>, feeder: u8, rows: u64)
    requires { vec_len row_feeders.old + rows ≤ vec_capacity row_feeders.old }
    ensures items { row_feeders.new.items ≡ row_feeders.old.items ++ replicate rows feeder }
    ensures capacity { vec_capacity row_feeders.old ≤ vec_capacity row_feeders.new }
{
    let all = row_feeders.len() + rows as usize;
    row_feeders.resize(all, feeder).unwrap();
}

/// Appends counts below 2^32 to the tallies, into room that is already there.
fn push_tally(tallies: &mut Vec<u32>, counts: &[u64])
    requires room { vec_len tallies.old + length counts.now ≤ vec_capacity tallies.old }
    requires small { All (λ count. count < max_len) counts.now }
    ensures items { tallies.new.items ≡ tallies.old.items ++ counts.now }
    ensures capacity { vec_capacity tallies.new ≡ vec_capacity tallies.old }
{
    'counts: for count in counts {
        tallies.push_reserved(*count as u32);
    }
}
