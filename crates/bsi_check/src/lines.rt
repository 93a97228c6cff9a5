//! Writes the reasons of a check, a line each, and finds the line at which a record begins (`Lines`).
ghost use Rattle.std.specs.Prelude.{◌≡◌, ◌-◌, ◌∷◌, ◌++◌, [], codes, if◌then◌else◌, OnOk};
ghost use Rattle.bsi_check.specs.Reasons.{is_line_end, line_why, max_reasons, more_why, one_line, reason_line, AddsOneReason, AddsReasons};

use crate::NoMemory;
use crate::diagnostics::{count_line_feeds, count_lone_returns};
use csv::{ByteRecord, Position};
use std::alloc::Global;

/// The most reasons of bad records that are written for one file.
pub(crate) const MAX_REASONS: u64 = 100;

/// Adds the line of a reason: the path of its file, a colon, and what is wrong, with a space for each line end.
fn add_reason_line(reasons: &mut Vec<u8>, path: &str, why: &str) -> Result<(), NoMemory>
    ensures { OnOk result
        (AddsReasons path.now (one_line why.now ∷ []) reasons.old.items reasons.new.items) }
{
    push_line(reasons, path, why)
}

/// Adds the bytes of this line.
fn push_line(reasons: &mut Vec<u8>, path: &str, why: &str) -> Result<(), NoMemory>
    ensures { OnOk result
        (reasons.new.items ≡ reasons.old.items ++ reason_line path.now (one_line why.now)) }
{
    reasons.extend_from_slice(path.as_bytes())?;
    reasons.extend_from_slice(b":")?;
    push_on_line(reasons, why)?;
    reasons.extend_from_slice(b"\n")
}

/// Adds a text, with a space for each line end.
fn push_on_line(line: &mut Vec<u8>, text: &str) -> Result<(), NoMemory>
    ensures { OnOk result (line.new.items ≡ line.old.items ++ one_line text.now) }
{
    let bytes = text.as_bytes();
    'bytes: for byte in bytes {
        line.push(space_for_line_end(*byte))?;
    }
    Ok(())
}

/// Returns a byte of a line, or a space for a line end.
fn space_for_line_end(byte: u8) -> u8
    ensures { result ≡ (if is_line_end byte then 32 else byte) }
{
    match byte {
        b'\n' | b'\r' => b' ',
        _ => byte,
    }
}

/// Adds the line of a reason that is about a whole file.
pub(crate) fn add_reason(
    alloc: Global,
    reasons: &mut Vec<u8>,
    path: &str,
    text: &str,
) -> Result<(), NoMemory>
    ensures { OnOk result
        (AddsReasons path.now (one_line (codes " " ++ text.now) ∷ []) reasons.old.items reasons.new.items) }
{
    let why = format!(in alloc; " {text}")?;
    add_reason_line(reasons, path, why.as_str())
}

/// Adds the line of a reason that is about a line of a file.
pub(crate) fn add_reason_at(
    alloc: Global,
    reasons: &mut Vec<u8>,
    path: &str,
    at: u64,
    text: &str,
) -> Result<(), NoMemory>
    ensures exact { OnOk result (AddsReasons path.now (one_line (line_why at text.now) ∷ [])
        reasons.old.items reasons.new.items) }
    ensures one { OnOk result (AddsOneReason path.now reasons.old.items reasons.new.items) }
{
    let why = format!(in alloc; "{at}: {text}")?;
    add_reason_line(reasons, path, why.as_str())
}

/// Adds the line that says how many more bad records there are than have a reason.
pub(crate) fn add_more_bad(
    alloc: Global,
    reasons: &mut Vec<u8>,
    path: &str,
    bad: u64,
) -> Result<(), NoMemory>
    ensures { OnOk result
        (AddsReasons path.now (more_why (bad - max_reasons) ∷ []) reasons.old.items reasons.new.items) }
{
    let more = bad.saturating_sub(MAX_REASONS);
    let why = format!(in alloc; " and {more} more bad records")?;
    add_reason_line(reasons, path, why.as_str())
}

/// What ends the lines of a file.
#[derive(Clone, Copy, PartialEq, Eq)]
enum LineEnd {
    /// It is not known before the first record.
    Unknown,
    /// A line feed.
    Feed,
    /// A carriage return; whether a line feed follows it is not known before the second record.
    Return,
    /// A carriage return and a line feed.
    ReturnFeed,
    /// A lone carriage return.
    LoneReturn,
}

/// The lines at which the records of a file begin. A reader counts line feeds alone, one that follows a carriage return
/// as a part of the next record; so the first two records show what ends the lines. An empty line that a lone carriage
/// return ends is not counted.
#[derive(Clone, Copy)]
pub(crate) struct Lines {
    end: LineEnd,
    // The lone carriage returns before the record that was read last, and those up to its end.
    before: u64,
    after: u64,
}

impl Lines {
    /// Makes the lines of a file of which no record was read.
    pub(crate) fn new() -> Lines {
        Lines {
            end: LineEnd::Unknown,
            before: 0,
            after: 0,
        }
    }

    /// Advances by a record, by the position of the reader after it.
    pub(crate) fn advance(&mut self, record: &ByteRecord, after: Position) {
        self.end = match self.end {
            LineEnd::Unknown if has_feed_outside(record, after) => LineEnd::Feed,
            LineEnd::Unknown => LineEnd::Return,
            LineEnd::Return if has_feed_outside(record, after) => LineEnd::ReturnFeed,
            LineEnd::Return => LineEnd::LoneReturn,
            known => known,
        };
        if self.end == LineEnd::Feed || self.end == LineEnd::ReturnFeed {
            self.before = 0;
            return;
        }
        let inside = count_lone_returns(record.as_slice());
        self.before = self.after;
        self.after = self.after.saturating_add(inside).saturating_add(1);
    }

    /// Returns the line at which the record begins that was read last, from 1, by the position of the reader after it. It
    /// is one too low for a last record that no line end follows, if empty lines stand before it.
    pub(crate) fn line_of(&self, record: &ByteRecord, after: Position) -> u64 {
        let inside = count_line_feeds(record.as_slice());
        let end = after.line.saturating_sub(inside);
        if self.end != LineEnd::Feed {
            return end.saturating_add(self.before);
        }
        // The last record may have no line feed behind it.
        let before = record.position().unwrap_or(after).line;
        end.saturating_sub(1).max(before)
    }
}

/// Returns whether a reader met a line feed as it read a record that is no part of a field.
fn has_feed_outside(record: &ByteRecord, after: Position) -> bool {
    let inside = count_line_feeds(record.as_slice());
    let before = record.position().unwrap_or(after).line;
    after.line > before.saturating_add(inside)
}
