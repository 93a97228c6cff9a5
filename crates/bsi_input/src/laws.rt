//! Laws of script runs, which lose no row, and of sources of rows and records, whose calls read what one call would.
//! Each is the contract of a function that does nothing, so that it is checked as any contract is.

ghost use Rattle.std.specs.Prelude.{◌≡◌, ◌+◌, ◌++◌, ◌∷◌, [], ℕ, List, Option, Some, IsSome};
ghost use mathlib.Core.List.{IsPrefix};
ghost use Rattle.csv.specs.Reading.{reader_state, source_of, strip_bom};
ghost use Rattle.csv.specs.declared.parser.State.TheVariants as st;
ghost use Rattle.csv.specs.declared.reader.Reader.{Reader};
ghost use Rattle.bsi_rows.specs.Shown.{Shown};
ghost use Rattle.bsi_rows.specs.Rows.{Entries};
ghost use Rattle.bsi_rows.specs.Fields.{Field};
ghost use Rattle.bsi_input.specs.Pasts.{NoneIsNoMemory, HasLawfulPast};
ghost use Rattle.bsi_input.specs.Scripts.{AreTurns, Declaring, IsScriptRun, Running};
ghost use Rattle.bsi_syntax.specs.Setups.{nothing_declared};
ghost use Rattle.bsi_input.specs.Sources.{counts_of, Counts, HasLeft, HasReadRecords, HasReadRows, IsAfterHeader, IsOver, IsOverBy, IsWholeFile, Layout};
ghost use Rattle.bsi_input.specs.Texts.{AreAllRecords, IsAnswered, WrotePrefix};

use std::io::Read;

/// States what holds in every script run that has begun. Each line from then on is the text of a reply that is lawful
/// in the state in which the machine then is. The machine shows what these events and replies lead to. Each feeder's
/// indexed rows followed by its waiting rows are exactly its accepted rows.
pub fn nothing_is_lost()
    ensures { (records : List (List Field)) → (lines : List (List ℕ)) → (shown : Shown)
        → AreTurns (Declaring nothing_declared) records lines (Running shown) →
        HasLawfulPast records lines shown }
{}

/// States that two script runs of the same records have the same lines, if neither has a line `no memory`.
pub fn determined()
    ensures { (records : List (List Field)) → (a b : List (List ℕ)) → IsScriptRun records a →
        IsScriptRun records b → NoneIsNoMemory a → NoneIsNoMemory b → a ≡ b }
{}

/// States that a text has exactly one list of all its records.
pub fn one_reading()
    ensures { (bytes : List ℕ) → (a b : List (List Field)) → AreAllRecords bytes a →
        AreAllRecords bytes b → a ≡ b }
{}

/// States that several calls of a row source read what one call would: the rows of all calls, in their order.
pub fn rows_by_calls<R: Read + Drop>()
    ensures { (layout : Layout) → (a b c : Reader R) → (start middle end : Counts) →
        (xs ys : List Entries)
        → HasReadRows R.remaining layout a b start middle xs →
        HasReadRows R.remaining layout b c middle end ys →
        HasReadRows R.remaining layout a c start end (xs ++ ys) }
{}

/// States that what is read, from after the header to where no record is left, are the rows of the good records of
/// the whole text, in their order, and that the count of bad records is that of all others.
pub fn rows_of_a_file<R: Read + Drop>()
    ensures { (layout : Layout) → (a b : Reader R) → (text : List ℕ) → (start end : Counts) →
        (rows : List Entries)
        → IsAfterHeader R.remaining layout a text → HasReadRows R.remaining layout a b start end rows →
        IsOverBy layout.format.config R.remaining b → IsWholeFile layout text start end rows }
{}

/// States that nothing is read before the first call of a row source.
pub fn nothing_read<R: Read + Drop>()
    ensures { (layout : Layout) → (input : Reader R) → (counts : Counts) →
        HasReadRows R.remaining layout input input counts counts [] }
{}

/// States that a reader whose bytes are known has exactly one list of rows of good records left, and exactly one number
/// of bad records.
pub fn rows_left<R: Read + Drop>()
    ensures some { (layout : Layout) → (input : Reader R) → IsSome (source_of R.remaining input)
        → (rows : List Entries) × (bad : ℕ) × HasLeft R.remaining layout input rows bad }
    ensures one { (layout : Layout) → (input : Reader R) → (xs ys : List Entries) → (m n : ℕ)
        → HasLeft R.remaining layout input xs m → HasLeft R.remaining layout input ys n →
        (xs ≡ ys) × (m ≡ n) }
{}

/// States that a reader that stands after the header of a text has left the rows of all good records of the text, and
/// a number of bad ones that is the number of all other records.
pub fn left_of_a_file<R: Read + Drop>()
    ensures { (layout : Layout) → (input : Reader R) → (text : List ℕ) → (rows : List Entries) →
        (n : ℕ)
        → IsAfterHeader R.remaining layout input text → HasLeft R.remaining layout input rows n
        → (m : ℕ) × IsWholeFile layout text (counts_of 0 0) (counts_of m n) rows }
{}

/// States that the rows that were read are the first of those that the reader had left, also without the last of them.
/// If no record is left, they are all of them, and the bad records were counted. Together with the rows that are still
/// left, they are those that the reader had.
pub fn first_of_left<R: Read + Drop>()
    ensures first { (layout : Layout) → (a b : Reader R) → (start end : Counts) →
        (xs rows : List Entries) → (n : ℕ)
        → HasReadRows R.remaining layout a b start end xs → HasLeft R.remaining layout a rows n →
        IsPrefix xs rows }
    ensures without_last { (layout : Layout) → (a b : Reader R) → (start end : Counts) →
        (xs : List Entries) → (last : Entries) → (rows : List Entries) → (n : ℕ)
        → HasReadRows R.remaining layout a b start end (xs ++ last ∷ []) →
        HasLeft R.remaining layout a rows n → IsPrefix xs rows }
    ensures all { (layout : Layout) → (a b : Reader R) → (start end : Counts) →
        (xs rows : List Entries) → (n : ℕ)
        → HasReadRows R.remaining layout a b start end xs →
        IsOverBy layout.format.config R.remaining b →
        HasLeft R.remaining layout a rows n → (xs ≡ rows) × (end.bad ≡ start.bad + n) }
    ensures rest { (layout : Layout) → (a b : Reader R) → (start end : Counts) →
        (xs ys : List Entries) → (n : ℕ) → IsSome (source_of R.remaining a)
        → HasReadRows R.remaining layout a b start end xs → HasLeft R.remaining layout b ys n
        → (m : ℕ) × HasLeft R.remaining layout a (xs ++ ys) m × (start.bad + m ≡ end.bad + n) }
{}

/// States that several calls read what one call would: the records of all calls, in their order.
pub fn read_by_calls<R: Read + Drop>()
    ensures { (a b c : Reader R) → (first last : List (List Field))
        → HasReadRecords R.remaining a b first → HasReadRecords R.remaining b c last →
        HasReadRecords R.remaining a c (first ++ last) }
{}

/// States that what is read from the start of a text to where no record is left are all its records.
pub fn records_of_a_text<R: Read + Drop>()
    ensures { (a b : Reader R) → (bytes : List ℕ) → (records : List (List Field)) →
        reader_state a ≡ st.StartRecord
        → source_of R.remaining a ≡ Some (strip_bom bytes) → HasReadRecords R.remaining a b records →
        IsOver R.remaining b → AreAllRecords bytes records }
{}

/// States that if the lines of all records were written, or nothing was, a prefix of the lines was written.
pub fn begun()
    ensures answered { (bytes : List ℕ) → (before after : Option (List ℕ)) →
        IsAnswered bytes before after → WrotePrefix bytes before after }
    ensures nothing { (bytes : List ℕ) → (before : Option (List ℕ)) → WrotePrefix bytes before before }
{}
