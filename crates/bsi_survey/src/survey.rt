//! What was seen of the texts of row files (`Survey`): their header, what kind each column may have, and how many records
//! were read.

ghost use Rattle.std.specs.Prelude.{◌≡◌, length, map, IfOk};
ghost use Rattle.csv.specs.Records.{fields_of};
ghost use Rattle.bsi_logical.specs.HeaderTitles.{titles_of};

use crate::NoMemory;
use crate::choice::Choice;
use crate::choosing::{choose, choose_titles, find_missing, is_same_choice};
use crate::counts::Counts;
use crate::deciding::{decide_each, list_columns, list_doubts};
use crate::join_error::JoinError;
use crate::joining::{are_same_fields, join_each};
use crate::making::make_logical;
use crate::observing::observe_all;
use crate::options::SurveyOptions;
use crate::reading::{read_next, record_reader};
use crate::repeated::find_repeated;
use crate::schema_refusal::SchemaRefusal;
use crate::survey_error::SurveyError;
use crate::titling::list_titles;
use bsi_inference::Candidates;
use bsi_input::SourceFault;
use bsi_logical::{Dialect, LogicalSchema};
use bsi_schema::MAX_COLUMNS;
use bsi_syntax::field;
use csv::ByteRecord;
use std::alloc::Global;
use std::io::Read;

/// What was seen of the texts of row files with one header.
#[derive(Drop)]
pub struct Survey {
    pub(crate) dialect: Dialect,
    pub(crate) header: Vec<Vec<u8>>,
    pub(crate) titles: Vec<Vec<u8>>,
    pub(crate) choice: Choice,
    pub(crate) words: Vec<Vec<u8>>,
    pub(crate) columns: Vec<Candidates>,
    pub(crate) counts: Counts,
    ghost chosen: { length choice.indexes.items ≡ length columns.items },
    ghost many: { choice.many ≡ length header.items },
    ghost titled: { map (λ title. title.items) titles.items
        ≡ titles_of (map (λ field. field.items) header.items) },
}

impl Survey {
    ghost use Rattle.std.specs.Prelude.{◌+◌, ◌<◌, ◌≤◌, ◌≢◌, ◌⊎◌, ℕ, Bool, List, [], All, Err, slice_index_or, true, IfErr, IfSome, IsSome, IsTrue, OnErr, OnOk};
    ghost use Rattle.bsi_schema.specs.Columns.{max_columns};
    ghost use Rattle.bsi_rows.specs.Fields.{Field};
    ghost use Rattle.bsi_input.specs.Formats.{good_row};
    ghost use Rattle.bsi_logical.specs.LogicalRows.{has_titles, logical_format};
    ghost use Rattle.bsi_inference.specs.ColumnCandidates.{Accepts, LooksFor as LooksForKinds};
    ghost use Rattle.bsi_inference.specs.declared.candidates.Candidates.{Candidates};
    ghost use Rattle.bsi_survey.specs.declared.options.ColumnStart.{ColumnStart};
    ghost use Rattle.bsi_survey.specs.Made.{IsGoodField, IsLateRefusal};
    ghost use Rattle.bsi_survey.specs.Titles.{AreDistinct, IsFirstRepeated};
    ghost use Rattle.bsi_survey.specs.Choices.{chosen_fields};
    ghost use Rattle.bsi_survey.specs.Looking.{AcceptMore, AcceptsRecord, AreLookedFor, HaveJoined};
    ghost use Rattle.bsi_survey.specs.Surveys.{header_of, FitsText, LookAlike, LooksFor, PassCounts, SeesText, Surveys};
    ghost use Rattle.bsi_survey.specs.TextRecords.{AreTextRecords};

    /// Goes once over a text. Its first record is the header. Each further record of as many fields is shown to the
    /// columns that are surveyed, field by field; one of more or fewer is counted as bad and passed over. The fault is
    /// `BadHeader`, if the text has no record.
    pub fn read<R: Read + Drop>(
        alloc: Global,
        reader: R,
        options: &SurveyOptions,
    ) -> Result<Survey, SurveyError>
        ensures surveys { IfOk result (λ survey. IfSome (R.remaining reader)
            (λ bytes. Surveys options.now bytes survey)) }
        ensures dialect { IfOk result (λ survey. survey.dialect ≡ options.now.dialect) }
        ensures looked { IfOk result (λ survey. AreLookedFor options.now.dialect.point
            options.now.starts.items survey.columns.items) }
        ensures sees { IfOk result (λ survey. IfSome (R.remaining reader) (SeesText survey)) }
        ensures empty { result ≡ Err (SurveyError.Source SourceFault.BadHeader) →
            IfSome (R.remaining reader)
            (λ bytes. AreTextRecords options.now.dialect.delimiter bytes []) }
    {
        let mut input = record_reader(alloc, options.dialect.delimiter, reader);
        let mut fields = ByteRecord::new(alloc);
        if !read_next(&mut input, &mut fields)? {
            return Err(SurveyError::Source(SourceFault::BadHeader));
        }
        let header = list_fields(alloc, &fields)?;
        let titles = list_titles(alloc, &header)?;
        if let Some(title) = find_missing(alloc, &titles, &options.columns)? {
            return Err(SurveyError::NoColumn(title));
        }
        let choice = choose(alloc, &titles, &options.columns)?;
        let mut columns = options.begin_columns(alloc, choice.indexes.len())?;
        let words = options.list_null_words(alloc)?;
        let mut counts = Counts::new();
        observe_all(
            &mut input,
            &words,
            &choice,
            &mut fields,
            &mut columns,
            &mut counts,
        )?;
        Ok(Survey {
            dialect: options.dialect,
            header,
            titles,
            choice,
            words,
            columns,
            counts,
        })
    }

    /// Goes once over a further text, as `read` does, and shows its records to the columns, too. It returns false if the
    /// text has another header; then nothing has changed. The fault is `BadHeader`, if the text has no record. After
    /// another fault the columns may have seen some of the records.
    pub fn read_more<R: Read + Drop>(
        &mut self,
        alloc: Global,
        reader: R,
    ) -> Result<bool, SourceFault>
        ensures sees { IfOk result (λ same. same ≡ true → IfSome (R.remaining reader) (SeesText self.new)) }
        ensures preserved { OnOk result ((bytes : List ℕ) → SeesText self.old bytes → SeesText self.new bytes) }
        ensures dialect { OnOk result (self.new.dialect ≡ self.old.dialect) }
        ensures looked { OnOk result ((starts : List ColumnStart) →
            AreLookedFor self.old.dialect.point starts self.old.columns.items →
            AreLookedFor self.new.dialect.point starts self.new.columns.items) }
    {
        let mut input = record_reader(alloc, self.dialect.delimiter, reader);
        let mut fields = ByteRecord::new(alloc);
        if !read_next(&mut input, &mut fields)? {
            return Err(SourceFault::BadHeader);
        }
        let header = list_fields(alloc, &fields)?;
        if !are_same_fields(&self.header, &header) {
            return Ok(false);
        }
        observe_all(
            &mut input,
            &self.words,
            &self.choice,
            &mut fields,
            &mut self.columns,
            &mut self.counts,
        )?;
        Ok(true)
    }

    /// Returns how many records were read after the header.
    pub fn counts(&self) -> Counts
        ensures { result ≡ self.now.counts }
    {
        self.counts
    }

    /// Joins what was seen of other texts, which have the same header and the same columns of it. If these differ, or 64
    /// bits do not hold the counts, nothing changes. If memory is refused, some columns have joined the others, and the counts stay.
    pub fn join(&mut self, other: Survey) -> Result<(), JoinError>
        requires { LookAlike self.old other }
        ensures header { OnOk result (header_of other ≡ header_of self.old) }
        ensures same { header_of self.new ≡ header_of self.old }
        ensures dialect { self.new.dialect ≡ self.old.dialect }
        ensures preserved { AcceptMore self.old.columns.items self.new.columns.items }
        ensures looked { (point : ℕ) → All (LooksForKinds point) self.old.columns.items →
            All (LooksForKinds point) self.new.columns.items }
        ensures joined { OnOk result (AcceptMore other.columns.items self.new.columns.items) }
        ensures still { OnOk result ((bytes : List ℕ) → SeesText self.old bytes → SeesText self.new bytes) }
        ensures sees { OnOk result (other.dialect ≡ self.old.dialect →
            (bytes : List ℕ) → SeesText other bytes → SeesText self.new bytes) }
        ensures good { OnOk result (self.new.counts.good ≡ self.old.counts.good + other.counts.good) }
        ensures bad { OnOk result (self.new.counts.bad ≡ self.old.counts.bad + other.counts.bad) }
        ensures kinds { OnOk result
            (HaveJoined self.old.columns.items other.columns.items self.new.columns.items) }
        ensures other { result ≡ Err JoinError.OtherHeader → (header_of other ≢ header_of self.old)
            ⊎ (other.choice.indexes.items ≢ self.old.choice.indexes.items) }
        ensures long { result ≡ Err JoinError.TooLong → PassCounts self.old.counts other.counts }
        ensures unchanged { IfErr result (λ why. why ≢ JoinError.NoMemory → self.new ≡ self.old) }
        ensures kept { OnErr result (self.new.counts ≡ self.old.counts) }
    {
        if !are_same_fields(&self.header, &other.header) {
            return Err(JoinError::OtherHeader);
        }
        if !is_same_choice(&self.choice, &other.choice) {
            return Err(JoinError::OtherHeader);
        }
        let Some(counts) = self.counts.with(other.counts) else {
            return Err(JoinError::TooLong);
        };
        let Survey {
            dialect: _,
            header: _,
            titles: _,
            choice: _,
            words: _,
            columns,
            counts: _,
        } = other;
        join_each(&mut self.columns, columns)?;
        self.counts = counts;
        Ok(())
    }

    /// Makes the schema of the files: a column of slices for each column that was surveyed, wide enough for the numbers of
    /// its fields and about as many again. The titles are those of the header, and the names are made of them. The null
    /// words that were met are nulls of the schema, if they stand in a column of no texts. A column of nulls alone has
    /// whole numbers, in one slice.
    pub fn make_schema(self, alloc: Global) -> Result<LogicalSchema, SchemaRefusal>
        requires { LooksFor self }

        // The header is one of the schema, and a record as long as the header is a row, if its fields were accepted.
        ensures header { IfOk result (λ l. IsTrue (has_titles l (header_of self))) }
        ensures rows { IfOk result (λ l. (fields : List Field) → length fields ≡ length (header_of self) →
            AcceptsRecord self.columns.items (chosen_fields self.choice fields) →
            IsSome (good_row (logical_format l) (header_of self) fields)) }

        ensures good { IfOk result (λ l. (c : ℕ) → (d : Candidates) → c < length self.columns.items →
            (f : Field) → Accepts (slice_index_or self.columns.items c d) f → IsGoodField l c f) }
        ensures columns { IfOk result (λ l. length l.schema.columns ≡ length self.columns.items) }
        ensures titles { IfOk result (λ l. l.titles ≡
            chosen_fields self.choice (titles_of (header_of self))) }
        ensures dialect { IfOk result (λ l. l.dialect ≡ self.dialect) }

        // Each text that was seen fits the schema.
        ensures fits { IfOk result (λ l. (bytes : List ℕ) → SeesText self bytes → FitsText l bytes) }

        // No title tells two columns apart that have the same.
        ensures many { max_columns < length self.columns.items → result ≡ Err SchemaRefusal.TooManyColumns }
        ensures repeated { (c : ℕ) → length self.columns.items ≤ max_columns →
            IsFirstRepeated (titles_of (header_of self)) c →
            result ≡ Err (SchemaRefusal.RepeatedTitle c) }
        ensures only_many { result ≡ Err SchemaRefusal.TooManyColumns →
            max_columns < length self.columns.items }
        ensures only_repeated { (c : ℕ) → result ≡ Err (SchemaRefusal.RepeatedTitle c) →
            IsFirstRepeated (titles_of (header_of self)) c }
    {
        if self.columns.len() > MAX_COLUMNS as usize {
            return Err(SchemaRefusal::TooManyColumns);
        }
        match find_repeated(&self.titles) {
            Some(c) => Err(SchemaRefusal::RepeatedTitle(c)),
            None => self.make_titled(alloc),
        }
    }

    /// Makes the schema of the files, no two titles of which are the same.
    fn make_titled(self, alloc: Global) -> Result<LogicalSchema, SchemaRefusal>
        requires looks { LooksFor self }
        requires distinct { AreDistinct (titles_of (header_of self)) }
        ensures header { IfOk result (λ l. IsTrue (has_titles l (header_of self))) }
        ensures rows { IfOk result (λ l. (fields : List Field) → length fields ≡ length (header_of self) →
            AcceptsRecord self.columns.items (chosen_fields self.choice fields) →
            IsSome (good_row (logical_format l) (header_of self) fields)) }
        ensures good { IfOk result (λ l. (c : ℕ) → (d : Candidates) → c < length self.columns.items →
            (f : Field) → Accepts (slice_index_or self.columns.items c d) f → IsGoodField l c f) }
        ensures columns { IfOk result (λ l. length l.schema.columns ≡ length self.columns.items) }
        ensures titles { IfOk result (λ l. l.titles ≡
            chosen_fields self.choice (titles_of (header_of self))) }
        ensures dialect { IfOk result (λ l. l.dialect ≡ self.dialect) }
        ensures late { IfErr result IsLateRefusal }
    {
        let Survey {
            dialect,
            header: _,
            titles,
            choice,
            words: _,
            columns,
            counts: _,
        } = self;
        let titles = choose_titles(alloc, &titles, &choice)?;
        let decisions = decide_each(alloc, columns)?;
        let doubts = list_doubts(alloc, &titles, &decisions)?;
        let listed = list_columns(alloc, decisions)?;
        let Some(columns) = listed else {
            return Err(SchemaRefusal::Doubts(doubts));
        };
        make_logical(alloc, dialect, &titles, columns)
    }
}

/// Makes a list of the fields of a record.
fn list_fields(alloc: Global, fields: &ByteRecord) -> Result<Vec<Vec<u8>>, NoMemory>
    ensures { IfOk result (λ list. map (λ field. field.items) list.items ≡ fields_of fields.now) }
{
    let mut list = Vec::new(alloc);
    'fields: for index in 0..fields.len() {
        let text = Vec::from_slice(alloc, field(fields, index))?;
        list.push(text)?;
    }
    Ok(list)
}
