//! Reads what is said of row files whose schema is to be found (`RowOptions`, `SchemaRequest`).
ghost use Rattle.std.specs.Prelude.{◌<◌, length};

use bsi_kinds::{DateOrder, MAX_PLACES};
use bsi_logical::Dialect;
use bsi_rows::NoMemory;
use bsi_survey::SurveyOptions;
use bsi_syntax::field;
use clap::ArgMatches;
use csv::{ByteRecord, ReaderBuilder};
use std::alloc::Global;

/// What is said of row files whose schema is to be found.
#[derive(Drop)]
pub(crate) struct RowOptions {
    /// The byte between fields, or none if it is to be found.
    pub(crate) delimiter: Option<u8>,
    /// The decimal point.
    pub(crate) point: u8,
    /// Whether the day or the month is first in dates that have the year last, or none if that is to be found.
    pub(crate) order: Option<DateOrder>,
    /// The null words beside the usual ones.
    pub(crate) nulls: Vec<Vec<u8>>,
    /// The titles of the columns that are saved, or none if each column is.
    pub(crate) columns: Option<Vec<Vec<u8>>>,
    /// To how many places decimals of too many digits are rounded, or none if they are refused.
    pub(crate) rounding: Option<u32>,
}

/// What `bsi schema` is to do.
#[derive(Drop)]
pub(crate) struct SchemaRequest<'a> {
    /// What is said of the row files.
    pub(crate) options: RowOptions,
    /// The row files.
    pub(crate) rows: Vec<&'a str>,
    ghost some: { 0 < length rows.items },
}

impl RowOptions {
    /// Makes the options of a survey of files with this byte between fields.
    pub(crate) fn survey_options(
        &self,
        alloc: Global,
        delimiter: u8,
    ) -> Result<SurveyOptions, NoMemory> {
        let columns = match &self.columns {
            Some(titles) => Some(copy_each(alloc, titles)?),
            None => None,
        };
        Ok(SurveyOptions {
            dialect: Dialect {
                delimiter,
                point: self.point,
            },
            order: self.order,
            nulls: copy_each(alloc, &self.nulls)?,
            columns,
            rounding: self.rounding,
            starts: Vec::new(alloc),
        })
    }

    /// Returns whether the decimal point is not the byte between fields, so far as that is said.
    fn is_valid(&self) -> bool {
        let delimiter = self.delimiter.unwrap_or(b'|');
        let dialect = Dialect {
            delimiter,
            point: self.point,
        };
        dialect.is_valid()
    }
}

/// Reads the options of `bsi save`, or returns none if they are wrong.
pub(crate) fn read_row_options(
    alloc: Global,
    given: &ArgMatches<'_>,
) -> Result<Option<RowOptions>, NoMemory> {
    let (Some(delimiter), Some(point), Some(order), Some(rounding)) = (
        read_delimiter(given.get_str("delimiter")),
        read_point(given.get_str("decimal")),
        read_order(given.get_str("dates")),
        read_rounding(given.get_str("round")),
    ) else {
        return Ok(None);
    };
    let Some(columns) = read_columns(alloc, given.get_str("columns"))? else {
        return Ok(None);
    };
    let options = RowOptions {
        delimiter,
        point,
        order,
        nulls: copy_words(alloc, given.get_strs("null").unwrap_or(&[]))?,
        columns,
        rounding,
    };
    Ok(options.is_valid().then_some(options))
}

/// Returns whether anything is said of row files.
pub(crate) fn has_row_options(given: &ArgMatches<'_>) -> bool {
    let options = ["delimiter", "decimal", "dates", "null", "columns", "round"];
    options.iter().any(|name| given.get_strs(name).is_some())
}

/// Reads the byte between fields: one byte, or `tab`.
fn read_delimiter(word: Option<&str>) -> Option<Option<u8>> {
    match word {
        None => Some(None),
        Some("tab") => Some(Some(b'\t')),
        Some(word) => only_byte(word.as_bytes()).map(Some),
    }
}

/// Returns the byte of a text of one byte.
fn only_byte(text: &[u8]) -> Option<u8> {
    match text {
        [byte] => Some(*byte),
        _ => None,
    }
}

/// Reads the decimal point.
fn read_point(word: Option<&str>) -> Option<u8> {
    match word {
        None | Some(".") => Some(b'.'),
        Some(",") => Some(b','),
        Some(_) => None,
    }
}

/// Reads whether the day or the month is first.
fn read_order(word: Option<&str>) -> Option<Option<DateOrder>> {
    match word {
        None => Some(None),
        Some("dmy") => Some(Some(DateOrder::DayFirst)),
        Some("mdy") => Some(Some(DateOrder::MonthFirst)),
        Some(_) => None,
    }
}

/// Reads a number of places, at most 18.
fn read_rounding(word: Option<&str>) -> Option<Option<u32>> {
    let Some(word) = word else {
        return Some(None);
    };
    match word.parse::<u32>() {
        Ok(places) if places <= MAX_PLACES => Some(Some(places)),
        Ok(_) | Err(_) => None,
    }
}

/// Reads titles with a comma between two, in double quotes if needed.
fn read_columns(
    alloc: Global,
    word: Option<&str>,
) -> Result<Option<Option<Vec<Vec<u8>>>>, NoMemory> {
    let Some(word) = word else {
        return Ok(Some(None));
    };
    let mut input = ReaderBuilder::new()
        .has_headers(false)
        .from_reader(alloc, word.as_bytes());
    let mut fields = ByteRecord::new(alloc);
    match input.read_byte_record(&mut fields) {
        Ok(true) => Ok(Some(Some(list_fields(alloc, &fields)?))),
        Ok(false) => Ok(None),
        Err(_) => Err(NoMemory),
    }
}

/// Makes a list of the fields of a record.
fn list_fields(alloc: Global, fields: &ByteRecord) -> Result<Vec<Vec<u8>>, NoMemory> {
    let mut list = Vec::new(alloc);
    'fields: for index in 0..fields.len() {
        let text = Vec::from_slice(alloc, field(fields, index))?;
        list.push(text)?;
    }
    Ok(list)
}

/// Makes a list of the bytes of words.
fn copy_words(alloc: Global, words: &[&str]) -> Result<Vec<Vec<u8>>, NoMemory> {
    let mut list = Vec::new(alloc);
    'words: for word in words {
        let text = Vec::from_slice(alloc, word.as_bytes())?;
        list.push(text)?;
    }
    Ok(list)
}

/// Makes a copy of a list of texts.
fn copy_each(alloc: Global, texts: &[Vec<u8>]) -> Result<Vec<Vec<u8>>, NoMemory> {
    let mut list = Vec::new(alloc);
    'texts: for text in texts {
        let copy = Vec::from_slice(alloc, text.as_slice())?;
        list.push(copy)?;
    }
    Ok(list)
}
