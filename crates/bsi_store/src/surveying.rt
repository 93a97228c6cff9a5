//! Surveys row files, and makes the schema of kinds of all of them.

ghost use Rattle.std.specs.Prelude.{◌≡◌, ◌<◌, [], All, IfOk, length};
ghost use Rattle.std.specs.List.{AllZip};
ghost use Rattle.bsi_store.specs.Surveyed.{AreSurveyed, HasDescribed, HasSurveyed};

use crate::add_file::open_each;
use crate::{StoreFault, open_file};
use bsi_answers::FilesFault;
use bsi_inference::Doubt;
use bsi_input::SourceFault;
use bsi_logical::{LogicalSchema, describe_logical};
use bsi_survey::{
    ColumnStart, JoinError, SchemaRefusal, Survey, SurveyError, SurveyOptions, find_delimiter,
};
use bsi_table::NoMemory;
use rayon::prelude::*;
use std::alloc::Global;
use std::fs::OpenFile;
use std::io::Read;
use std::rt::Files;
use std::thread::Threads;

/// How many of the first bytes of a file are looked at for the byte between its fields.
const FIRST_BYTES: usize = 1 << 16;

/// Why row files have no schema of kinds that can be found. Each path is as it was written.
#[derive(Drop)]
pub enum SurveyFault<'a> {
    /// A file can't be opened, or memory was refused.
    Store(StoreFault<'a>),
    /// What is at this path is no regular file, and can't be read twice.
    NotTwice(&'a str),
    /// The file of this path is in UTF-16.
    Utf16(&'a str),
    /// The header of the file of this path is not in UTF-8.
    NotUtf8(&'a str),
    /// The file of this path was not read to its end, or has no record.
    Unread(&'a str, SourceFault),
    /// The file of this path has another header than the first one.
    OtherHeader(&'a str),
    /// The header of the file of this path has no column of this title, which is to be saved.
    NoColumn(&'a str, Vec<u8>),
    /// The byte between the fields of the file of this path is the decimal point, too.
    PointBetween(&'a str),
    /// The files were read, and no schema was made.
    Refused(SchemaRefusal),
}

impl<'a> From<StoreFault<'a>> for SurveyFault<'a> {
    fn from(fault: StoreFault<'a>) -> Self {
        SurveyFault::Store(fault)
    }
}

impl From<NoMemory> for SurveyFault<'_> {
    fn from(_refused: NoMemory) -> Self {
        SurveyFault::Store(StoreFault::Run(FilesFault::NoMemory))
    }
}

impl From<SchemaRefusal> for SurveyFault<'_> {
    fn from(refusal: SchemaRefusal) -> Self {
        SurveyFault::Refused(refusal)
    }
}

/// Goes over row files with one header, and makes a schema of kinds by which each record that is as long as the header is
/// a row. If a column turns out to have texts behind other values, or decimals that are to be rounded, the options say
/// so, and the files are read again. At first there is a thread for each file, as far as there are processors.
pub fn survey_rows<
    'a,
    R: AllocGlobal + Files<File = S> + Threads + Sync,
    S: Read + OpenFile + Drop + Send,
>(rt: &R, paths: &[&'a str], options: &mut SurveyOptions) -> Result<LogicalSchema, SurveyFault<'a>>
    requires { 0 < length paths.now }
    ensures { IfOk result (HasSurveyed S.remaining (length paths.now)) }
{
    let refusal = match survey_once(rt, paths, options) {
        Ok(logical) => return Ok(logical),
        Err(SurveyFault::Refused(refusal)) => refusal,
        Err(fault) => return Err(fault),
    };
    if !note_starts(&refusal, options.rounding, &mut options.starts)? {
        return Err(SurveyFault::Refused(refusal));
    }
    survey_once(rt, paths, options)
}

/// Makes the text of the schema of kinds of row files that `survey_rows` makes.
pub fn describe_rows<
    'a,
    R: AllocGlobal + Files<File = S> + Threads + Sync,
    S: Read + OpenFile + Drop + Send,
>(rt: &R, paths: &[&'a str], options: &mut SurveyOptions) -> Result<Vec<u8>, SurveyFault<'a>>
    requires { 0 < length paths.now }
    ensures { IfOk result (λ text. HasDescribed S.remaining (length paths.now) text.items) }
{
    let logical = survey_rows(rt, paths, options)?;
    Ok(describe_logical(rt.alloc(), &logical)?)
}

/// Makes a schema of kinds of row files by going over them once.
fn survey_once<
    'a,
    R: AllocGlobal + Files<File = S> + Threads + Sync,
    S: Read + OpenFile + Drop + Send,
>(rt: &R, paths: &[&'a str], options: &SurveyOptions) -> Result<LogicalSchema, SurveyFault<'a>>
    requires { 0 < length paths.now }
    ensures { IfOk result (HasSurveyed S.remaining (length paths.now)) }
{
    let survey = survey_all(rt, paths, options)?;
    Ok(survey.make_schema(rt.alloc())?)
}

/// Notes what the columns in doubt may have if the files are read again, and returns whether there is one.
fn note_starts(
    refusal: &SchemaRefusal,
    rounding: Option<u32>,
    starts: &mut Vec<ColumnStart>,
) -> Result<bool, NoMemory> {
    let SchemaRefusal::Doubts(doubts) = refusal else {
        return Ok(false);
    };
    let mut found = false;
    'doubts: for doubt in doubts {
        if let Some(start) = start_of(doubt.doubt, rounding) {
            set_start(starts, doubt.column, start)?;
            found = true;
        }
    }
    Ok(found)
}

/// Returns what a column in doubt may have if its file is read again, or none if that is of no use.
fn start_of(doubt: Doubt, rounding: Option<u32>) -> Option<ColumnStart> {
    match doubt {
        Doubt::TextsMissing => Some(ColumnStart::Texts),
        Doubt::TooManyDigits(_) => rounding.map(ColumnStart::Rounded),
        Doubt::TwoOrders(_) | Doubt::TooManyTexts => None,
    }
}

/// Notes what column `c` may have.
fn set_start(starts: &mut Vec<ColumnStart>, c: usize, start: ColumnStart) -> Result<(), NoMemory> {
    if c < starts.len() {
        starts[c] = start;
    } else {
        starts.resize(c, ColumnStart::Any)?;
        starts.push(start)?;
    }
    Ok(())
}

/// Returns the byte between the fields of a row file, by its first bytes. The fault tells if it is not in UTF-8.
pub fn find_file_delimiter<'a, R: AllocGlobal + Files<File = S>, S: Read + OpenFile + Drop>(
    rt: &R,
    path: &'a str,
) -> Result<u8, SurveyFault<'a>> {
    let mut file = open_regular(rt, path)?;
    let mut first = vec![in rt.alloc(); 0u8; FIRST_BYTES]?;
    let Ok(read) = file.read(&mut first) else {
        return Err(SurveyFault::Unread(path, SourceFault::Read));
    };
    let first = &first[..read];
    if is_utf16(first) {
        return Err(SurveyFault::Utf16(path));
    }
    if !is_header_utf8(first) {
        return Err(SurveyFault::NotUtf8(path));
    }
    Ok(find_delimiter(first))
}

/// Returns whether the first bytes of a text are those of UTF-16: its byte order mark, or a byte of 0.
fn is_utf16(first: &[u8]) -> bool {
    matches!(
        first,
        [0xff, 0xfe, ..] | [0xfe, 0xff, ..] | [0, ..] | [_, 0, ..]
    )
}

/// Returns whether the first line is in UTF-8, if it ends within the first bytes of a text.
fn is_header_utf8(first: &[u8]) -> bool {
    match first.iter().position(|byte| *byte == b'\n') {
        Some(end) => std::str::from_utf8(&first[..end]).is_ok(),
        None => true,
    }
}

/// Goes once over row files with one header.
fn survey_all<
    'a,
    R: AllocGlobal + Files<File = S> + Threads + Sync,
    S: Read + OpenFile + Drop + Send,
>(rt: &R, paths: &[&'a str], options: &SurveyOptions) -> Result<Survey, SurveyFault<'a>>
    requires { 0 < length paths.now }
    ensures { IfOk result (AreSurveyed S.remaining options.now (length paths.now)) }
{
    // Surveys are joined if the columns began alike, with each kind.
    if paths.len() > 1 && options.starts.is_empty() {
        let files = open_each(rt, paths)?;
        check_each_regular(&files, paths)?;
        let surveys = survey_each(rt, rt.alloc(), files, options)?;
        return join_surveys::<S>(options, paths, surveys);
    }
    survey_in_turn(rt, paths, options)
}

/// Goes over each of several row files, on as many threads as there are processors. The surveys are in order of the files.
fn survey_each<R: Threads + Sync, S: Read + Drop + Send>(
    rt: &R,
    alloc: Global,
    files: Vec<S>,
    options: &SurveyOptions,
) -> Result<Vec<Result<Survey, SurveyError>>, NoMemory>
    ensures { IfOk result (λ surveys. AllZip
        (λ _ survey. IfOk survey (AreSurveyed S.remaining options.now 1)) files.items surveys.items) }
{
    files
        .into_par_iter()
        .with_min_len(1)
        .map(
            |file: S| -> Result<Survey, SurveyError>
                ensures { IfOk result (AreSurveyed S.remaining options.entry.now 1) }
            { survey_file(alloc, file, options) },
        )
        .collect(rt, alloc)
}

/// Goes over a row file, and over no other.
fn survey_file<S: Read + Drop>(
    alloc: Global,
    file: S,
    options: &SurveyOptions,
) -> Result<Survey, SurveyError>
    ensures { IfOk result (AreSurveyed S.remaining options.now 1) }
{
    Survey::read(alloc, file, options)
}

/// Joins the surveys of row files, one of each, which have one header.
fn join_surveys<'a, S: Read>(
    options: &SurveyOptions,
    paths: &[&'a str],
    surveys: Vec<Result<Survey, SurveyError>>,
) -> Result<Survey, SurveyFault<'a>>
    requires many { length surveys.items ≡ length paths.now }
    requires starts { options.now.starts.items ≡ [] }
    requires each { All (λ survey. IfOk survey (AreSurveyed S.remaining options.now 1)) surveys.items }
    ensures { IfOk result (AreSurveyed S.remaining options.now (length paths.now)) }
{
    let mut joined = None;
    let mut k = 0;
    'files: for next in surveys {
        let Some(path) = paths.get(k) else {
            return Err(SurveyFault::from(NoMemory));
        };
        let next = match next {
            Ok(next) => next,
            Err(why) => return Err(survey_fault(path, why)),
        };
        joined = match joined {
            None => Some(next),
            Some(mut survey) => match survey.join(next) {
                Ok(()) => Some(survey),
                Err(why) => return Err(join_fault(path, why)),
            },
        };
        k += 1;
    }
    // There is a file.
    joined.ok_or(SurveyFault::from(NoMemory))
}

/// Returns the fault of a file of a path whose survey does not join those of the files before.
fn join_fault(path: &str, why: JoinError) -> SurveyFault<'_> {
    match why {
        JoinError::OtherHeader => SurveyFault::OtherHeader(path),
        JoinError::TooLong => SurveyFault::Unread(path, SourceFault::TooLong),
        JoinError::NoMemory => SurveyFault::from(NoMemory),
    }
}

/// Goes once over row files with one header, one after the other.
fn survey_in_turn<'a, R: AllocGlobal + Files<File = S>, S: Read + OpenFile + Drop>(
    rt: &R,
    paths: &[&'a str],
    options: &SurveyOptions,
) -> Result<Survey, SurveyFault<'a>>
    requires { 0 < length paths.now }
    ensures { IfOk result (AreSurveyed S.remaining options.now (length paths.now)) }
{
    let mut survey = survey_first(rt, paths[0], options)?;
    'files: for k in 1..paths.len() {
        let Some(path) = paths.get(k) else {
            return Err(SurveyFault::from(NoMemory));
        };
        let file = open_regular(rt, path)?;
        match survey.read_more(rt.alloc(), file) {
            Ok(true) => {}
            Ok(false) => return Err(SurveyFault::OtherHeader(path)),
            Err(fault) => return Err(SurveyFault::Unread(path, fault)),
        }
    }
    Ok(survey)
}

/// Goes over a row file, and before any other.
fn survey_first<'a, R: AllocGlobal + Files<File = S>, S: Read + OpenFile + Drop>(
    rt: &R,
    path: &'a str,
    options: &SurveyOptions,
) -> Result<Survey, SurveyFault<'a>>
    ensures { IfOk result (AreSurveyed S.remaining options.now 1) }
{
    let file = open_regular(rt, path)?;
    match survey_file(rt.alloc(), file, options) {
        Ok(survey) => Ok(survey),
        Err(why) => Err(survey_fault(path, why)),
    }
}

/// Returns the fault of a file of a path that was not surveyed.
fn survey_fault(path: &str, why: SurveyError) -> SurveyFault<'_> {
    match why {
        SurveyError::Source(fault) => SurveyFault::Unread(path, fault),
        SurveyError::NoColumn(title) => SurveyFault::NoColumn(path, title),
    }
}

/// Opens a regular file, which can be read twice.
fn open_regular<'a, R: Files<File = S>, S: Read + OpenFile + Drop>(
    rt: &R,
    path: &'a str,
) -> Result<S, SurveyFault<'a>> {
    let file = open_file(rt, path)?;
    check_regular(&file, path)?;
    Ok(file)
}

/// Refuses a file of several that is no regular one.
fn check_each_regular<'a, S: OpenFile>(
    files: &[S],
    paths: &[&'a str],
) -> Result<(), SurveyFault<'a>> {
    'files: for (file, path) in files.iter().zip(paths) {
        check_regular(file, *path)?;
    }
    Ok(())
}

/// Refuses the file of a path that is no regular one, and can't be read twice.
fn check_regular<'a, S: OpenFile>(file: &S, path: &'a str) -> Result<(), SurveyFault<'a>> {
    match file.metadata() {
        Ok(metadata) if metadata.is_file() => Ok(()),
        Ok(_) | Err(_) => Err(SurveyFault::NotTwice(path)),
    }
}
