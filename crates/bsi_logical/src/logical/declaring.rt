//! Declares a column, limit, dialect, null word, title, kind or text of a logical schema: by a record (`declare`), and
//! the last five also by calls.

ghost use Rattle.std.specs.Prelude.{◌≡◌, ◌<◌, [], Some, get_or, length, option_map};
ghost use Rattle.csv.specs.Records.{fields_of};
ghost use Rattle.bsi_kinds.specs.Kinds.{IsKind};
ghost use Rattle.bsi_syntax.specs.Reading.{texts};
ghost use Rattle.bsi_logical.specs.Records.{column_said, dialect_given, dialect_of, dialect_said, is_of_whole_numbers, kind_given, kind_said, limit_said, null_given, null_said, pair_of, record_said, text_added, text_given, text_said, title_given, title_said, word_of, Does};

use crate::dialect::Dialect;
use crate::kind_words::{read_byte, read_kind};
use crate::logical::LogicalSchema;
use crate::{DeclareError, Refusal};
use bsi_kinds::Kind;
use bsi_syntax::{field, lend_fields, read_setup};
use csv::ByteRecord;
use std::alloc::Global;

/// The word that a record begins with.
#[derive(Clone, Copy, Debug, PartialEq, Eq)]
enum Word {
    Column,
    Limit,
    Dialect,
    Null,
    Title,
    Kind,
    Text,
}

/// Reads the word that a record begins with.
fn read_word(text: &[u8]) -> Option<Word>
    ensures { result ≡ word_of text.now }
{
    if text == b"column".as_slice() {
        Some(Word::Column)
    } else if text == b"limit".as_slice() {
        Some(Word::Limit)
    } else if text == b"dialect".as_slice() {
        Some(Word::Dialect)
    } else if text == b"null".as_slice() {
        Some(Word::Null)
    } else if text == b"title".as_slice() {
        Some(Word::Title)
    } else if text == b"kind".as_slice() {
        Some(Word::Kind)
    } else if text == b"text".as_slice() {
        Some(Word::Text)
    } else {
        None
    }
}

impl LogicalSchema {
    /// Carries out a record: `column` and `limit` as a schema file has them, `dialect,DELIMITER,POINT`, `null,WORD`,
    /// `title,NAME,TITLE`, `kind,NAME,KIND` or `text,NAME,TEXT`. A kind is `decimal,PLACES` (1 to 18 places),
    /// `decimal,PLACES,rounded` (0 to 18; a field of more places is rounded),
    /// `date,ORDER,SIGN` (ORDER is `ymd`, `dmy` or `mdy`, SIGN one byte), `time,UNIT,ZONE` (UNIT is `s`, `ms` or `us`,
    /// ZONE `local` or `utc`), `time,UNIT,ZONE,ORDER,SIGN`, `boolean,YES,NO` or `text`. If the record says nothing, or
    /// memory is refused, the schema stays as it was.
    pub fn declare(&mut self, alloc: Global, fields: &ByteRecord) -> Result<(), DeclareError>
        ensures { Does (record_said self.old (fields_of fields.now)) self.old self.new result }
    {
        let lent = lend_fields(alloc, fields)?;
        let Some((word, behind)) = lent.split_first() else {
            return Err(DeclareError::Refused(Refusal::UnknownWord));
        };
        match read_word(word) {
            Some(Word::Column) => self.declare_column(alloc, fields),
            Some(Word::Limit) => self.declare_limit(alloc, fields),
            Some(Word::Dialect) => self.declare_dialect(behind),
            Some(Word::Null) => self.declare_null(alloc, behind),
            Some(Word::Title) => self.declare_title(alloc, behind),
            Some(Word::Kind) => self.declare_kind(alloc, behind),
            Some(Word::Text) => self.declare_text(alloc, behind),
            None => Err(DeclareError::Refused(Refusal::UnknownWord)),
        }
    }

    /// Adds the column of a record `column`, of whole numbers, whose title is its name.
    fn declare_column(&mut self, alloc: Global, fields: &ByteRecord) -> Result<(), DeclareError>
        requires { word_of (get_or (fields_of fields.now) 0 []) ≡ Some Word.Column }
        ensures { Does (column_said self.old (fields_of fields.now)) self.old self.new result }
    {
        let name = field(fields, 1);
        if self.find(name).is_some() {
            return Err(DeclareError::Refused(Refusal::NameTaken));
        }
        let title = Vec::from_slice(alloc, name)?;
        self.titles.reserve(1)?;
        self.kinds.reserve(1)?;
        if !read_setup(alloc, &mut self.schema, &mut self.limit, fields)? {
            return Err(DeclareError::Refused(Refusal::BadTable));
        }
        self.titles.push_reserved(title);
        self.kinds.push_reserved(Kind::Decimal(0));
        Ok(())
    }

    /// Sets the limit by a record `limit`.
    fn declare_limit(&mut self, alloc: Global, fields: &ByteRecord) -> Result<(), DeclareError>
        requires { word_of (get_or (fields_of fields.now) 0 []) ≡ Some Word.Limit }
        ensures { Does (limit_said self.old (fields_of fields.now)) self.old self.new result }
    {
        if !read_setup(alloc, &mut self.schema, &mut self.limit, fields)? {
            return Err(DeclareError::Refused(Refusal::BadTable));
        }
        Ok(())
    }

    /// Sets the dialect by the fields behind `dialect`.
    fn declare_dialect(&mut self, fields: &[&[u8]]) -> Result<(), DeclareError>
        ensures { Does (dialect_said self.old (texts fields.now)) self.old self.new result }
    {
        match read_dialect(fields) {
            Some(dialect) => self.set_dialect(dialect),
            None => Err(DeclareError::Refused(Refusal::BadDialect)),
        }
    }

    /// Sets another dialect than the usual one, which the schema has until then. If it is refused, the schema stays as it was.
    pub fn set_dialect(&mut self, dialect: Dialect) -> Result<(), DeclareError>
        ensures { Does (dialect_given self.old dialect) self.old self.new result }
    {
        if !self.dialect.is_usual() {
            return Err(DeclareError::Refused(Refusal::DialectDeclared));
        }
        if !dialect.is_valid() || dialect.is_usual() {
            return Err(DeclareError::Refused(Refusal::BadDialect));
        }
        self.dialect = dialect;
        Ok(())
    }

    /// Adds the null word of the fields behind `null`.
    fn declare_null(&mut self, alloc: Global, fields: &[&[u8]]) -> Result<(), DeclareError>
        ensures { Does (null_said self.old (texts fields.now)) self.old self.new result }
    {
        match fields {
            [word] => self.add_null(alloc, word),
            _ => Err(DeclareError::Refused(Refusal::BadNull)),
        }
    }

    /// Adds a null word, which is neither empty nor there already. If it is refused, or memory is, the schema stays as
    /// it was.
    pub fn add_null(&mut self, alloc: Global, word: &[u8]) -> Result<(), DeclareError>
        ensures { Does (null_given self.old word.now) self.old self.new result }
    {
        if word.is_empty() || self.is_null_word(word) {
            return Err(DeclareError::Refused(Refusal::NullDeclared));
        }
        let word = Vec::from_slice(alloc, word)?;
        self.nulls.reserve(1)?;
        self.nulls.push_reserved(word);
        Ok(())
    }

    /// Sets a title by the fields behind `title`.
    fn declare_title(&mut self, alloc: Global, fields: &[&[u8]]) -> Result<(), DeclareError>
        ensures { Does (title_said self.old (texts fields.now)) self.old self.new result }
    {
        let Some((name, title)) = read_pair(fields) else {
            return Err(DeclareError::Refused(Refusal::BadTitle));
        };
        match self.schema.find(name) {
            Some(c) => self.set_title(alloc, c, title),
            None => Err(DeclareError::Refused(Refusal::NoColumn)),
        }
    }

    /// Gives column `c` a title in place of its name. It is refused if the column has a title already, or a column is
    /// called so; then, or if memory is refused, the schema stays as it was.
    pub fn set_title(&mut self, alloc: Global, c: u32, title: &[u8]) -> Result<(), DeclareError>
        requires { c < length self.old.schema.columns }
        ensures { Does (title_given self.old c title.now) self.old self.new result }
    {
        if self.title(c) != self.schema.name(c).as_bytes() {
            return Err(DeclareError::Refused(Refusal::TitleDeclared));
        }
        if self.find(title).is_some() {
            return Err(DeclareError::Refused(Refusal::TitleTaken));
        }
        let title = Vec::from_slice(alloc, title)?;
        self.titles[c as usize] = title;
        Ok(())
    }

    /// Sets a kind by the fields behind `kind`.
    fn declare_kind(&mut self, alloc: Global, fields: &[&[u8]]) -> Result<(), DeclareError>
        ensures { Does (kind_said self.old (texts fields.now)) self.old self.new result }
    {
        let Some((name, words)) = fields.split_first() else {
            return Err(DeclareError::Refused(Refusal::BadKind));
        };
        let Some(c) = self.schema.find(name) else {
            return Err(DeclareError::Refused(Refusal::NoColumn));
        };
        match read_kind(alloc, words)? {
            Some(kind) => self.set_kind(c, kind),
            None => Err(DeclareError::Refused(Refusal::BadKind)),
        }
    }

    /// Gives column `c` of whole numbers a kind. It is refused if the column has a kind already; then the schema stays
    /// as it was. It allocates no memory.
    pub fn set_kind(&mut self, c: u32, kind: Kind) -> Result<(), DeclareError>
        requires column { c < length self.old.schema.columns }
        requires kind { IsKind kind }
        ensures { Does (kind_given self.old c kind) self.old self.new result }
    {
        if !is_of_whole_numbers(self.kind(c)) {
            return Err(DeclareError::Refused(Refusal::KindDeclared));
        }
        self.kinds[c as usize] = kind;
        Ok(())
    }

    /// Adds a text by the fields behind `text`.
    fn declare_text(&mut self, alloc: Global, fields: &[&[u8]]) -> Result<(), DeclareError>
        ensures { Does (text_said self.old (texts fields.now)) self.old self.new result }
    {
        let Some((name, text)) = read_pair(fields) else {
            return Err(DeclareError::Refused(Refusal::NoTexts));
        };
        match self.schema.find(name) {
            Some(c) => self.add_text(alloc, c, text),
            None => Err(DeclareError::Refused(Refusal::NoColumn)),
        }
    }

    /// Adds a text to those of column `c`, behind the others. It is refused if the column is not of texts, or the text
    /// does not come after the last one; then, or if memory is refused, the schema stays as it was.
    pub fn add_text(&mut self, alloc: Global, c: u32, text: &[u8]) -> Result<(), DeclareError>
        requires { c < length self.old.schema.columns }
        ensures { Does (text_given self.old c text.now) self.old self.new result }
    {
        let text = Vec::from_slice(alloc, text)?;
        add_text(&mut self.kinds[c as usize], text)
    }
}

/// Lends the fields, if they are two.
fn read_pair<'f>(fields: &'f [&'f [u8]]) -> Option<(&'f [u8], &'f [u8])>
    ensures { option_map (λ pair. (pair.0.now, pair.1.now)) result ≡ pair_of (texts fields.now) }
{
    match fields {
        [first, second] => Some((first, second)),
        _ => None,
    }
}

/// Reads a delimiter and a decimal point.
fn read_dialect(fields: &[&[u8]]) -> Option<Dialect>
    ensures { result ≡ dialect_of (texts fields.now) }
{
    let [delimiter, point] = fields else {
        return None;
    };
    let delimiter = read_byte(delimiter)?;
    let point = read_byte(point)?;
    Some(Dialect { delimiter, point })
}

/// Returns whether a kind is of whole numbers.
fn is_of_whole_numbers(kind: &Kind) -> bool
    ensures { result ≡ is_of_whole_numbers kind.now }
{
    matches!(kind, Kind::Decimal(0))
}

/// Adds a text to a kind of texts, behind the others. If it is refused, the kind stays as it was.
fn add_text(kind: &mut Kind, text: Vec<u8>) -> Result<(), DeclareError>
    ensures does { Does (text_added kind.old text.items) kind.old kind.new result }
    ensures valid { IsKind kind.old → IsKind kind.new }
{
    let Kind::Text(texts) = kind else {
        return Err(DeclareError::Refused(Refusal::NoTexts));
    };
    if !texts.push(text)? {
        return Err(DeclareError::Refused(Refusal::BadText));
    }
    Ok(())
}
