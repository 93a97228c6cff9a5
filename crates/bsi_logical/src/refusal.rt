//! Why a record declares nothing of a logical schema (`Refusal`), also in words; or that memory was refused
//! (`DeclareError`).

ghost use Rattle.std.specs.Prelude.{◌≡◌};

use std::alloc::AllocError;
use thiserror::Error;

/// Why a record says nothing. A record that is accepted says something new, so none says a thing
/// twice, but a further limit replaces the one before.
#[derive(Clone, Copy, Debug, PartialEq, Eq, Error)]
#[error("{}", self.text())]
pub enum Refusal {
    /// The first field is none of `column`, `limit`, `dialect`, `null`, `title`, `kind` and `text`.
    UnknownWord,
    /// The record `column` or `limit` is one that a schema file can't have there.
    BadTable,
    /// A column has the name of the new one as its name or title.
    NameTaken,
    /// After `dialect` come not a delimiter and a decimal point, each one byte, that can serve and differ; or they
    /// are the usual ones.
    BadDialect,
    /// The dialect was declared.
    DialectDeclared,
    /// After `null` comes not one word.
    BadNull,
    /// The null word exists, or it is the empty field.
    NullDeclared,
    /// The second field is the name of no column in front of the record.
    NoColumn,
    /// After `title` come not a name and a title.
    BadTitle,
    /// The column's title was declared.
    TitleDeclared,
    /// A column is called so, by its title or its name.
    TitleTaken,
    /// After `kind` and a name comes no kind.
    BadKind,
    /// The column's kind was declared.
    KindDeclared,
    /// The text doesn't come after the one before it, or it is empty, or there are 65,536 texts.
    BadText,
    /// After `text` come not the name of a column of texts and a text.
    NoTexts,
}

impl Refusal {
    /// Returns the reason in words.
    pub fn text(&self) -> &'static str {
        match self {
            Refusal::UnknownWord => {
                "a record begins with column, limit, dialect, null, title, kind or text"
            }
            Refusal::BadTable => "no such column or limit can be declared there",
            Refusal::NameTaken => "a column is called so already",
            Refusal::BadDialect => {
                "a dialect is a delimiter and a decimal point, one byte each, which differ: dialect,;,\",\""
            }
            Refusal::DialectDeclared => "the dialect was declared before",
            Refusal::BadNull => "a null word is one field: null,WORD",
            Refusal::NullDeclared => "this is a null without the record",
            Refusal::NoColumn => "no column of this name was declared before",
            Refusal::BadTitle => "a title is two fields: title,NAME,TITLE",
            Refusal::TitleDeclared => "the title of this column was declared before",
            Refusal::TitleTaken => "a column is called so already",
            Refusal::BadKind => {
                "a kind is decimal,PLACES; decimal,PLACES,rounded; date,ORDER,SIGN; time,UNIT,ZONE; boolean,YES,NO; or text"
            }
            Refusal::KindDeclared => "the kind of this column was declared before",
            Refusal::BadText => "texts rise by bytes, at most 65,536 of them, and none is empty",
            Refusal::NoTexts => "a text is two fields, of a column of kind text: text,NAME,TEXT",
        }
    }
}

/// Why a record was not carried out.
#[derive(Clone, Copy, Debug, PartialEq, Eq)]
pub enum DeclareError {
    /// It says nothing.
    Refused(Refusal),
    /// Memory was refused.
    NoMemory,
}

impl From<Refusal> for DeclareError {
    ghost use Rattle.bsi_logical.specs.declared.refusal.DeclareError.TheVariants.{Refused};

    ghost from_gives = { λ why e. e ≡ Refused why };

    fn from(why: Refusal) -> DeclareError {
        DeclareError::Refused(why)
    }
}

impl From<AllocError> for DeclareError {
    ghost use Rattle.bsi_logical.specs.declared.refusal.DeclareError.TheVariants.{NoMemory};

    ghost from_gives = { λ _ e. e ≡ NoMemory };

    fn from(_refused: AllocError) -> DeclareError {
        DeclareError::NoMemory
    }
}
