//! Encodes a schema as words, and decodes it.

ghost use Rattle.std.specs.Prelude.{◌≡◌, ◌≢◌, ℕ, List, ◌<◌, ◌++◌, length, true, false, IfNone, IfOk, IfSome, MatchResult, OnErr, OnOk};
ghost use Rattle.std.specs.List.{flat_map};
ghost use Rattle.bsi_schema.specs.Columns.{with_column, Declared, IsDeclared, MayFollow};
ghost use Rattle.bsi_schema.specs.declared.schema_error.SchemaError.{SchemaError};
ghost use Rattle.bsi_segments.specs.Schemas.{column_words, decoded_column, encoded_schema};

use crate::columns::{ReadColumn, decode_column, encode_column};
use bsi_bits::NoMemory;
use bsi_schema::{MAX_COLUMNS, Schema, SchemaError};
use std::alloc::Global;
use std::str::from_utf8;

/// Appends the words of a schema.
pub fn encode_schema(schema: &Schema, out: &mut Vec<u64>) -> Result<(), NoMemory>
    ensures ok { OnOk result (out.new.items ≡ out.old.items ++ encoded_schema schema.now) }
    ensures err { OnErr result (out.new.items ≡ out.old.items) }
{
    let words = words_of_schema(*out.allocator(), schema)?;
    out.extend_from_slice(&words)
}

/// Makes the words of a schema.
fn words_of_schema(alloc: Global, schema: &Schema) -> Result<Vec<u64>, NoMemory>
    ensures { IfOk result (λ words. words.items ≡ encoded_schema schema.now) }
{
    let mut words = Vec::new(alloc);
    let count = schema.columns();
    words.push(u64::from(count))?;
    words.push(u64::from(schema.signed()))?;
    'columns: for c in 0..count {
        encode_column(schema, c, &mut words)?;
    }
    Ok(words)
}

/// Makes the schema whose words come first, and lends the words after it; or none if there is no such schema.
pub fn decode_schema<'a>(
    alloc: Global,
    words: &'a [u64],
) -> Result<Option<(Schema, &'a [u64])>, NoMemory>
    ensures made { IfOk result (λ decoded. IfSome decoded (λ pair.
        words.now ≡ encoded_schema pair.0 ++ pair.1.now)) }
    ensures declared { IfOk result (λ decoded. IfSome decoded (λ pair. IsDeclared pair.0)) }
    ensures none { IfOk result (λ decoded. IfNone decoded ((schema : Declared) → (rest : List ℕ) →
        IsDeclared schema → words.now ≡ encoded_schema schema ++ rest → ⊥)) }
{
    let [count, signed, rest @ ..] = words else {
        return Ok(None);
    };
    if *count > u64::from(MAX_COLUMNS) || *signed > 1 || *signed > *count {
        return Ok(None);
    }
    decode_columns(alloc, *count, *signed == 1, rest)
}

/// Makes the schema of so many columns whose words come first, and lends the words after them; or none if there are no
/// such columns.
fn decode_columns<'a>(
    alloc: Global,
    count: u64,
    signed: bool,
    words: &'a [u64],
) -> Result<Option<(Schema, &'a [u64])>, NoMemory>
    requires { signed ≡ true → 0 < count }
    ensures made { IfOk result (λ decoded. IfSome decoded (λ pair.
        (length pair.0.columns ≡ count) × (pair.0.signed ≡ signed)
        × (words.now ≡ flat_map column_words pair.0.columns ++ pair.1.now))) }
    ensures declared { IfOk result (λ decoded. IfSome decoded (λ pair. IsDeclared pair.0)) }
    ensures none { IfOk result (λ decoded. IfNone decoded ((schema : Declared) → (rest : List ℕ) →
        IsDeclared schema → length schema.columns ≡ count → schema.signed ≡ signed →
        words.now ≡ flat_map column_words schema.columns ++ rest → ⊥)) }
{
    let mut schema = Schema::new(alloc);
    let mut rest = words;
    'columns: for _ in 0..count {
        let Some((column, behind)) = decode_column(alloc, rest)? else {
            return Ok(None);
        };
        if !add_column(&mut schema, column, signed)? {
            return Ok(None);
        }
        rest = behind;
    }
    // Its clause says that the schema can be declared.
    let _ = schema.limits();
    Ok(Some((schema, rest)))
}

/// Adds a column that was read, or returns false where it may not follow the columns of the schema.
fn add_column(schema: &mut Schema, column: ReadColumn, signed: bool) -> Result<bool, NoMemory>
    ensures added { IfOk result (λ added. added ≡ true →
        schema.new ≡ with_column schema.old (decoded_column column) signed) }
    ensures refused { IfOk result (λ added. added ≡ false →
        MayFollow schema.old.columns signed (decoded_column column) → ⊥) }
{
    let ReadColumn { name, spec, offset } = column;
    let Ok(name) = from_utf8(&name) else {
        return Ok(false);
    };
    if signed {
        check_added(schema.add_signed(name, spec, offset))
    } else if offset == 0 {
        check_added(schema.add(name, spec))
    } else {
        Ok(false)
    }
}

/// Returns whether a column was added. Refused memory stays an error.
fn check_added(added: Result<(), SchemaError>) -> Result<bool, NoMemory>
    ensures { IfOk result (λ done. MatchResult added (λ _. done ≡ true)
        (λ refused. (done ≡ false) × (refused ≢ SchemaError.NoMemory))) }
{
    match added {
        Ok(()) => Ok(true),
        Err(SchemaError::NoMemory) => Err(NoMemory),
        Err(_) => Ok(false),
    }
}
