//! Lists the columns that records name (`choose_by_records`), and adds further ones up to a number (`choose_first`).

ghost use Rattle.std.specs.Prelude.{◌≡◌, ◌⊎◌, ◌∷◌, ◌++◌, [], ℕ, All, Some, Contains, OnOk, map};
ghost use Rattle.csv.specs.Records.{fields_of};
ghost use Rattle.bsi_projection.specs.Words.{AreChosen};
ghost use Rattle.bsi_pruning.specs.Named.{HasMore};
ghost use Rattle.bsi_syntax.specs.Reading.{texts};

use bsi_syntax::{Vocabulary, lend_fields};
use csv::ByteRecord;
use std::alloc::{AllocError as NoMemory, Global};

/// Adds each column that a record names to the chosen ones, behind them, unless it is one of them.
pub(crate) fn choose_by_records<V: Vocabulary>(
    alloc: Global,
    vocabulary: &V,
    ahead: &[ByteRecord],
    chosen: &mut Vec<u32>,
) -> Result<(), NoMemory>
    ensures named { OnOk result (All (λ fields.
        AreChosen (V.words vocabulary.now) fields chosen.new.items) (map fields_of ahead.now)) }
    ensures more { OnOk result (HasMore chosen.old.items chosen.new.items) }
{
    'records: for k in 0..ahead.len() {
        let fields = lend_fields(alloc, &ahead[k])?;
        choose_by_fields(vocabulary, &fields, chosen)?;
    }
    Ok(())
}

/// Adds each column that a field names to the chosen ones, behind them, unless it is one of them.
fn choose_by_fields<V: Vocabulary>(
    vocabulary: &V,
    fields: &[&[u8]],
    chosen: &mut Vec<u32>,
) -> Result<(), NoMemory>
    ensures named { OnOk result
        (AreChosen (V.words vocabulary.now) (texts fields.now) chosen.new.items) }
    ensures more { OnOk result (HasMore chosen.old.items chosen.new.items) }
{
    'fields: for k in 0..fields.len() {
        if let Some(c) = vocabulary.find_column(fields[k]) {
            choose_column(c, chosen)?;
        }
    }
    Ok(())
}

/// Adds the first of `count` columns to the chosen ones, behind them, until so many are chosen as are target, if there are.
pub(crate) fn choose_first(count: u32, target: usize, chosen: &mut Vec<u32>) -> Result<(), NoMemory>
    ensures { OnOk result (HasMore chosen.old.items chosen.new.items) }
{
    'columns: for c in 0..count {
        if chosen.len() >= target {
            return Ok(());
        }
        choose_column(c, chosen)?;
    }
    Ok(())
}

/// Adds a column to the chosen ones, unless it is one of them.
fn choose_column(c: u32, chosen: &mut Vec<u32>) -> Result<(), NoMemory>
    ensures chosen { OnOk result (Contains chosen.new.items c) }
    ensures more { OnOk result ((chosen.new.items ≡ chosen.old.items)
        ⊎ (chosen.new.items ≡ chosen.old.items ++ c ∷ [])) }
{
    if chosen.contains(&c) {
        return Ok(());
    }
    chosen.push(c)?;
    Ok(())
}
