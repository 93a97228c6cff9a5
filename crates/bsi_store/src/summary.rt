//! Makes the lines that `bsi save` and `bsi add` write (`Summary`): one for each row file, and how many rows they gave.

ghost use Rattle.std.specs.Prelude.{◌≡◌, ◌<◌, ◌≤◌, IfErr, IfOk, OnOk, length, map, true};
ghost use Rattle.bsi_store.specs.Saving.{bad_total, loaded_lines};
ghost use Rattle.bsi_answers.specs.RowFiles.{fed_counts};
ghost use Rattle.bsi_rows.specs.Table.{max_feeders};

use crate::{StoreFault, push_count_line};
use bsi_answers::{Fed, write_fed_lines};
use bsi_files::Loaded;
use bsi_table::NoMemory;
use std::alloc::Global;

/// What row files gave.
#[derive(Drop)]
pub(crate) struct Summary {
    /// The line of each row file, and how many rows they gave.
    pub(crate) text: Vec<u8>,
    /// How many of their records are bad, at most 2^64 - 1.
    pub(crate) bad: u64,
}

/// Returns what row files gave. A word stands before the number of rows.
pub(crate) fn summarize(alloc: Global, word: &str, loaded: &Loaded) -> Result<Summary, NoMemory>
    requires few { length loaded.now.fed.items ≤ max_feeders }
    requires word { length word.now ≤ 10 }
    ensures text { IfOk result (λ summary. summary.text.items
        ≡ loaded_lines word.now (map fed_counts loaded.now.fed.items) (length loaded.now.table.rows)) }
    ensures bad { IfOk result (λ summary. summary.bad
        ≡ bad_total (map fed_counts loaded.now.fed.items)) }
{
    let mut text = Vec::new(alloc);
    write_fed_lines(alloc, &loaded.fed, &mut text).map_err(|_| NoMemory)?;
    push_count_line(word, loaded.table.len(), &mut text)?;
    let bad = count_bad(&loaded.fed);
    Ok(Summary { text, bad })
}

/// Counts the bad records of row files, at most 2^64 - 1.
fn count_bad(fed: &[Fed]) -> u64
    ensures { result ≡ bad_total (map fed_counts fed.now) }
{
    let mut bad = 0u64;
    'files: for counts in fed {
        bad = bad.saturating_add(counts.bad);
    }
    bad
}

/// Refuses bad records, if none is to be.
pub(crate) fn refuse_bad(strict: bool, bad: u64) -> Result<(), StoreFault<'static>>
    ensures ok { OnOk result (strict ≡ true → bad ≡ 0) }
    ensures refused { IfErr result (λ fault. (strict ≡ true) × (0 < bad)
        × (fault ≡ StoreFault.BadRecords bad)) }
{
    if strict && bad > 0 {
        return Err(StoreFault::BadRecords(bad));
    }
    Ok(())
}
