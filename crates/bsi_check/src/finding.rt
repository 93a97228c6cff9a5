//! What a check finds: of a row file, and of a file of questions.
ghost use Rattle.std.specs.Prelude.{◌≤◌};

use bsi_input::SourceFault;

/// How many records follow the header of a row file, and how many of them are bad.
#[derive(Clone, Copy, Debug)]
pub struct FileCounts {
    /// All records, at most as many as the format of the file has.
    pub records: u64,
    /// The bad ones among them.
    pub bad: u64,
    ghost fewer: { bad ≤ records },
}

/// What a check finds of a row file.
#[derive(Clone, Copy, Debug)]
pub enum FileFinding {
    /// It has a header, and so many records.
    Counted(FileCounts),
    /// Its first record is no header, or there is none.
    NoHeader,
    /// It can't be read, or has more records after its header than its format has at most.
    Unread(SourceFault),
}

impl FileFinding {
    ghost use Rattle.std.specs.Prelude.{◌≡◌};
    ghost use Rattle.bsi_check.specs.Reports.{good_count};

    /// Returns how many good records there are.
    pub(crate) fn good_count(&self) -> u64
        ensures { result ≡ good_count self.now }
    {
        match self {
            FileFinding::Counted(counts) => counts.records - counts.bad,
            FileFinding::NoHeader | FileFinding::Unread(_) => 0,
        }
    }
}

/// What a check finds of the asks.
#[derive(Clone, Copy, Debug)]
pub enum AsksFinding {
    /// They were read to their end, and so many of them are no queries.
    Counted(u64),
    /// They can't be read, or are more than 1,000,000.
    Unread(SourceFault),
}
