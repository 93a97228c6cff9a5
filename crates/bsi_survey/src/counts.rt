//! How many records of a text are as long as its header, and how many are not (`Counts`).

ghost use Rattle.std.specs.Prelude.{◌≡◌, ◌+◌, IfErr, IfNone, IfSome, OnOk};

use bsi_input::SourceFault;

/// How many records were read after the header.
#[derive(Clone, Copy, Debug, PartialEq, Eq)]
pub struct Counts {
    /// Those that have as many fields as the header.
    pub good: u64,
    /// The others.
    pub bad: u64,
}

impl Counts {
    ghost use Rattle.bsi_survey.specs.Surveys.{counted, no_counts, PassCounts};

    /// Returns the counts before any record.
    pub(crate) fn new() -> Counts
        ensures { result ≡ no_counts }
    {
        Counts { good: 0, bad: 0 }
    }

    /// Counts a record. The fault is `TooLong`, if 64 bits do not hold the count.
    pub(crate) fn count(&mut self, whole: bool) -> Result<(), SourceFault>
        ensures counted { OnOk result (self.new ≡ counted self.old whole) }
        ensures fault { IfErr result (λ fault. fault ≡ SourceFault.TooLong) }
    {
        if whole {
            self.good = self.good.checked_add(1).ok_or(SourceFault::TooLong)?;
        } else {
            self.bad = self.bad.checked_add(1).ok_or(SourceFault::TooLong)?;
        }
        Ok(())
    }

    /// Returns the counts of two texts, or none if 64 bits do not hold them.
    pub(crate) fn with(self, other: Counts) -> Option<Counts>
        ensures good { IfSome result (λ counts. counts.good ≡ self.good + other.good) }
        ensures bad { IfSome result (λ counts. counts.bad ≡ self.bad + other.bad) }
        ensures none { IfNone result (PassCounts self other) }
    {
        Some(Counts {
            good: self.good.checked_add(other.good)?,
            bad: self.bad.checked_add(other.bad)?,
        })
    }
}
