//! Why a text is not surveyed (`SurveyError`).

use bsi_input::SourceFault;
use std::alloc::AllocError;

/// Why a text is not surveyed.
#[derive(Drop)]
pub enum SurveyError {
    /// The text was not read to its end, or has no record.
    Source(SourceFault),
    /// A column of this title is to be surveyed, and the header has none.
    NoColumn(Vec<u8>),
}

impl From<SourceFault> for SurveyError {
    ghost use Rattle.std.specs.Prelude.{◌≡◌};
    ghost use Rattle.bsi_survey.specs.declared.survey_error.SurveyError.TheVariants.{Source};

    ghost from_gives = { λ fault e. e ≡ Source fault };

    fn from(fault: SourceFault) -> SurveyError {
        SurveyError::Source(fault)
    }
}

impl From<csv::Error> for SurveyError {
    ghost use Rattle.std.specs.Prelude.{◌≡◌, ◌⊎◌};
    ghost use Rattle.bsi_input.specs.declared.rows.SourceFault.TheVariants as source;
    ghost use Rattle.bsi_survey.specs.declared.survey_error.SurveyError.TheVariants.{Source};

    ghost from_gives = { λ _ e. (e ≡ Source source.Read) ⊎ (e ≡ Source source.NoMemory) };

    fn from(error: csv::Error) -> SurveyError {
        match SourceFault::from(error) {
            SourceFault::Read => SurveyError::Source(SourceFault::Read),
            _ => SurveyError::Source(SourceFault::NoMemory),
        }
    }
}

impl From<AllocError> for SurveyError {
    ghost use Rattle.std.specs.Prelude.{◌≡◌};
    ghost use Rattle.bsi_input.specs.declared.rows.SourceFault.TheVariants as source;
    ghost use Rattle.bsi_survey.specs.declared.survey_error.SurveyError.TheVariants.{Source};

    ghost from_gives = { λ _ e. e ≡ Source source.NoMemory };

    fn from(_refused: AllocError) -> SurveyError {
        SurveyError::Source(SourceFault::NoMemory)
    }
}
