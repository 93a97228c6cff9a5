//! Laws of runs over row files: no line depends on how the rows of the files mix, known bytes have one list of lines, and
//! a reply in whole numbers one line. Each is the contract of a function that does nothing, so that it is checked as any
//! contract is.

ghost use Rattle.std.specs.Prelude.{◌≡◌, ◌↔◌, ℕ, List, map};
ghost use Rattle.bsi_syntax.specs.Notations.{whole_texts};
ghost use Rattle.bsi_rows.specs.Fields.{Field};
ghost use Rattle.bsi_schema.specs.Columns.{Declared};
ghost use Rattle.bsi_rows.specs.Rows.{SourcedRow};
ghost use Rattle.bsi_rows.specs.declared.question.Question.{Question};
ghost use Rattle.bsi_aggregates.specs.declared.answering.QuestionReply.{QuestionReply};
ghost use Rattle.bsi_input.specs.Pasts.{NoneIsNoMemory};
ghost use Rattle.bsi_answers.specs.Mixes.{file_by_file, HaveSameFeederRows, IsInterleavingOf};
ghost use Rattle.bsi_answers.specs.ReplyLines.{question_reply_line, IsReplyLine};
ghost use Rattle.bsi_answers.specs.RowFiles.{FedCounts, RowFile};
ghost use Rattle.bsi_answers.specs.Runs.{AreLines, IsRun};

/// States that the lines of a run do not depend on how the rows of the files mix: what is a run's line for one list is
/// so for each list with the same rows of each feeder, and so for the rows of the files, one file after the other.
pub fn any_interleaving()
    ensures alike { (schema : Declared) → (a b : List SourcedRow) → (counts : List FedCounts) →
        (records : List (List Field)) → (lines : List (List ℕ)) → HaveSameFeederRows a b →
        AreLines schema a counts records lines → AreLines schema b counts records lines }
    ensures order { (files : List RowFile) → (rows : List SourcedRow) → IsInterleavingOf files rows →
        HaveSameFeederRows rows (file_by_file 0 (map (λ file. file.rows) files)) }
{}

/// States that the bytes of a run's files and the records of its questions have one list of lines, if no line says that
/// memory was refused.
pub fn determined()
    ensures { (declared : List ℕ) → (texts : List (List ℕ)) → (records : List (List Field)) →
        (a b : List (List ℕ)) → IsRun declared texts records a → IsRun declared texts records b →
        NoneIsNoMemory a → NoneIsNoMemory b → a ≡ b }
{}

/// States that a reply has just one line where numbers are written as whole numbers, and which.
pub fn whole_numbers_have_one_line()
    ensures { (feeders : List ℕ) → (asked : Question) → (reply : QuestionReply) → (line : List ℕ) →
        IsReplyLine whole_texts feeders asked reply line ↔ (line ≡ question_reply_line feeders reply) }
{}
