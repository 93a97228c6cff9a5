//! The law of the columns that a record names: the contract of a function that does nothing, so that it is checked as any
//! contract is.

ghost use Rattle.std.specs.Prelude.{◌↔◌, ◌<◌, ℕ, List, All, length};
ghost use Rattle.bsi_answers.specs.AskLines.{IsAskLineBy};
ghost use Rattle.bsi_projection.specs.Chosen.{chosen_table};
ghost use Rattle.bsi_projection.specs.Words.{chosen_texts, chosen_words, AreChosen};
ghost use Rattle.bsi_rows.specs.Fields.{Field};
ghost use Rattle.bsi_rows.specs.Table.{AreFitting, Table};
ghost use Rattle.bsi_syntax.specs.Bytes.{Bytes};
ghost use Rattle.bsi_syntax.specs.declared.grammar.Grammar.{Grammar};

use bsi_syntax::{Notation, Vocabulary};

/// States that a record has the same lines over the columns that it names as over all, in any vocabulary and notation:
/// where each column that one of its fields names is chosen, what is its line over the table of the chosen columns is
/// its line over the whole table, and the other way round.
pub fn named_columns_answer_each_line<V: Vocabulary + Notation>(vocabulary: &V)
    ensures { (grammar : Grammar) → (t : Table) → (chosen : List ℕ) → (fields : List Field) →
        (line : Bytes) → AreFitting t.schema.columns t.rows →
        All (λ c. c < length t.schema.columns) chosen →
        AreChosen (V.words vocabulary.now) fields chosen →
        IsAskLineBy grammar (chosen_words chosen (length t.schema.columns) (V.words vocabulary.now))
        (chosen_texts chosen (length t.schema.columns) (V.number_texts vocabulary.now))
        (chosen_table chosen t).schema (chosen_table chosen t).rows fields line
        ↔ IsAskLineBy grammar (V.words vocabulary.now) (V.number_texts vocabulary.now)
        t.schema t.rows fields line }
{}
