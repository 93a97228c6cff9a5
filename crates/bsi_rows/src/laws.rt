//! Laws of lawful runs of the step machine: nothing is lost, runs compose, and a closed feeder stays closed; and the
//! rank of a median. Each is the contract of a function that does nothing, so that it is checked as any contract is.

ghost use Rattle.std.specs.Prelude.{◌≡◌, ◌↔◌, ◌-◌, ◌/◌, ℤ, List, [], ◌∷◌, Option, length};
ghost use Rattle.bsi_digits.specs.WholeNumbers.{IsSignedMedianOf};
ghost use Rattle.bsi_rows.specs.declared.event.Event.{Event};
ghost use Rattle.bsi_rows.specs.declared.event.Reply.{Reply};
ghost use Rattle.bsi_digits.specs.Ranks.{IsSignedRankOf};
ghost use Rattle.bsi_rows.specs.Shown.{Shown, IsLawful};
ghost use Rattle.bsi_rows.specs.Runs.{Done, AreLawful, IsConserved, StaysClosed, past_of, shown_after};

/// States that, in every run whose replies are lawful, each feeder's indexed rows followed by its waiting rows are its
/// accepted rows.
pub fn nothing_is_lost()
    ensures { (s : Shown) → (past : List Done) → AreLawful s past → IsConserved s past }
{}

/// States that a lawful run followed by one more lawful event is again one run, with one event more.
pub fn runs_compose()
    ensures { (s : Shown) → (past : List Done) → (e : Event) → (r : Reply) → AreLawful s past →
        IsLawful (shown_after s past) e r
        → shown_after (shown_after s past) ((e, r) ∷ []) ≡ shown_after s ((e, r) ∷ past) }
{}

/// States that, in a lawful run, a row that is submitted to a closed feeder adds nothing.
pub fn closed_stays_closed()
    ensures { (s : Shown) → (events : List Event) → (replies : List Reply) →
        AreLawful s (past_of events replies) → StaysClosed s events replies }
{}

/// States that the lower median is the number of the rank in the middle.
pub fn median_is_ranked()
    ensures { (numbers : List ℤ) → (answer : Option ℤ) →
        IsSignedMedianOf numbers answer
        ↔ IsSignedRankOf ((length numbers - 1) / 2) numbers answer }
{}
