//! What the numbers of a column stand for, and how fields spell it: kinds. Decimals, days, times, booleans and texts
//! keep their order as whole numbers, so an index answers questions about them.
#![tactic(auto)]

mod boolean;
mod clock;
mod comparison;
mod date;
mod decimal;
mod decimal_places;
mod decimal_text;
mod dictionary;
mod kind;
mod predicate;
mod rounding;
mod time;
mod time_text;

pub use boolean::{BooleanForm, read_boolean, write_boolean};
pub use bsi_digits::Op;
pub use comparison::Comparison;
pub use date::{DateForm, DateOrder, ISO_DATE, a_date_text_spells_its_day, read_date, write_date};
pub use decimal::{
    MAX_PLACES, Scanned, a_number_is_its_decimal, compare_decimal, read_decimal, scan,
};
pub use decimal_places::{count_places, spells_decimal};
pub use decimal_text::{a_text_spells_its_number, write_decimal};
pub use dictionary::{Dictionary, MAX_TEXTS};
pub use kind::Kind;
pub use predicate::a_lowered_predicate_holds_of_the_same_rows;
pub use rounding::read_rounded;
pub use std::alloc::AllocError as NoMemory;
pub use time::{TimeForm, TimeUnit, compare_time, read_time};
pub use time_text::{a_time_text_spells_its_number, write_time};
