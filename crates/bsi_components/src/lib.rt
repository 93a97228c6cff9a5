//! A list of digits, stored as bitmaps, equality or range encoded: one digit of each number of a column.
#![tactic(auto)]

mod binary_places;
mod building;
mod component;
mod encoding;
mod equality;
mod marking;
mod places;
mod range;
mod ranked_digit;
mod reads;

pub use binary_places::BinaryPlaces;
pub use bsi_kernels::RankedRows;
pub use component::Component;
pub use encoding::Encoding;
pub use equality::{Equality, EqualityComponent};
pub use marking::Marking;
pub use places::{place_count, stored_places};
pub use range::{Range, RangeComponent};
pub use reads::Reads;
pub use std::alloc::AllocError as NoMemory;
