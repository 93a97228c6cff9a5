//! Says why a record is no declaration, header, row or ask, in texts for people. Of a row it is proved which column the
//! text is about, and nothing else of what texts say.

mod asks;
mod closest;
mod headers;
mod kinds;
mod labels;
mod misspelled;
mod quoting;
mod records;
mod setups;
mod tables;
mod whole_numbers;

pub(crate) use asks::why_no_ask;
pub(crate) use headers::why_no_header;
pub(crate) use quoting::{count_line_feeds, count_lone_returns};
pub(crate) use records::why_bad_record;
pub(crate) use setups::{why_bad_setup, why_refused_setup};
