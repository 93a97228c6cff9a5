//! Columns of a saved index that were read into memory as an index of their own (`OpenColumns`).

use bsi_table::Index;

/// An index of some columns of a file, and the number of each in the file.
#[derive(Drop)]
pub(crate) struct OpenColumns {
    pub(crate) index: Index,
    pub(crate) chosen: Vec<u32>,
}
