//! Which fields of a record are of columns that are surveyed (`Choice`).

ghost use Rattle.std.specs.Prelude.{◌<◌, All};

/// Which fields of the records as long as the header are of the columns that were chosen.
#[derive(Drop)]
pub struct Choice {
    /// How many fields the header has.
    pub(crate) many: usize,
    /// The indexes of those of the columns, in the order of the header.
    pub(crate) indexes: Vec<usize>,
    ghost within: { All (λ index. index < many) indexes.items },
}
