//! Which extreme is sought, the least or the greatest (`Extreme`): of numbers, or of rows by a column.

/// The least or the greatest of some numbers.
#[derive(Clone, Copy, Debug, PartialEq, Eq)]
pub enum Extreme {
    /// The least one.
    Least,
    /// The greatest one.
    Greatest,
}
