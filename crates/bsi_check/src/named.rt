//! An open file, and the path that reasons name it by.

use std::io::Read;

/// An open file, under the path by which reasons name it.
#[derive(Drop)]
pub struct NamedFile<'a, R: Read + Drop> {
    /// The path, as reasons show it.
    pub path: &'a str,
    /// What is read.
    pub reader: R,
}
