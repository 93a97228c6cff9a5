//! The paths that the words of `bsi files` and `bsi check` name (`Paths`, `CheckPaths`).
ghost use Rattle.std.specs.Prelude.{◌<◌, length};

/// The paths of a run over files, each as it was written.
#[derive(Drop)]
pub(crate) struct Paths<'a> {
    pub(crate) schema: &'a str,
    pub(crate) asks: &'a str,
    pub(crate) rows: Vec<&'a str>,
    ghost some: { 0 < length rows.items },
}

/// The paths of a check, each as it was written.
#[derive(Drop)]
pub(crate) struct CheckPaths<'a> {
    pub(crate) schema: &'a str,
    pub(crate) asks: Option<&'a str>,
    pub(crate) rows: Vec<&'a str>,
}
