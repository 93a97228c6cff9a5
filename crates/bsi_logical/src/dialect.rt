//! Dialects: the byte between the fields of row files, and the decimal point.

ghost use Rattle.std.specs.Prelude.{◌≡◌};
ghost use Rattle.bsi_logical.specs.Dialects.{is_dialect, is_usual, usual_dialect};

/// The byte between two fields, and the one in front of the digits of a fraction.
#[derive(Clone, Copy, Debug, PartialEq, Eq)]
pub struct Dialect {
    /// The byte between two fields: no quote, no line end, and not the point.
    pub delimiter: u8,
    /// The decimal point: `.` or `,`.
    pub point: u8,
}

impl Dialect {
    /// Returns the usual dialect: commas between fields, and points in decimals.
    pub fn usual() -> Dialect
        ensures { result ≡ usual_dialect }
    {
        Dialect {
            delimiter: b',',
            point: b'.',
        }
    }

    /// Returns whether it is the usual dialect.
    pub fn is_usual(self) -> bool
        ensures { result ≡ is_usual self }
    {
        self.delimiter == b',' && self.point == b'.'
    }

    /// Returns whether row files can be written so.
    pub fn is_valid(self) -> bool
        ensures { result ≡ is_dialect self }
    {
        let reserved = matches!(self.delimiter, b'"' | b'\n' | b'\r');
        let point = self.point == b'.' || self.point == b',';
        !reserved && point && self.delimiter != self.point
    }
}
