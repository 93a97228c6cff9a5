//! The form in which a column stores its numbers: as it is asked for (`ColumnSpec`), and once it is accepted (`Form`).

ghost use Rattle.std.specs.Prelude.{◌≡◌, ◌↔◌, ◌≤◌, IfOk, IsTrue};
ghost use Rattle.std.specs.Result.{result_err};
ghost use Rattle.bsi_digits.specs.Digits.{max_size};

use crate::NoMemory;
use bsi_digits::{Bases, BasesError, MAX_SLICES};

/// The form that is asked for. Its bases are written most significant first.
#[derive(Debug, Drop)]
pub enum ColumnSpec {
    /// This many bit slices, from 1 to 63.
    Slices(u32),
    /// Equality encoded components under these bases.
    Equality(Vec<u32>),
    /// Range encoded components under these bases.
    Range(Vec<u32>),
}

/// A form that a column may have. A contract sees its bases least significant first.
#[derive(Debug, Drop)]
pub enum Form {
    /// This many bit slices, from 1 to 63.
    Slices(u32),
    /// Equality encoded components under these bases.
    Equality(Bases),
    /// Range encoded components under these bases.
    Range(Bases),
}

/// What a schema stores of a column beside its name: its form, and the least number that it accepts.
#[derive(Debug, Drop)]
pub(crate) struct Layout {
    pub(crate) form: Form,
    pub(crate) offset: i64,
}

impl Form {
    ghost use Rattle.bsi_schema.specs.Columns.{form_of, size_in, IsForm};
    ghost use Rattle.bsi_schema.specs.Refusals.{form_refusal};

    /// Returns the form that is asked for, or the first refusal of its bases. It allocates no memory.
    pub(crate) fn of(spec: ColumnSpec) -> Result<Form, BasesError>
        ensures refused { result_err result ≡ form_refusal spec }
        ensures ok { IfOk result (λ form. form ≡ form_of spec) }
        ensures valid { IfOk result IsForm }
    {
        match spec {
            ColumnSpec::Slices(0) => Err(BasesError::Empty),
            ColumnSpec::Slices(width) if width > MAX_SLICES => Err(BasesError::TooMany),
            ColumnSpec::Slices(width) => Ok(Form::Slices(width)),
            ColumnSpec::Equality(bases) => Ok(Form::Equality(Bases::new(bases)?)),
            ColumnSpec::Range(bases) => Ok(Form::Range(Bases::new(bases)?)),
        }
    }

    /// Returns how many numbers a column of this form tells apart, at most 2^63.
    pub(crate) fn size(&self) -> u64
        requires { IsForm self.now }
        ensures size { result ≡ size_in self.now }
        ensures within { result ≤ max_size }
    {
        match self {
            Form::Slices(width) => 1 << *width,
            Form::Equality(bases) => bases.size(),
            Form::Range(bases) => bases.size(),
        }
    }

    /// Returns whether another form is like this one.
    pub(crate) fn is_same(&self, other: &Form) -> bool
        ensures { IsTrue result ↔ (self.now ≡ other.now) }
    {
        match (self, other) {
            (Form::Slices(own), Form::Slices(others)) => own == others,
            (Form::Equality(own), Form::Equality(others)) => own.is_same(others),
            (Form::Range(own), Form::Range(others)) => own.is_same(others),
            _ => false,
        }
    }

    /// Makes a second form like this one.
    pub(crate) fn copy(&self) -> Result<Form, NoMemory>
        ensures { IfOk result (λ form. form ≡ self.now) }
    {
        match self {
            Form::Slices(width) => Ok(Form::Slices(*width)),
            Form::Equality(bases) => Ok(Form::Equality(bases.copy()?)),
            Form::Range(bases) => Ok(Form::Range(bases.copy()?)),
        }
    }
}

impl Clone for Layout {
    ghost is_clone = { λ layout made. made ≡ layout };

    fn clone(&self) -> Result<Layout, NoMemory> {
        Ok(Layout {
            form: self.form.copy()?,
            offset: self.offset,
        })
    }
}
