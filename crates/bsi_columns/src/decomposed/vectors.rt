//! Comparisons by whole bit vectors, for an encoding of a caller that has no calls on spans of words. Equality and
//! range encoding have them.

ghost use Rattle.std.specs.Prelude.{◌≡◌, ◌<◌, ◌&&◌, length, map, IfOk};
ghost use Rattle.std.specs.Simd.Lanes.{zip2};
ghost use Rattle.bsi_digits.specs.Digits.{product};
ghost use Rattle.bsi_digits.specs.Comparisons.{number_or_zero};
ghost use Rattle.bsi_columns.specs.DigitTests.{relates_step, passes_entry};
ghost use Rattle.bsi_slices.specs.Decisions.{as_expected, relates};

use crate::decomposed::Decomposed;
use crate::{Encoding, NoMemory};
use bsi_bits::Bits;
use bsi_slices::{Relation, Test};

impl<E: Encoding> Decomposed<E> {
    /// Selects the rows whose number passes a test, by whole vectors. It works in the memory of `selection` and one
    /// further vector.
    pub(crate) fn select_vectors(&self, test: Test, mut selection: Bits) -> Result<Bits, NoMemory>
        requires below { test.constant < product self.now.bases }
        requires same { length self.now.entries ≡ length selection.bits }
        ensures { IfOk result (λ b. b.bits ≡ map (passes_entry test) self.now.entries) }
    {
        let mut scratch = selection.copy()?;
        self.narrow_vectors(test, &mut scratch, &mut selection);
        and_answers(&mut selection, test.expected, self.not_null.bits());
        Ok(selection)
    }

    /// Writes for each row whether its number is in the test's relation to the constant, be that expected or not. A
    /// null row counts as 0. `scratch` is a vector of as many bits, and its bits are unspecified afterwards.
    fn narrow_vectors(&self, test: Test, scratch: &mut Bits, selection: &mut Bits)
        requires below { test.constant < product self.now.bases }
        requires scratch { length self.now.entries ≡ length scratch.old.bits }
        requires same { length self.now.entries ≡ length selection.old.bits }
        ensures { selection.new.bits
            ≡ map (λ e. relates test.relation (number_or_zero e) test.constant) self.now.entries }
    {
        let count = self.bases.len();
        let lowest = self.bases.digit(test.constant, 0);
        first_into(&self.components[0], test.relation, lowest, selection);
        for i in 1..count {
            let digit = self.bases.digit(test.constant, i);
            narrow_into(
                &self.components[i as usize],
                test.relation,
                digit,
                scratch,
                selection,
            );
        }
    }
}

/// Writes for each row whether its least significant digit is in the relation to the constant's digit.
fn first_into<E: Encoding>(component: &E, relation: Relation, digit: u32, selection: &mut Bits)
    requires below { digit < E.base_of component.now }
    requires same { length (E.digits component.now) ≡ length selection.old.bits }
    ensures { selection.new.bits ≡ map (λ v. relates relation v digit) (E.digits component.now) }
{
    match relation {
        Relation::Equal => component.eq_into(digit, selection),
        Relation::AtMost => component.le_into(digit, selection),
    }
}

/// Compares one more digit in the test. It makes one call of the component for `=`, and one or two for `<=`. `scratch`
/// is a vector of as many bits, and its bits are unspecified afterwards.
fn narrow_into<E: Encoding>(
    component: &E,
    relation: Relation,
    digit: u32,
    scratch: &mut Bits,
    selection: &mut Bits,
)
    requires below { digit < E.base_of component.now }
    requires scratch { length (E.digits component.now) ≡ length scratch.old.bits }
    requires same { length (E.digits component.now) ≡ length selection.old.bits }
    ensures selection { selection.new.bits
        ≡ zip2 (λ low v. relates_step relation low v digit) selection.old.bits
        (E.digits component.now) }
    ensures scratch { length scratch.new.bits ≡ length scratch.old.bits }
{
    match relation {
        Relation::Equal => {
            component.eq_into(digit, scratch);
            selection.and_with(scratch);
        }
        Relation::AtMost => {
            component.le_into(digit, scratch);
            selection.and_with(scratch);
            if digit > 0 {
                component.le_into(digit - 1, scratch);
                selection.or_with(scratch);
            }
        }
    }
}

/// Keeps the rows that are not null among those in a relation or, unless `expected`, among those that are not.
fn and_answers(selection: &mut Bits, expected: bool, not_null: &Bits)
    requires { length selection.old.bits ≡ length not_null.now.bits }
    ensures { selection.new.bits
        ≡ zip2 (λ answer there. as_expected expected answer && there) selection.old.bits not_null.now.bits }
{
    if !expected {
        selection.flip();
    }
    selection.and_with(not_null);
}
