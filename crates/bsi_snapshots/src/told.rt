//! The notice that a list of rows was published (`Told`): an analyst learns it, and never answers over a shorter list.

ghost use Rattle.std.specs.Prelude.{◌≡◌};

use crate::SystemTag;
use crate::history::VersionToken;
use std::marker::{Model, PhantomData};

/// The notice that a list was published, for an analyst of the same system to learn. It may move to the analyst's
/// thread.
#[derive(Drop)]
pub struct Told<B: SystemTag> {
    token: VersionToken,
    of: PhantomData<B>,
}

// Clauses see the list.
impl<B: SystemTag> Model for Told<B> {
    ghost use Rattle.std.specs.Prelude.{◌≡◌};
    ghost use Rattle.bsi_snapshots.specs.History.{RowList};

    ghost Value = { RowList };

    ghost view = { λ t. t.token.list };

    ghost invariant = { λ t. t.token.book ≡ B.book };
}

impl<B: SystemTag> Told<B> {
    /// Makes the notice of a list.
    pub(crate) fn new(token: VersionToken) -> Told<B>
        requires { token.book ≡ B.book }
        ensures { result ≡ token.list }
    {
        Told {
            token,
            of: PhantomData,
        }
    }

    /// Lends the list that it tells of.
    pub(crate) fn token(&self) -> &VersionToken
        ensures book { result.now.book ≡ B.book }
        ensures list { result.now.list ≡ self.now }
    {
        &self.token
    }

    /// Consumes the notice and returns the list that it tells of.
    pub(crate) fn into_token(self) -> VersionToken
        ensures book { result.book ≡ B.book }
        ensures list { result.list ≡ self }
    {
        let Told { token, of: _ } = self;
        token
    }
}
