//! The type parameter that ties a publisher and its analysts to one system (`SystemTag`), and the rule of its copies.

use crate::version::Version;
use crossbeam_utils::rule::{Outcome, Protocol};
use std::marker::{Brand, PhantomData};

/// Names a system in the types of its ends: the history that it writes, and the table with no row that it began as.
pub trait SystemTag {
    ghost use Rattle.logbook.specs.Pages.{Book};
    ghost use Rattle.bsi_rows.specs.Table.{Table};

    /// The history that the system writes.
    ghost book: { Book };

    /// The table with no row that it began as.
    ghost about: { Table };
}

// A program picks the name at the call that opens its system.
impl SystemTag for Brand {
    ghost use Rattle.std.specs.Prelude.{[], false};
    ghost use Rattle.bsi_rows.specs.Table.{no_rows};

    ghost book = { record { number = 0; log_name = 0; cells_name = 0 } };

    ghost about = { no_rows (record { columns = []; signed = false }) 0 0 };
}

/// The rule of the copies: each is a version of the system.
pub struct VersionRule<B: SystemTag> {
    of: PhantomData<B>,
}

impl<B: SystemTag> Protocol<Version, ()> for VersionRule<B> {
    ghost use Rattle.bsi_snapshots.specs.Versions.{IsVersionOf};

    ghost holds = { λ version _. IsVersionOf B.book B.about version };

    ghost first = { tt };
}

// What a step on the copies tells: the copy that is then shown is a version of the system.
impl<B: SystemTag> Outcome<Version, ()> for VersionRule<B> {
    ghost use Rattle.bsi_snapshots.specs.Versions.{IsVersionOf};

    ghost then = { λ _ _ version _. IsVersionOf B.book B.about version };
}
