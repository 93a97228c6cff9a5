//! What an open handle points to (`HandleState`): an index of its own, or one that several handles share and that
//! accepts no rows.

ghost use Rattle.std.specs.Prelude.{◌≡◌, ◌≢◌, Some, option_map, IfErr, IfOk};
ghost use Rattle.bsi_ffi.specs.Calls.{HoldsShared, IsAppending, IsReserving, IsSettingKinds, IsShareRefusal};
ghost use Rattle.bsi_ffi.specs.States.{opened_in};

use crate::columns::ColumnInput;
use crate::open_index::OpenIndex;
use crate::refusal::Refusal;
use bsi_table::NoMemory;
use std::alloc::Global;
use std::mem;
use std::sync::Arc;

/// An index that one handle owns, or that several share.
#[derive(Drop)]
pub enum HandleState {
    /// One handle owns the index, which accepts rows.
    Owned(OpenIndex),
    /// Several handles share the index, which accepts no more rows.
    Shared(Arc<OpenIndex>),
    /// The index is being moved to where several handles share it. A handle that is left so counts as closed.
    Moved,
}

impl HandleState {
    /// Lends the index, if there is one.
    pub(crate) fn opened(&self) -> Option<&OpenIndex>
        ensures { option_map (λ opened. opened.now) result ≡ opened_in (Some self.now) }
    {
        match self {
            HandleState::Owned(opened) => Some(opened),
            HandleState::Shared(opened) => Some(opened),
            HandleState::Moved => None,
        }
    }

    /// Reserves memory for `rows` more rows, if one handle alone owns the index.
    pub(crate) fn reserve(&mut self, rows: u64) -> Result<(), Refusal>
        ensures unchanged { self.new ≡ self.old }
        ensures ending { IsReserving (Some self.old) rows result }
    {
        match self {
            HandleState::Owned(opened) => opened.reserve(rows),
            HandleState::Shared(_) => Err(Refusal::Shared),
            HandleState::Moved => Err(Refusal::Closed),
        }
    }

    /// Appends the rows of the columns, if one handle alone owns the index.
    pub(crate) fn append(
        &mut self,
        feeder: u32,
        columns: &[ColumnInput],
        row: &mut u64,
        column: &mut usize,
    ) -> Result<(), Refusal>
        ensures { IsAppending (Some self.old) feeder columns.now row.new column.new (Some self.new)
            result }
    {
        *row = 0;
        *column = 0;
        match self {
            HandleState::Owned(opened) => opened.append(feeder, columns, row, column),
            HandleState::Shared(_) => Err(Refusal::Shared),
            HandleState::Moved => Err(Refusal::Closed),
        }
    }

    /// Gives the index this text of kinds in place of its own, if one handle alone owns the index.
    pub(crate) fn set_kinds(&mut self, alloc: Global, kinds: &[u8]) -> Result<(), Refusal>
        ensures { IsSettingKinds (Some self.old) kinds.now (Some self.new) result }
    {
        match self {
            HandleState::Owned(opened) => opened.set_kinds(alloc, kinds.to_vec(alloc)?),
            HandleState::Shared(_) => Err(Refusal::Shared),
            HandleState::Moved => Err(Refusal::Closed),
        }
    }

    /// Makes a second state of the same index, which accepts no more rows. If memory is refused, the index stays, but
    /// it may accept no more rows.
    pub(crate) fn share(&mut self, alloc: Global) -> Result<Box<HandleState>, Refusal>
        ensures index_unchanged { opened_in (Some self.new) ≡ opened_in (Some self.old) }
        ensures unchanged { IfErr result (λ why. why ≢ Refusal.NoMemory → self.new ≡ self.old) }
        ensures shared { IfOk result (λ other.
            HoldsShared (Some self.new) (opened_in (Some self.old))
            × HoldsShared (Some other.value) (opened_in (Some self.old))) }
        ensures refused { IfErr result (IsShareRefusal (opened_in (Some self.old))) }
    {
        if self.opened().is_none() {
            return Err(Refusal::Closed);
        }
        let Ok(mut other) = Box::new(alloc, HandleState::Moved) else {
            return Err(Refusal::NoMemory);
        };
        let opened = match mem::replace(self, HandleState::Moved) {
            HandleState::Owned(opened) => match Arc::new(alloc, opened) {
                Ok(opened) => opened,
                Err(refused) => {
                    *self = HandleState::Owned(refused.value);
                    return Err(Refusal::NoMemory);
                }
            },
            HandleState::Shared(opened) => opened,
            // Not met: an index was found above.
            HandleState::Moved => return Err(Refusal::Closed),
        };
        let second: Result<Arc<OpenIndex>, NoMemory> = opened.clone();
        *self = HandleState::Shared(opened);
        // Only now, when the index is back in its place.
        *other = HandleState::Shared(second?);
        Ok(other)
    }
}
