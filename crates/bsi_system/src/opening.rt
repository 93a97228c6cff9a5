//! Opens a running system (`open`): its rings, its loader, and its analysts.

ghost use Rattle.std.specs.Prelude.{◌≡◌, ◌<◌, ◌≤◌, ◌++◌, [], All, IfErr, IfOk, None, OnErr, OnOk, length, replicate};
ghost use Rattle.bsi_rows.specs.Table.{no_rows};
ghost use Rattle.bsi_rows.specs.Sizes.{sizes_refusal};
ghost use Rattle.bsi_system.specs.Rings.{new_feeders};
ghost use Rattle.bsi_system.specs.LoaderSteps.{new_loader_state, IsFeederOf};
ghost use Rattle.bsi_system.specs.Opening.{IsOpenRefusal};
ghost use Rattle.bsi_snapshots.specs.Versions.{max_analysts};

use crate::system::{OpenRefused, System};
use crate::{Loader, NoMemory};
use bsi_snapshots::{Analyst, History, SystemTag};
use bsi_table::Schema;
use std::alloc::Global;

/// Opens a system with a feeder for each capacity, an index of at most `limit` rows, and `analysts` analysts, at most
/// 8. Nothing is sent, popped, staged or published yet. It makes the rings, so that submitting and closing allocate
/// nothing.
pub fn open<B: SystemTag>(
    alloc: Global,
    history: History,
    schema: Schema,
    capacities: Vec<u32>,
    limit: u64,
    analysts: u32,
) -> Result<System<B>, OpenRefused<B>>
    requires few { analysts ≤ max_analysts }
    requires history { history ≡ record { book = B.book; list = [] } }
    requires about { B.about ≡ no_rows schema (length capacities.items) limit }
    ensures loader { IfOk result (λ s. s.loader ≡ new_loader_state s.loader.system.channels schema limit) }
    ensures channels { IfOk result (λ s. length s.loader.system.channels ≡ length capacities.items) }
    ensures alike { IfOk result (λ s. All (λ channel. channel.schema ≡ schema) s.loader.system.channels) }
    ensures feeders { IfOk result (λ s. s.feeders.items
        ≡ new_feeders 0 s.loader.system.channels capacities.items) }
    ensures own { IfOk result (λ s. All (λ f. IsFeederOf f s.loader.system) s.feeders.items) }
    ensures analysts { IfOk result (λ s. s.analysts.items ≡ replicate analysts []) }
    ensures accepted { OnOk result (sizes_refusal schema capacities.items limit ≡ None) }
    ensures refused { IfErr result
        (IsOpenRefusal (sizes_refusal schema capacities.items limit) schema limit analysts) }
{
    let made = System::<B>::make(alloc, history, schema, &capacities, limit, analysts);
    let mut system = match made {
        Ok(system) => system,
        Err(refused) => return Err(OpenRefused::Make(refused)),
    };
    match make_analysts(&system.loader, &mut system.analysts, analysts) {
        Ok(()) => Ok(system),
        Err(_) => {
            let System {
                feeders: _feeders,
                loader,
                analysts: _analysts,
            } = system;
            Err(OpenRefused::Readers(loader))
        }
    }
}

/// Makes each analyst.
fn make_analysts<B: SystemTag>(
    loader: &Loader<B>,
    analysts: &mut Vec<Analyst<B>>,
    count: u32,
) -> Result<(), NoMemory>
    ensures ok { OnOk result (analysts.new.items
        ≡ analysts.old.items ++ replicate count loader.now.published) }
    ensures err { OnErr result (0 < count) }
{
    // The proof counts the analysts by this variable.
    'analysts: for added in 0..count {
        analysts.push(loader.analyst()?)?;
    }
    Ok(())
}
