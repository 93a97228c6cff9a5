//! The step machine with two feeders: a query does not see waiting rows, and none of them is lost.

use crate::refused::Refused;
use bsi_library::machine::Core;
use bsi_library::{Answer, ColumnSpec, Pred, Query, Row, Schema, Total};
use std::alloc::Global;

/// Makes a machine of two feeders, each of which may have four rows waiting.
pub(crate) fn make_machine(alloc: Global) -> Result<Core, Refused> {
    let mut schema = Schema::new(alloc);
    schema.add("qty", ColumnSpec::Slices(7))?;
    let capacities = vec![in alloc; 4, 4]?;
    Ok(Core::new(alloc, schema, capacities, 1_000)?)
}

/// Submits a row of one quantity.
pub(crate) fn submit(
    alloc: Global,
    core: &mut Core,
    feeder: u32,
    quantity: i128,
) -> Result<(), Refused> {
    let row = Row::new(vec![in alloc; Some(quantity)]?);
    Ok(core.submit(feeder, row)?)
}

/// Sums the indexed quantities.
pub(crate) fn sum(core: &Core) -> Result<Answer, Refused> {
    let total = Total::Sum(0);
    let pred = Pred::All;
    Ok(core.ask(&Query { total, pred })?)
}

/// Submits two rows of feeder 0 and one of feeder 1, loads one of each, and returns the sum of the indexed quantities
/// and the number of rows of feeder 0 that wait.
pub(crate) fn load_one_of_each(alloc: Global) -> Result<(Answer, Option<u32>), Refused> {
    let mut core = make_machine(alloc)?;
    submit(alloc, &mut core, 0, 5)?;
    submit(alloc, &mut core, 0, 2)?;
    submit(alloc, &mut core, 1, 40)?;
    core.load(0)?;
    core.load(1)?;
    Ok((sum(&core)?, core.waiting(0)))
}
