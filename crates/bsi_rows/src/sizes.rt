//! The most feeders, rows and waiting rows of an index and a step machine, and the checks of these sizes.

ghost use Rattle.std.specs.Prelude.{◌≡◌, ◌≤◌, length, position};
ghost use Rattle.std.specs.Result.{result_err};
ghost use Rattle.bsi_rows.specs.Refusals.{index_refusal};
ghost use Rattle.bsi_rows.specs.Table.{max_feeders};
ghost use Rattle.bsi_rows.specs.Sizes.{sizes_refusal, capacities_refusal, is_out_of_range};

use crate::{IndexError, Schema};
use std::alloc::AllocError;

/// The most feeders that rows of one index come from.
pub const MAX_FEEDERS: u32 = 64;

/// The most rows of an index.
pub const MAX_ROWS: u64 = 1 << 32;

/// The most rows of one feeder that may wait.
pub const MAX_WAITING: u32 = 65_536;

/// Why a machine is not made, in the order of the checks.
#[derive(Clone, Copy, Debug, PartialEq, Eq)]
pub enum MakeError {
    /// There is no capacity, and thus no feeder.
    NoFeeders,
    /// There are more than 64 feeders.
    TooManyFeeders,
    /// The capacity of this feeder is not from 1 to 65,536. It is the first such feeder.
    CapacityOutOfRange(u32),
    /// The index can't be made of this schema and limit.
    Index(IndexError),
    /// Memory was refused.
    NoMemory,
}

impl From<AllocError> for MakeError {
    ghost use Rattle.bsi_rows.specs.declared.sizes.MakeError.TheVariants.{NoMemory};

    ghost from_gives = { λ _ e. e ≡ NoMemory };

    fn from(_refused: AllocError) -> MakeError {
        MakeError::NoMemory
    }
}

impl From<IndexError> for MakeError {
    ghost use Rattle.bsi_rows.specs.Sizes.{refusal_of_index};

    ghost from_gives = { λ refused e. e ≡ refusal_of_index refused };

    fn from(refused: IndexError) -> MakeError {
        match refused {
            IndexError::NoMemory => MakeError::NoMemory,
            refused => MakeError::Index(refused),
        }
    }
}

/// Checks the sizes of a machine: this schema, a feeder for each capacity, and at most `limit` indexed rows. It asks
/// for no memory.
pub fn check_sizes(schema: &Schema, capacities: &[u32], limit: u64) -> Result<(), MakeError>
    ensures { result_err result ≡ sizes_refusal schema.now capacities.now limit }
{
    if capacities.is_empty() {
        return Err(MakeError::NoFeeders);
    }
    if capacities.len() > MAX_FEEDERS as usize {
        return Err(MakeError::TooManyFeeders);
    }
    check_capacities(capacities)?;
    check_table(schema, limit).map_err(MakeError::Index)
}

/// Checks the schema and the limit of an index. It asks for no memory.
pub fn check_table(schema: &Schema, limit: u64) -> Result<(), IndexError>
    ensures { result_err result ≡ index_refusal schema.now limit }
{
    if schema.columns() == 0 {
        return Err(IndexError::NoColumns);
    }
    if limit == 0 || limit > MAX_ROWS {
        return Err(IndexError::LimitOutOfRange);
    }
    Ok(())
}

/// Refuses the first capacity that is out of range.
fn check_capacities(capacities: &[u32]) -> Result<(), MakeError>
    requires { length capacities.now ≤ max_feeders }
    ensures { result_err result ≡ capacities_refusal capacities.now }
{
    if let Some(f) = first_out_of_range(capacities) {
        return Err(MakeError::CapacityOutOfRange(f as u32));
    }
    Ok(())
}

/// Returns the number of the first feeder whose capacity is out of range, or none if there is no such feeder.
fn first_out_of_range(capacities: &[u32]) -> Option<usize>
    ensures { result ≡ position is_out_of_range capacities.now }
{
    capacities
        .iter()
        .position(|capacity| *capacity == 0 || *capacity > MAX_WAITING)
}
