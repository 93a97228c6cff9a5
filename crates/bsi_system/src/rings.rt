//! Makes the rings of a system, each with both of its ends.

ghost use Rattle.std.specs.Prelude.{◌≡◌, ◌<◌, IfOk, length};
ghost use Rattle.bsi_rows.specs.Table.{end_of_u32};
ghost use Rattle.bsi_system.specs.Rings.{new_feeder_state, new_reader, AreOpened};

use crate::credits::Credits;
use crate::message::Message;
use crate::{Feeder, NoMemory, RingReader};
use bsi_table::Schema;
use rtrb::RingBuffer;
use std::alloc::Global;
use std::sync::Arc;
use std::sync::atomic::AtomicU64;

/// Both ends of each ring of a system.
#[derive(Drop)]
pub struct Rings {
    /// The feeders' ends, in order of their numbers.
    pub feeders: Vec<Feeder>,
    /// The loader's ends, in the same order.
    pub readers: Vec<RingReader>,
}

/// Both ends of one ring.
#[derive(Drop)]
struct RingPair {
    feeder: Feeder,
    reader: RingReader,
}

/// Makes a ring for each capacity, which counts rows. The feeders have numbers in this order, from 0.
pub fn open_rings(
    alloc: Global,
    schema: &Arc<Schema, Global>,
    capacities: &[u32],
) -> Result<Rings, NoMemory>
    requires { length capacities.now < end_of_u32 }
    ensures { IfOk result
        (λ rings. AreOpened schema.now.value capacities.now rings.feeders.items
        rings.readers.items) }
{
    let mut feeders = Vec::with_capacity(alloc, capacities.len())?;
    let mut readers = Vec::with_capacity(alloc, capacities.len())?;
    'capacities: for (number, capacity) in capacities.iter().enumerate() {
        let RingPair { feeder, reader } = open_ring(alloc, schema, number as u32, *capacity)?;
        feeders.push_reserved(feeder);
        readers.push_reserved(reader);
    }
    Ok(Rings { feeders, readers })
}

/// Makes one empty ring.
fn open_ring(
    alloc: Global,
    schema: &Arc<Schema, Global>,
    number: u32,
    capacity: u32,
) -> Result<RingPair, NoMemory>
    ensures reader { IfOk result (λ pair. pair.reader ≡ new_reader pair.reader.channel) }
    ensures schema { IfOk result (λ pair. pair.reader.channel.schema ≡ schema.now.value) }
    ensures feeder { IfOk result
        (λ pair. pair.feeder ≡ new_feeder_state number pair.reader.channel capacity) }
{
    let (producer, consumer) = RingBuffer::<Message>::new(alloc, capacity as usize)?;
    let shared_acked = Arc::new(alloc, AtomicU64::new(0))?;
    let credits = Credits::new(Arc::try_clone(&shared_acked)?);
    let feeder = Feeder::new(number, alloc, Arc::try_clone(schema)?, producer, credits);
    let reader = RingReader::new(Arc::try_clone(schema)?, consumer, shared_acked);
    Ok(RingPair { feeder, reader })
}
