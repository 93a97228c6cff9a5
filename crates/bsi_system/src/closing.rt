//! The closing that a feeder leaves when it ends (`Closing`): from it the loader learns which rows were sent.

ghost use Rattle.std.specs.Prelude.{◌≡◌, All};

use crate::message::Message;
use bsi_table::Schema;
use rtrb::Finished;
use std::alloc::Global;
use std::marker::Model;
use std::sync::Arc;

/// The notice that a feeder has ended, from which the loader learns of all rows that were sent. It may move to the
/// loader's thread.
#[derive(Drop)]
pub struct Closing {
    number: u32,
    schema: Arc<Schema, Global>,
    finished: Finished<Message>,
}

// Clauses see the feeder's number, which ring it sent to, the schema, and all rows that it sent.
impl Model for Closing {
    ghost use Rattle.std.specs.Prelude.{All};
    ghost use Rattle.rtrb.specs.Ring.{all_sent};
    ghost use Rattle.bsi_system.specs.Rings.{all_rows, ring_of, IsMessageFor, Sent};

    ghost Value = { Sent };

    ghost view = { λ c. record {
      number = c.number;
      channel = record { ring = ring_of c.finished.end; schema = c.schema.value };
      rows = all_rows (all_sent c.finished);
    } };

    ghost invariant = { λ c. All (IsMessageFor c.schema.value) (all_sent c.finished) };
}

impl Closing {
    ghost use Rattle.rtrb.specs.Ring.{all_sent};
    ghost use Rattle.bsi_system.specs.Rings.{all_rows, ring_of, IsMessageFor};

    /// Makes the closing of a feeder whose rows all fit.
    pub(crate) fn new(
        number: u32,
        schema: Arc<Schema, Global>,
        finished: Finished<Message>,
    ) -> Closing
        requires { All (IsMessageFor schema.value) (all_sent finished) }
        ensures { result ≡ record {
          number = number;
          channel = record { ring = ring_of finished.end; schema = schema.value };
          rows = all_rows (all_sent finished);
        } }
    {
        Closing {
            number,
            schema,
            finished,
        }
    }

    /// Returns the number of the feeder that ended.
    pub fn feeder(&self) -> u32
        ensures { result ≡ self.now.number }
    {
        self.number
    }

    /// Consumes the closing and returns what is left of the feeder's end.
    pub(crate) fn into_finished(self) -> Finished<Message>
        ensures ring { ring_of result.end ≡ self.channel.ring }
        ensures rows { all_rows (all_sent result) ≡ self.rows }
        ensures fitting { All (IsMessageFor self.channel.schema) (all_sent result) }
    {
        let Closing {
            number: _,
            schema: _schema,
            finished,
        } = self;
        finished
    }
}
