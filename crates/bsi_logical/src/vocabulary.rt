//! What the words of questions mean in a logical schema: columns by titles and names, and constants of their kinds; and
//! which columns may be summed, or compared with each other, by their kinds.

ghost use Rattle.bsi_logical.specs.Meanings.{logical_vocabulary};

use crate::logical::LogicalSchema;
use bsi_kinds::Op;
use bsi_schema::is_word;
use bsi_syntax::Vocabulary;

impl Vocabulary for LogicalSchema {
    ghost words = { logical_vocabulary };

    fn find_column(&self, name: &[u8]) -> Option<u32> {
        if is_word(name) {
            return None;
        }
        self.find(name)
    }

    fn read_comparison(&self, c: u32, op: Op, constant: &[u8]) -> Option<(Op, i128)> {
        if c >= self.schema().columns() {
            return None;
        }
        let lowered = self.compare(c, op, constant)?;
        Some((lowered.op, lowered.number))
    }

    fn may_sum(&self, c: u32) -> bool {
        c < self.schema().columns() && self.is_summed(c)
    }

    fn may_compare(&self, first: u32, second: u32) -> bool {
        let columns = self.schema().columns();
        if first >= columns {
            return false;
        }
        second < columns && self.are_alike(first, second)
    }

    fn know_names(&self) {}
}
