//! Makes an index of the prices that fit (`index_prices`), the first example of CALLING.md.

use crate::refused::Refused;
use bsi_library::{ColumnSpec, Index, Row, Schema};
use std::alloc::Global;

/// Indexes the prices that fit: nulls, and numbers below 1,000.
pub(crate) fn index_prices(alloc: Global, prices: &[Option<i128>]) -> Result<Index, Refused> {
    let mut schema = Schema::new(alloc);
    schema.add("price", ColumnSpec::Range(vec![in alloc; 10, 10, 10]?))?;
    let mut index = Index::new(alloc, schema, 1, 1_000_000)?;
    'prices: for price in prices {
        let row = Row::new(vec![in alloc; *price]?);
        if index.schema().fits(&row) {
            index.append(0, &row)?;
        }
    }
    Ok(index)
}
