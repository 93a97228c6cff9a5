//! Tests that rows, queries, answers and indexes may go from thread to thread.

use bsi_table::{Answer, Index, Query, Row, Schema};
use bsi_text::RowSource;

fn crosses_threads<T: Send + Sync>() {}

fn moves_to_a_thread<T: Send>() {}

#[test]
fn rows_queries_answers_and_indexes_cross_threads(_rt: HostRuntime) {
    crosses_threads::<Schema>();
    crosses_threads::<Row>();
    crosses_threads::<Query>();
    crosses_threads::<Answer>();
    crosses_threads::<Index>();
    moves_to_a_thread::<RowSource<&'static [u8], Schema>>();
}
