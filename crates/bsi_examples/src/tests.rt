//! Runs each example. One that is refused memory is run again.

use crate::asking::find_median;
use crate::encoding::{make_column, sum_up_to};
use crate::first::index_prices;
use crate::machine::load_one_of_each;
use crate::refused::Refused;
use crate::threads::run;
use bsi_library::Answer;
use std::alloc::Global;

const PRICES: [Option<i128>; 5] = [Some(250), None, Some(120), Some(1_000), Some(999)];

fn median_of_the_cheap(alloc: Global) -> Result<Answer, Refused> {
    let index = index_prices(alloc, &PRICES)?;
    Ok(find_median(&index, 500)?)
}

#[test]
fn an_index_is_asked(rt: HostRuntime) {
    let median = match median_of_the_cheap(rt.alloc()) {
        Err(_) => median_of_the_cheap(rt.alloc()),
        median => median,
    };
    assert!(rt; matches!(median, Ok(Answer::Value(Some(120)))));
}

fn sum_of_the_small(alloc: Global) -> Result<u128, Refused> {
    let column = make_column(alloc, &[5, 6_399, 6_400, 130])?;
    Ok(sum_up_to(&column, 130)?)
}

#[test]
fn a_column_of_an_own_encoding(rt: HostRuntime) {
    let sum = match sum_of_the_small(rt.alloc()) {
        Err(_) => sum_of_the_small(rt.alloc()),
        sum => sum,
    };
    assert!(rt; matches!(sum, Ok(135)));
}

#[test]
fn a_machine_with_two_feeders(rt: HostRuntime) {
    let shown = match load_one_of_each(rt.alloc()) {
        Err(_) => load_one_of_each(rt.alloc()),
        shown => shown,
    };
    assert!(rt; matches!(shown, Ok((Answer::Sum(45), Some(1)))));
}

#[test]
fn a_running_system(rt: HostRuntime) {
    let answer = match run(&rt, rt.alloc()) {
        None => run(&rt, rt.alloc()),
        answer => answer,
    };
    assert!(rt; matches!(answer, Some(Answer::Sum(20))));
}
