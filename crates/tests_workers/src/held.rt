//! What the tests hold and drop.
//!
//! To drop what holds actions wants proofs, and a proof file has to have its function whether the tests are looked at
//! or not.

use pair_store::{Batch, Store};
use std::alloc::Global;
use verdict::Outcome;

fn drop_stores(stores: Vec<Store<'_, Global>, Global>) {
    let _stores = stores;
}

fn drop_outcomes(outcomes: Vec<Outcome<Global>, Global>) {
    let _outcomes = outcomes;
}

fn drop_batches(batches: Vec<Batch<'_, Global>, Global>) {
    let _batches = batches;
}
