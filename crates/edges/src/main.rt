// Runs every edge of document 01, "Edges to show", but those in 16 MiB, which `vma demo` runs; those of ISK, RRB and
// LRA, of recording, of low-address protection and at the end of storage; and every wrong turn.
// It prints a line for each; `second edges` writes the lines that must come.
#![tactic(auto)]

use crate::end_of_storage::run_end_of_storage;
use crate::insert_storage_key::run_insert_storage_key;
use crate::load_real_address::run_load_real_address;
use crate::low_addresses::run_low_addresses;
use crate::recording::run_recording;
use crate::reset_reference_bit::run_reset_reference_bit;
use crate::run::{Bench, KEY_COUNT, STORAGE_BYTES};
use crate::set_storage_key::run_set_storage_key;
use crate::store_control::run_store_control;
use crate::system_masks::run_system_masks;
use crate::wrong_turns::run_wrong_turns;
use std::io;

mod common_edges;
mod edge;
mod end_of_storage;
mod image;
mod insert_storage_key;
mod load_address_formats;
mod load_address_tests;
mod load_address_walks;
mod load_real_address;
mod low_addresses;
mod places;
mod recording;
mod registers;
mod report;
mod reset_reference_bit;
mod run;
mod set_storage_key;
mod set_ups;
mod store_control;
mod system_masks;
mod wrong_turns;

fn run_all(bench: &mut Bench<'_, impl Print>) -> io::Result<()> {
    run_store_control(bench)?;
    run_system_masks(bench)?;
    run_set_storage_key(bench)?;
    run_insert_storage_key(bench)?;
    run_reset_reference_bit(bench)?;
    run_load_real_address(bench)?;
    run_recording(bench)?;
    run_low_addresses(bench)?;
    run_end_of_storage(bench)?;
    run_wrong_turns(bench)
}

fn main(rt: HostRuntime) -> io::Result<()> {
    let mut storage = [0; STORAGE_BYTES];
    let mut keys = [0; KEY_COUNT];
    let mut bench = Bench {
        rt: &rt,
        storage: &mut storage,
        keys: &mut keys,
    };
    run_all(&mut bench)
}
