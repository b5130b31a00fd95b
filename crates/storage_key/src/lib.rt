// The instructions that work on storage keys: SET STORAGE KEY (08), INSERT STORAGE KEY (09) and RESET REFERENCE BIT
// (B213), and the way to a page's entry, swap word and key block, which they share.
#![tactic(auto)]

mod isk;
mod keys;
mod marks;
mod pages;
mod rrb;
mod ssk;
mod stores;
mod tables;

pub use isk::insert_storage_key;
pub use rrb::reset_reference_bit;
pub use ssk::set_storage_key;
