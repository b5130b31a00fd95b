// How an instruction reaches storage: translation, the access test, logical fetches, and the control program's fields.
//
// The format, the table or entry, and the address of a walk go one by one, as in the definitions. A value that holds
// all three would be made anew for each half of a walk; one that holds the format and the address would be taken apart
// in every clause.
#![tactic(auto)]

mod control_fields;
mod entries;
mod logical;
mod pages;
mod segments;
mod translation;
mod virtual_tables;
mod walks;

pub use control_fields::{
    MICCREG, MICRSEG, MICVPSW, address_in, control_field, is_pending, micblok_word, segment_size_in,
};
pub use entries::{Entries, Real};
pub use logical::{logical_fetch, second_halfword, store_test};
pub use pages::{is_invalid, is_malformed, page_entry, page_index, page_table, real_address};
pub use segments::segment_walk;
pub use translation::format_of;
pub use virtual_tables::virtual_walk;
pub use walks::{WalkEnd, Walked, faults_refused};
