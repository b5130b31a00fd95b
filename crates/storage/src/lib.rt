// Items of storage, keys and stores, each at a real address, and the answer of a step of a reading program.
//
// Every function that reads or stores, here and above, is lent the keys to change: an access records itself in them
// (document 02, R-13). Storage and keys go as two, as C lends them: what only reads is lent storage by `&`, so that its
// type says that it stores nothing there. A value of the two would be two types, one for each way, and be lent on part
// by part at each call.
//
// `#[inline(always)]` stands where a step's answer is made and taken apart at once: in its caller it takes no memory.
// The ways that are seldom taken, or have many callers, are `#[inline(never)]`.
#![tactic(auto)]

mod answers;
mod fetches;
mod items;
mod keys;
mod recording;
mod steps;
mod stores;

pub use answers::{completed, completed_as, ending};
pub use fetches::Item;
pub use keys::consult_key;
pub use recording::{Access, is_across, record_byte, record_word};
pub use steps::{After, Counted, Step, fetch, refuse, refused, stop};
pub use stores::{store_byte, store_word};
