// The fetch of an item of storage: a byte, a halfword or a word. Where the item is there, the fetch is recorded.
ghost use Rattle.std.specs.Prelude.{◌≡◌, ℕ, false};
ghost use Rattle.storage.specs.Recording.{across};
ghost use Rattle.storage.specs.Answers.{Fetches};

use crate::items::{byte_at, halfword_at, word_at, word_by_last_byte};
use crate::recording::{Access, is_across, record_byte, record_halfword, record_word};

pub trait Item {
    ghost bytes: { ℕ };

    // The item from this address on, as a number, which its callers compute with: as a value of this type each of them
    // would convert it.
    fn read(storage: &[u8], keys: &mut [u8], at: u32) -> Option<u32>
        ensures { Fetches result storage.now keys.old keys.new at bytes };
}

impl Item for u8 {
    ghost bytes = { 1 };

    #[inline(always)]
    fn read(storage: &[u8], keys: &mut [u8], at: u32) -> Option<u32> {
        let value = byte_at(storage, at)?;
        record_byte(keys, Access::Fetch, at);
        Some(u32::from(value))
    }
}

impl Item for u16 {
    ghost bytes = { 2 };

    #[inline(always)]
    fn read(storage: &[u8], keys: &mut [u8], at: u32) -> Option<u32> {
        let value = halfword_at(storage, at)?;
        record_halfword(keys, Access::Fetch, at);
        Some(u32::from(value))
    }
}

impl Item for u32 {
    ghost bytes = { 4 };

    #[inline(always)]
    fn read(storage: &[u8], keys: &mut [u8], at: u32) -> Option<u32> {
        if is_across(at) {
            return word_across(storage, keys, at);
        }
        word_within(storage, keys, at)
    }
}

// A word in one block. `word_across` does for it too, but every word would pay for what few need (docs/DECISIONS.md,
// "Today's forms"): one test of storage and one key do here.
#[inline(always)]
fn word_within(storage: &[u8], keys: &mut [u8], at: u32) -> Option<u32>
    requires { across at ≡ false }
    ensures { Fetches result storage.now keys.old keys.new at 4 }
{
    let value = word_by_last_byte(storage, at)?;
    record_byte(keys, Access::Fetch, at);
    Some(value)
}

// A word wherever its bytes are.
#[inline(never)]
fn word_across(storage: &[u8], keys: &mut [u8], at: u32) -> Option<u32>
    ensures { Fetches result storage.now keys.old keys.new at 4 }
{
    let value = word_at(storage, at)?;
    record_word(keys, Access::Fetch, at);
    Some(value)
}
