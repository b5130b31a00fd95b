// Stores to a real address that was tested, and nothing fetched there: the operands of STCTL, STNSM and STOSM. They are
// open to any storage and keys, so a byte that is not in storage changes nothing. In an attempt there is no such byte
// (rules, EveryEntryPresent). What was fetched before is stored with no test (put_mask in masks, put_swap_word in
// storage_key).
ghost use Rattle.std.specs.Prelude.{◌≡◌, ◌%◌, length, slice_set};
ghost use Rattle.rules.specs.Machine.{addresses, stored};
ghost use Rattle.rules.specs.Writes.{perform, store};
ghost use Rattle.storage.specs.Answers.{machine};
ghost use Rattle.storage.specs.Items.{word_bytes};

use crate::recording::{Access, is_across, record_byte, record_word};

// By index, as in `record_byte`.
fn put_byte(storage: &mut [u8], at: u32, byte: u8)
    ensures { storage.new ≡ slice_set storage.old at byte }
{
    let i = at as usize;
    if i < storage.len() {
        storage[i] = byte;
    }
}

// The four bytes of a word, in a part of storage that is lent for them.
fn put_word(part: &mut [u8], value: u32)
    requires { length part.old ≡ 4 }
    ensures { part.new ≡ word_bytes value }
{
    part.copy_from_slice(&value.to_be_bytes());
}

// The rightmost byte of a number. Not one method of `Item` for this and `store_word`: halfwords, of which it would have
// to store one too, are stored by no instruction.
pub fn store_byte(storage: &mut [u8], keys: &mut [u8], at: u32, value: u32)
    ensures { machine storage.new keys.new
        ≡ perform (machine storage.old keys.old) (store at 1 value) }
{
    put_byte(storage, at, (value % 256) as u8);
    record_byte(keys, Access::Store, at);
}

// Each byte at its own address, which may be round the top.
fn put_bytes(storage: &mut [u8], at: u32, value: u32)
    ensures { storage.new ≡ stored storage.old (addresses at 4) value }
{
    let second = rules::sum(at, 1);
    let third = rules::sum(second, 1);
    let fourth = rules::sum(third, 1);
    let bytes = value.to_be_bytes();
    put_byte(storage, at, bytes[0]);
    put_byte(storage, second, bytes[1]);
    put_byte(storage, third, bytes[2]);
    put_byte(storage, fourth, bytes[3]);
}

// A word across a block boundary, round the top of storage or past its end: byte by byte.
fn store_across(storage: &mut [u8], keys: &mut [u8], at: u32, value: u32)
    ensures { machine storage.new keys.new
        ≡ perform (machine storage.old keys.old) (store at 4 value) }
{
    put_bytes(storage, at, value);
    record_word(keys, Access::Store, at);
}

// A word: the four-byte part of storage that starts at its address is lent for it, where it is in one block. It is lent
// by range, and not by `get_mut`, for the reason that `record_byte` gives.
pub fn store_word(storage: &mut [u8], keys: &mut [u8], at: u32, value: u32)
    ensures { machine storage.new keys.new
        ≡ perform (machine storage.old keys.old) (store at 4 value) }
{
    let start = at as usize;
    let end = start + 4;
    if is_across(at) || storage.len() < end {
        store_across(storage, keys, at, value);
        return;
    }
    put_word(&mut storage[start..end], value);
    record_byte(keys, Access::Store, at);
}
