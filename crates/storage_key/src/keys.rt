// The operands, keys, and the swap word.
ghost use Rattle.std.specs.Prelude.{◌≡◌, ◌*◌, ◌<◌, bit_or};
ghost use Rattle.rules.specs.Bits.{bits, word};
ghost use Rattle.rules.specs.SwapTables.{address_word, assists_keys, virtual_key, swap_with};
ghost use Rattle.rules.specs.SetStorageKey.{key_word, new_key};
ghost use Rattle.rules.specs.InsertStorageKey.{inserted_key};
ghost use Rattle.rules.specs.ResetReferenceBit.{unreferred};

use crate::marks::Marks;
use rules::{Call, FoundPage};

// SSK: the word in R1, whose bits 24-30 are the key.
pub(crate) fn key_word(call: Call) -> u32
    ensures { result ≡ key_word call }
{
    let guest = call.guest;
    guest.register(call.r1())
}

// SSK and ISK: the word in R2, whose bits 8-31 are the address.
pub(crate) fn address_word(call: Call) -> u32
    ensures { result ≡ address_word call }
{
    let guest = call.guest;
    guest.register(call.r2())
}

// What their step 1 wants: control register 6 bits 0-2 are 100, and bits 28-31 of that word zeros.
pub(crate) fn assists_keys(call: Call) -> bool
    ensures { result ≡ assists_keys call }
{
    (call.guest.cr6 / 536870912 % 8 == 4) & (address_word(call) % 16 == 0)
}

// SSK, step 11: R1 bits 24-28, then zeros; bit 7 as found.
pub(crate) fn new_key(key: u32, old: u32) -> u8
    ensures { result ≡ new_key key old }
{
    (key / 8 % 32 * 8 + old % 2) as u8
}

// The virtual key of a page's block: byte 2 of the swap word, or 3.
pub(crate) fn virtual_key(page: FoundPage) -> u8
    ensures { result ≡ virtual_key page }
{
    let bytes = page.swap.to_be_bytes();
    if page.upper {
        return bytes[3];
    }
    bytes[2]
}

// A key with its reference bit zero.
pub(crate) fn unreferred(key: u32) -> u8
    ensures { result ≡ unreferred key }
{
    (key / 8 % 32 * 8 + key % 4) as u8
}

// Those of a page's block, each ORed with the virtual one: RRB's condition code.
pub(crate) fn marks_with(page: FoundPage, marks: Marks) -> u32
    ensures { result ≡ bit_or marks.bits (bits 8 5 6 (virtual_key page)) }
{
    u32::from(marks.or(Marks::of(u32::from(virtual_key(page)))).bits)
}

// ISK, Figure 6: bits 24-31 of R1.
pub(crate) fn inserted_key(extended: bool, key: u8, marks: Marks) -> u8
    ensures { result ≡ inserted_key extended key marks.bits }
{
    let access = key / 8 % 32 * 8;
    if extended {
        return access + Marks::of(u32::from(key)).or(marks).bits * 2;
    }
    access
}

// A page's swap word with another virtual key, and reference and change bits ORed into bits 4 and 5, or for the upper
// block into 6 and 7.
pub(crate) fn swap_with(page: FoundPage, key: u8, marks: Marks) -> u32
    ensures { result ≡ swap_with page key marks.bits }
{
    let bytes = page.swap.to_be_bytes();
    if page.upper {
        return u32::from_be_bytes([bytes[0] | marks.bits, bytes[1], bytes[2], key]);
    }
    u32::from_be_bytes([bytes[0] | marks.bits * 4, bytes[1], key, bytes[3]])
}

// SSK, step 12: R1 bits 24-30 and a zero in the swap word.
pub(crate) fn swap_word(call: Call, page: FoundPage, marks: Marks) -> u32
    ensures { result ≡ swap_with page (word 24 30 (key_word call) * 2) marks.bits }
{
    swap_with(page, (key_word(call) / 2 % 128 * 2) as u8, marks)
}

// RRB, step 13: the virtual reference bit is zero there.
pub(crate) fn reset_word(page: FoundPage, marks: Marks) -> u32
    ensures { result ≡ swap_with page (unreferred (virtual_key page)) marks.bits }
{
    swap_with(page, unreferred(u32::from(virtual_key(page))), marks)
}
