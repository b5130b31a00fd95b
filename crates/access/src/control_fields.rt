// The control program's fields: real, with key zero, each with the step that wants it, which ending 3 carries.
ghost use Rattle.std.specs.Prelude.{◌≡◌};
ghost use Rattle.rules.specs.declared.endings.Ending.TheVariants.{FieldMissing};
ghost use Rattle.rules.specs.Steps.{fetch_bytes};
ghost use Rattle.rules.specs.ControlFields.{micblok_word, address_in, pending};
ghost use Rattle.rules.specs.ControlFields.{segment_size_in, page_size_in};
ghost use Rattle.storage.specs.Answers.{machine, told, seen};

use rules::{Ending, Guest, PageSize, SegmentSize};
use storage::{Item, Step};

// A word or a halfword; or ending 3 with this step, where a byte of it is not in storage.
#[inline(always)]
pub fn control_field<T: Item>(storage: &[u8], keys: &mut [u8], step: u32, at: u32) -> Step<u32>
    ensures { told result storage.now keys.new
        ≡ seen (fetch_bytes at T.bytes (FieldMissing step)) (machine storage.now keys.old) }
{
    storage::fetch::<T>(storage, keys, at, Ending::FieldMissing(step))
}

// The offsets of the words of MICBLOK. They are added to an address, so they stay numbers.
pub const MICRSEG: u32 = 0;

pub const MICCREG: u32 = 4;

pub const MICVPSW: u32 = 8;

#[inline(always)]
pub fn micblok_word(
    storage: &[u8],
    keys: &mut [u8],
    step: u32,
    offset: u32,
    guest: Guest,
) -> Step<u32>
    ensures { told result storage.now keys.new
        ≡ seen (micblok_word step offset guest) (machine storage.now keys.old) }
{
    control_field::<u32>(storage, keys, step, rules::sum(guest.micblok(), offset))
}

// MICRSEG bit 31 says 1M segments, bit 30 2K pages.
pub fn segment_size_in(rseg: u32) -> SegmentSize
    ensures { result ≡ segment_size_in rseg }
{
    if rseg % 2 == 1 {
        return SegmentSize::OneM;
    }
    SegmentSize::SixtyFourK
}

pub(crate) fn page_size_in(rseg: u32) -> PageSize
    ensures { result ≡ page_size_in rseg }
{
    if rseg / 2 % 2 == 1 {
        return PageSize::TwoK;
    }
    PageSize::FourK
}

// The address that MICCREG or MICVPSW gives: bits 8-31.
pub fn address_in(field: u32) -> u32
    ensures { result ≡ address_in field }
{
    field % 16777216
}

// MICVPSW bit 0: a virtual interruption is pending. It is no part of the address.
pub fn is_pending(field: u32) -> bool
    ensures { result ≡ pending field }
{
    field / 2147483648 % 2 == 1
}
