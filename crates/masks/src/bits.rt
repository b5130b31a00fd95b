// The first halfword of the virtual PSW, and which bits of its byte 0, the system mask, change. A mask is a `u32`, as
// it is fetched, stored and taken from the instruction: as a `u8` it would be converted at each of these.
ghost use Rattle.std.specs.Prelude.{◌≡◌, ◌&&◌, ◌%◌, ◌<◌, length, set};
ghost use Rattle.rules.specs.Writes.{perform, store};
ghost use Rattle.rules.specs.Bits.{bit};
ghost use Rattle.rules.specs.Masks.{mask_in, extended_in, at_any, all_bits, rises};
ghost use Rattle.storage.specs.Answers.{machine};

use storage::Access;

pub(crate) fn mask_in(first: u32) -> u32
    ensures { (result ≡ mask_in first) × (result < 256) }
{
    first / 256 % 256
}

// Virtual PSW bit 12: the EC mode.
pub(crate) fn is_extended(first: u32) -> bool
    ensures { result ≡ extended_in first }
{
    first / 8 % 2 == 1
}

// Is this bit of a mask one? Bit 0 is leftmost. A place is a number, and no type of its own, since `any` goes over the
// numbers of all places.
#[tactic(auto, using(rules::proofs::Bits::bit_shifted))]
pub(crate) fn bit(mask: u32, place: u32) -> bool
    requires { place < 8 }
    ensures { result ≡ bit 8 place mask }
{
    (mask >> (7 - place)) % 2 == 1
}

// A bit goes from zero to one. The two masks go as two: with them exchanged it is a bit that falls.
pub(crate) fn rises(old: u32, new: u32, place: u32) -> bool
    requires { place < 8 }
    ensures { result ≡ rises old new place }
{
    !bit(old, place) & bit(new, place)
}

// Any bit of a mask goes from zero to one.
fn any_rises(old: u32, new: u32) -> bool
    ensures { result ≡ at_any all_bits (rises old new) }
{
    (0..8).any(|place| rises(old, new, place))
}

// The same while a virtual interruption is pending; seldom is one.
pub(crate) fn any_rises_pending(pending: bool, old: u32, new: u32) -> bool
    ensures { result ≡ (pending && at_any all_bits (rises old new)) }
{
    if !pending {
        return false;
    }
    any_rises(old, new)
}

// Without a test, for the reason below.
fn put_byte(storage: &mut [u8], at: u32, value: u32)
    requires { at < length storage.old }
    ensures { storage.new ≡ set storage.old at (value % 256) }
{
    let i = at as usize;
    storage[i] = (value % 256) as u8;
}

// The new mask as byte 0 of the virtual PSW, and no other byte. Its first halfword was fetched, and the fetch answered
// only because it is there; so nothing is tested here (document 02, R-10).
pub(crate) fn put_mask(storage: &mut [u8], keys: &mut [u8], at: u32, mask: u32)
    requires { at < length storage.old }
    ensures { machine storage.new keys.new
        ≡ perform (machine storage.old keys.old) (store at 1 mask) }
{
    put_byte(storage, at, mask);
    storage::record_byte(keys, Access::Store, at);
}
