// What the library for C programs does: three functions, on bytes, words and numbers. The crate vma_c exports them.
#![tactic(auto)]

ghost use Rattle.std.specs.Prelude.{◌≡◌, length};
ghost use Rattle.rules.specs.Endings.{numbers};
ghost use Rattle.rules.specs.Theorems.ReferenceBits.{OnlyReferenced};
ghost use Rattle.vma.specs.Words.{words_of};
ghost use Rattle.vma.specs.Packed.{packed, numbers_in, count_in};
ghost use Rattle.vma.specs.Called.{called};
ghost use Rattle.trail.specs.Trails.{start, refusal_number};
ghost use Rattle.vma.specs.Recorded.{written_down, packed_trail, refusal_in, held_in};

use crate::entries::entry_from;
use crate::guest_words::{guest_of, words_of};
use crate::packing::{pack, pack_trail};

mod entries;
mod guest_words;
mod packing;

// One attempt. The storage, keys and record of the caller are changed in place, and only on completion; in the record
// the instruction address, and the result of ISK or RRB. But references are recorded in the keys as they are made, and
// stay recorded whatever the ending. Every call is answered, whatever is lent.
pub fn vma_attempt(
    storage: &mut [u8],
    keys: &mut [u8],
    guest: &mut [u32; 21],
    first: u16,
    installed: bool,
) -> u64
    ensures result { result
        ≡ packed
        (numbers
        (called storage.old keys.old guest.old first installed).answer.ending)
        (length (called storage.old keys.old guest.old first installed).references) }
    ensures numbers { numbers_in result
        ≡ numbers
        (called storage.old keys.old guest.old first installed).answer.ending }
    ensures count { count_in result
        ≡ length (called storage.old keys.old guest.old first installed).references }
    ensures guest { guest.new
        ≡ words_of
        (called storage.old keys.old guest.old first installed).answer.guest }
    ensures untouched { ((numbers_in result).number ≡ 0 → ⊥) →
        (guest.new ≡ guest.old) × (storage.new ≡ storage.old) }
    ensures referenced { ((numbers_in result).number ≡ 0 → ⊥) →
        OnlyReferenced keys.old keys.new
        (called storage.old keys.old guest.old first installed).references }
    ensures storage { storage.new
        ≡ (called storage.old keys.old guest.old first installed).after.storage }
    ensures keys { keys.new
        ≡ (called storage.old keys.old guest.old first installed).after.keys }
{
    let answer = assist::attempt(storage, keys, guest_of(*guest), first, installed);
    let ending = answer.ending;
    *guest = words_of(answer.guest);
    pack(
        ending.number(),
        ending.code(),
        answer.count,
        ending.address(),
    )
}

// Starts a trail in a lent buffer. Every call is answered, whatever is lent.
pub fn vma_trail_start(buffer: &mut [u8]) -> u64
    ensures result { result ≡ packed_trail (start buffer.old) }
    ensures refusal { refusal_in result ≡ refusal_number (start buffer.old).refusal }
    ensures held { held_in result ≡ (start buffer.old).held }
    ensures buffer { buffer.new ≡ (start buffer.old).buffer }
{
    pack_trail(trail::start(buffer))
}

// Writes a call down in a trail: the guest's number, its record before and after the call, and the answer as
// `vma_attempt` packed it.
pub fn vma_trail_write(
    buffer: &mut [u8],
    held: u32,
    number: u32,
    before: &[u32; 21],
    after: &[u32; 21],
    first: u16,
    installed: bool,
    answer: u64,
) -> u64
    ensures result { result
        ≡ packed_trail
        (written_down buffer.old held number before.now after.now first installed
        answer) }
    ensures refusal { refusal_in result
        ≡ refusal_number
        (written_down buffer.old held number before.now after.now first installed
        answer).refusal }
    ensures held { held_in result
        ≡ (written_down buffer.old held number before.now after.now first installed
        answer).held }
    ensures buffer { buffer.new
        ≡ (written_down buffer.old held number before.now after.now first installed
        answer).buffer }
{
    let entry = entry_from(number, *before, *after, first, installed, answer);
    pack_trail(trail::write(buffer, held, entry))
}
