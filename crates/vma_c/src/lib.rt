// The library that C programs link: the three functions of the crate vma, under their names in C. include/vma.h
// declares them. Each promises what the function that it calls promises.
#![tactic(auto)]

ghost use Rattle.std.specs.Prelude.{◌≡◌, length};
ghost use Rattle.rules.specs.Endings.{numbers};
ghost use Rattle.rules.specs.Theorems.ReferenceBits.{OnlyReferenced};
ghost use Rattle.vma.specs.Words.{words_of};
ghost use Rattle.vma.specs.Packed.{packed, numbers_in, count_in};
ghost use Rattle.vma.specs.Called.{called};
ghost use Rattle.trail.specs.Trails.{start, refusal_number};
ghost use Rattle.vma.specs.Recorded.{written_down, packed_trail, refusal_in, held_in};

// One attempt. The storage, keys and record of the caller are changed in place, and only on completion; in the record
// the instruction address, and the result of ISK or RRB. But references are recorded in the keys as they are made, and
// stay recorded whatever the ending. Every call is answered, whatever is lent.
#[unsafe(no_mangle)]
pub extern "C" fn vma_attempt(
    storage: &mut [u8],
    keys: &mut [u8],
    guest: &mut [u32; 21],
    first: u16,
    installed: bool,
) -> u64
    ensures result { result
        ≡ packed
        (numbers
        (called storage.old keys.old guest.old first installed).answer.ending)
        (length (called storage.old keys.old guest.old first installed).references) }
    ensures numbers { numbers_in result
        ≡ numbers
        (called storage.old keys.old guest.old first installed).answer.ending }
    ensures count { count_in result
        ≡ length (called storage.old keys.old guest.old first installed).references }
    ensures guest { guest.new
        ≡ words_of
        (called storage.old keys.old guest.old first installed).answer.guest }
    ensures untouched { ((numbers_in result).number ≡ 0 → ⊥) →
        (guest.new ≡ guest.old) × (storage.new ≡ storage.old) }
    ensures referenced { ((numbers_in result).number ≡ 0 → ⊥) →
        OnlyReferenced keys.old keys.new
        (called storage.old keys.old guest.old first installed).references }
    ensures storage { storage.new
        ≡ (called storage.old keys.old guest.old first installed).after.storage }
    ensures keys { keys.new
        ≡ (called storage.old keys.old guest.old first installed).after.keys }
{
    vma::vma_attempt(storage, keys, guest, first, installed)
}

// Starts a trail in a lent buffer. Every call is answered, whatever is lent.
#[unsafe(no_mangle)]
pub extern "C" fn vma_trail_start(buffer: &mut [u8]) -> u64
    ensures result { result ≡ packed_trail (start buffer.old) }
    ensures refusal { refusal_in result ≡ refusal_number (start buffer.old).refusal }
    ensures held { held_in result ≡ (start buffer.old).held }
    ensures buffer { buffer.new ≡ (start buffer.old).buffer }
{
    vma::vma_trail_start(buffer)
}

// Writes a call down in a trail: the guest's number, its record before and after the call, and the answer as
// `vma_attempt` packed it.
#[unsafe(no_mangle)]
pub extern "C" fn vma_trail_write(
    buffer: &mut [u8],
    held: u32,
    number: u32,
    before: &[u32; 21],
    after: &[u32; 21],
    first: u16,
    installed: bool,
    answer: u64,
) -> u64
    ensures result { result
        ≡ packed_trail
        (written_down buffer.old held number before.now after.now first installed
        answer) }
    ensures refusal { refusal_in result
        ≡ refusal_number
        (written_down buffer.old held number before.now after.now first installed
        answer).refusal }
    ensures held { held_in result
        ≡ (written_down buffer.old held number before.now after.now first installed
        answer).held }
    ensures buffer { buffer.new
        ≡ (written_down buffer.old held number before.now after.now first installed
        answer).buffer }
{
    vma::vma_trail_write(
        buffer, held, number, before, after, first, installed, answer,
    )
}
