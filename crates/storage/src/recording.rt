// Recording: an access sets the reference bit, or the reference and change bits, in the key of every block that it
// touches.
ghost use Rattle.std.specs.Prelude.{◌≡◌, ◌/◌, slice_index, slice_set};
ghost use Rattle.rules.specs.Machine.{addresses};
ghost use Rattle.rules.specs.Recording.{marked};
ghost use Rattle.storage.specs.Recording.{marking, across};

const BLOCK: u32 = 2048;

#[derive(Clone, Copy)]
pub enum Access {
    Fetch,
    Store,
}

impl Access {
    // A key after this access to its block, by division as in the definition. Bits 0-4 and 7 stay as they are.
    fn mark(self, key: u8) -> u8
        ensures { result ≡ marking self key }
    {
        match self {
            Access::Fetch => key / 8 * 8 + 4 + key % 4,
            Access::Store => key / 8 * 8 + 6 + key % 2,
        }
    }
}

// The key of a byte's block. By index: of a slice after `get_mut` a proof knows the length, and not what it holds.
#[inline(always)]
pub fn record_byte(keys: &mut [u8], access: Access, at: u32)
    ensures { keys.new
        ≡ slice_set keys.old (at / 2048) (marking access (slice_index keys.old (at / 2048))) }
{
    let i = (at / BLOCK) as usize;
    if i < keys.len() {
        keys[i] = access.mark(keys[i]);
    }
}

// A halfword, its bytes one by one, as `record_word` its halves: over the number of bytes it would be one function,
// with a loop and its invariant.
pub(crate) fn record_halfword(keys: &mut [u8], access: Access, at: u32)
    ensures { keys.new ≡ marked (marking access) keys.old (addresses at 2) }
{
    record_byte(keys, access, at);
    record_byte(keys, access, rules::sum(at, 1));
}

// A word wherever its bytes are.
pub fn record_word(keys: &mut [u8], access: Access, at: u32)
    ensures { keys.new ≡ marked (marking access) keys.old (addresses at 4) }
{
    record_halfword(keys, access, at);
    record_halfword(keys, access, rules::sum(at, 2));
}

// May a word touch two blocks? If not, it is recorded as its first byte is.
pub fn is_across(at: u32) -> bool
    ensures { result ≡ across at }
{
    (16777215 < at) | (2044 < at % BLOCK)
}
