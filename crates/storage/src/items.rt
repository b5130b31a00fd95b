// The value of an item of storage: of the byte, halfword or word from a real address on, each byte's address modulo
// 2^24.
ghost use Rattle.std.specs.Prelude.{◌≡◌, ◌≤◌};
ghost use Rattle.storage.specs.Items.{item_at};

#[inline(always)]
pub(crate) fn byte_at(storage: &[u8], at: u32) -> Option<u8>
    ensures { result ≡ item_at storage.now at 1 }
{
    storage.get(at as usize).copied()
}

#[inline(always)]
pub(crate) fn halfword_at(storage: &[u8], at: u32) -> Option<u16>
    ensures { result ≡ item_at storage.now at 2 }
{
    let left = byte_at(storage, at)?;
    let right = byte_at(storage, rules::sum(at, 1))?;
    Some(u16::from_be_bytes([left, right]))
}

// A word byte by byte, wherever its bytes are. Its halves are joined by a sum, as the definition of a number
// by its bytes has them (`value`); a shift would say the same.
fn word_by_bytes(storage: &[u8], at: u32) -> Option<u32>
    ensures { result ≡ item_at storage.now at 4 }
{
    let left = halfword_at(storage, at)?;
    let right = halfword_at(storage, rules::sum(at, 2))?;
    Some(u32::from(left) * 65536 + u32::from(right))
}

// A word that does not go round the top of storage: it is there exactly if its last byte is
// (specs/Theorems.antt, LastByteDecides).
#[inline(always)]
pub(crate) fn word_by_last_byte(storage: &[u8], at: u32) -> Option<u32>
    requires { at ≤ 16777212 }
    ensures { result ≡ item_at storage.now at 4 }
{
    let i = at as usize;
    let bytes = storage.get(i..i + 4)?.first_chunk()?;
    Some(u32::from_be_bytes(*bytes))
}

// From 2^24 - 3 on a word goes round the top of storage; an address of more than 24 bits is left as it is.
pub(crate) fn word_at(storage: &[u8], at: u32) -> Option<u32>
    ensures { result ≡ item_at storage.now at 4 }
{
    if at <= 16777212 {
        return word_by_last_byte(storage, at);
    }
    word_by_bytes(storage, at)
}
