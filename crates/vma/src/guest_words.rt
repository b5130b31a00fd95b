// A guest's record as 21 words.
ghost use Rattle.std.specs.Prelude.{◌+◌, ◌*◌, ◌^◌, ◌<◌, ◌≡◌, length, get_or, take, drop};
ghost use Rattle.vma.specs.Words.{guest_of, words_of};

use rules::Guest;

// std has no method that joins the halves of a number, or takes it apart.
fn joined(left: u32, right: u32) -> u64
    ensures { result ≡ left * 2 ^ 32 + right }
{
    u64::from(left) << 32 | u64::from(right)
}

// They are words 2 to 17.
fn general_registers(words: [u32; 21]) -> [u32; 16]
    ensures { result ≡ take 16 (drop 2 words) }
{
    *words[2..].first_chunk().unwrap()
}

// The second clause is what the type says of the words: a caller who holds them by reference isn't told.
pub(crate) fn guest_of(words: [u32; 21]) -> Guest
    ensures guest { result ≡ guest_of words }
    ensures words { (length words ≡ 21) × (get_or words 0 0 < 2 ^ 32) × (get_or words 1 0 < 2 ^ 32) }
{
    Guest {
        psw: joined(words[0], words[1]),
        general: general_registers(words),
        cr0: words[18],
        cr1: words[19],
        cr6: words[20],
    }
}

// The general registers go in last: in this order the check finds the proof alone.
pub(crate) fn words_of(guest: Guest) -> [u32; 21]
    ensures { result ≡ words_of guest }
{
    let mut words = [0; 21];
    words[0] = (guest.psw >> 32) as u32;
    words[1] = (guest.psw & 0xFFFF_FFFF) as u32;
    words[18] = guest.cr0;
    words[19] = guest.cr1;
    words[20] = guest.cr6;
    words[2..18].copy_from_slice(&guest.general);
    words
}
