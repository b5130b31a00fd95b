// Steps 1 to 4, the address of ECBLOK and the operand's; and how many registers step 5 fetches.
ghost use Rattle.std.specs.Prelude.{◌<◌, ◌≤◌, ◌≡◌};
ghost use Rattle.rules.specs.StoreControl.{control_block, word_operand, register_count};
ghost use Rattle.storage.specs.Answers.{machine, told, seen};

use rules::Guest;
use storage::{Counted, Step};

// Steps 1 and 2: the address of ECBLOK.
pub(crate) fn control_block(storage: &[u8], keys: &mut [u8], guest: Guest) -> Step<u32>
    ensures { told result storage.now keys.new
        ≡ seen (control_block guest) (machine storage.now keys.old) }
{
    // 1
    if !guest.assists_control() {
        return storage::refuse(0);
    }
    // 2
    let creg = access::micblok_word(storage, keys, 2, access::MICCREG, guest)?;
    Ok(Counted {
        value: access::address_in(creg.value),
        count: creg.count,
    })
}

// Steps 3 and 4: the operand's address, on a word.
pub(crate) fn word_operand(storage: &[u8], keys: &mut [u8], guest: Guest) -> Step<u32>
    ensures { told result storage.now keys.new
        ≡ seen (word_operand guest) (machine storage.now keys.old) }
{
    // 3
    let second = access::second_halfword(storage, keys, guest)?;
    let at = guest.effective(second.value);
    // 4
    if at % 4 != 0 {
        return storage::refuse(second.count);
    }
    Ok(Counted {
        value: at,
        count: second.count,
    })
}

// Step 5: how many registers R1 and R3 name; the register after 15 is register 0. That there are at most 16 is said
// where they are gathered too: a type for it would be made and taken apart once.
pub(crate) fn register_count(r1: u32, r3: u32) -> usize
    requires { (r1 < 16) × (r3 < 16) }
    ensures { (result ≡ register_count r1 r3) × (result ≤ 16) }
{
    ((r3 + 16 - r1) % 16 + 1) as usize
}
