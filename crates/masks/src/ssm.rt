// SET SYSTEM MASK (80), S format: the operand byte becomes byte 0 of the virtual PSW.
ghost use Rattle.std.specs.Prelude.{◌≡◌, ◌<◌};
ghost use Rattle.rules.specs.Masks.{changes};
ghost use Rattle.rules.specs.SetSystemMask.{mask_operand, mask_needs_expanded, mask_target, set_system_mask};
ghost use Rattle.storage.specs.Answers.{machine, told, seen, finished, finish};

use crate::bits::{any_rises_pending, bit, is_extended, mask_in, put_mask, rises};
use rules::{Call, Guest, RecordChange};
use storage::{After, Counted, Step};

// Steps 1 to 6: the operand byte.
// Bit 1 of virtual control register 0 refuses before the second halfword is fetched (step 4).
fn mask_operand(storage: &[u8], keys: &mut [u8], guest: Guest) -> Step<u32>
    ensures { told result storage.now keys.new
        ≡ seen (mask_operand guest) (machine storage.now keys.old) }
{
    // 1: control register 6 bits 0-1
    if guest.cr6 / 1073741824 % 4 != 2 {
        return storage::refuse(0);
    }
    // 2
    let creg = access::micblok_word(storage, keys, 2, access::MICCREG, guest)?;
    // 3: virtual control register 0 is the word at ECBLOK
    let ecblok = access::address_in(creg.value);
    let control = access::control_field::<u32>(storage, keys, 3, ecblok).after(creg.count)?;
    // 4: its bit 1
    if control.value / 1073741824 % 2 == 1 {
        return storage::refuse(control.count);
    }
    // 5
    let second = access::second_halfword(storage, keys, guest).after(control.count)?;
    // 6
    let operand = guest.effective(second.value);
    access::logical_fetch::<u8>(storage, keys, guest, operand).after(second.count)
}

// A bit changes.
fn changes(old: u32, new: u32, place: u32) -> bool
    requires { place < 8 }
    ensures { result ≡ changes old new place }
{
    rises(old, new, place) | rises(new, old, place)
}

// Step 9 in the EC mode. (In the BC mode it is `any_rises_pending`.)
fn mask_needs_expanded(pending: bool, old: u32, new: u32) -> bool
    ensures { result ≡ mask_needs_expanded pending old new }
{
    let changed = changes(old, new, 1) | changes(old, new, 5);
    let set = bit(new, 0) | (bit(new, 2) | (bit(new, 3) | bit(new, 4)));
    changed | set | (pending & (rises(old, new, 6) | rises(old, new, 7)))
}

// Steps 7 to 9: the address of the virtual PSW, where the new mask may be put.
fn mask_target(storage: &[u8], keys: &mut [u8], call: Call, new: u32) -> Step<u32>
    ensures { told result storage.now keys.new
        ≡ seen (mask_target call new) (machine storage.now keys.old) }
{
    // 7
    let vpsw = access::micblok_word(storage, keys, 7, access::MICVPSW, call.guest)?;
    // 8
    let at = access::address_in(vpsw.value);
    let first = access::control_field::<u16>(storage, keys, 8, at).after(vpsw.count)?;
    // 9
    let ec = is_extended(first.value);
    let pending = access::is_pending(vpsw.value);
    let old = mask_in(first.value);
    if ec & mask_needs_expanded(pending, old, new) {
        return storage::stop(call.expanded(), first.count);
    }
    if !ec & any_rises_pending(pending, old, new) {
        return storage::refuse(first.count);
    }
    Ok(Counted {
        value: at,
        count: first.count,
    })
}

pub fn set_system_mask(storage: &mut [u8], keys: &mut [u8], call: Call) -> Step<RecordChange>
    ensures { finished result storage.new keys.new
        ≡ finish (seen (set_system_mask call) (machine storage.old keys.old)) }
{
    // 1 to 6
    let new = mask_operand(storage, keys, call.guest)?;
    // 7 to 9
    let at = mask_target(storage, keys, call, new.value).after(new.count)?;
    // 10
    put_mask(storage, keys, at.value, new.value);
    storage::completed(at.count, 1)
}
