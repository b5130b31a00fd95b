// STORE THEN AND SYSTEM MASK (AC) and STORE THEN OR SYSTEM MASK (AD), SI format: byte 0 of the virtual PSW is stored at
// the operand, and is then ANDed, or ORed, with the immediate.
ghost use Rattle.std.specs.Prelude.{◌≡◌};
ghost use Rattle.rules.specs.StoreThenMask.{new_mask, needs_expanded, byte_operand, store_then};
ghost use Rattle.storage.specs.Answers.{machine, told, seen, finished, finish};

use crate::bits::{any_rises_pending, is_extended, mask_in, put_mask, rises};
use rules::{Call, Guest, MaskChange, RecordChange};
use storage::{After, Step};

// Step 4: the new mask.
fn new_mask(change: MaskChange, old: u32, immediate: u32) -> u32
    ensures { result ≡ new_mask change old immediate }
{
    match change {
        MaskChange::And => old & immediate,
        MaskChange::Or => old | immediate,
    }
}

// And when the expanded assist is needed for it.
fn needs_expanded(change: MaskChange, ec: bool, pending: bool, old: u32, new: u32) -> bool
    ensures { result ≡ needs_expanded change ec pending old new }
{
    match change {
        MaskChange::And => ec & (rises(new, old, 1) | rises(new, old, 5)),
        MaskChange::Or => {
            (ec & (0..6).any(|place| rises(old, new, place))) | any_rises_pending(pending, old, new)
        }
    }
}

// Steps 5 and 6: the real address of the operand, tested for a store. Any access exception of the second halfword
// refuses.
fn byte_operand(storage: &[u8], keys: &mut [u8], guest: Guest) -> Step<u32>
    ensures { told result storage.now keys.new
        ≡ seen (byte_operand guest) (machine storage.now keys.old) }
{
    let second = storage::refused(access::second_halfword(storage, keys, guest))?;
    access::store_test(storage, keys, guest, guest.effective(second.value)).after(second.count)
}

pub fn store_then(
    storage: &mut [u8],
    keys: &mut [u8],
    change: MaskChange,
    call: Call,
) -> Step<RecordChange>
    ensures { finished result storage.new keys.new
        ≡ finish (seen (store_then change call) (machine storage.old keys.old)) }
{
    let guest = call.guest;
    // 1
    if !guest.assists_control() {
        return storage::refuse(0);
    }
    // 2
    let vpsw = access::micblok_word(storage, keys, 2, access::MICVPSW, guest)?;
    // 3
    let at = access::address_in(vpsw.value);
    let first = access::control_field::<u16>(storage, keys, 3, at).after(vpsw.count)?;
    // 4
    let old = mask_in(first.value);
    let new = new_mask(change, old, call.immediate());
    if needs_expanded(
        change,
        is_extended(first.value),
        access::is_pending(vpsw.value),
        old,
        new,
    ) {
        return storage::stop(call.expanded(), first.count);
    }
    // 5 and 6
    let operand = byte_operand(storage, keys, guest).after(first.count)?;
    // 7
    storage::store_byte(storage, keys, operand.value, old);
    put_mask(storage, keys, at, new);
    storage::completed(operand.count, 2)
}
