// RESET REFERENCE BIT (B213), S format: the reference bit of the block that the second halfword addresses becomes zero,
// in the real key and in the swap table; the condition code tells what reference and change bits were.
ghost use Rattle.std.specs.Prelude.{◌≡◌, true, length};
ghost use Rattle.rules.specs.Machine.{has};
ghost use Rattle.rules.specs.ResetReferenceBit.{reset_block_key, reset_reference_bit};
ghost use Rattle.storage.specs.Answers.{machine, seen, finished, finish};

use crate::keys::{marks_with, reset_word, unreferred};
use crate::marks::Marks;
use crate::pages::find_page;
use crate::stores::{put_key, put_swap_word};
use crate::tables::{PLACES, segment_table};
use rules::{Call, Ending, FoundPage, KeyUse, RecordChange};
use storage::{After, Step};

// Step 12 on a valid page, and step 13: the key of its block, and the swap word.
fn reset_block_key(
    storage: &mut [u8],
    keys: &mut [u8],
    page: FoundPage,
    block: u32,
) -> Step<RecordChange>
    requires { has (length storage.old) page.place 4 ≡ true }
    ensures { finished result storage.new keys.new
        ≡ finish (seen (reset_block_key page block) (machine storage.old keys.old)) }
{
    let old = storage::consult_key(keys, KeyUse::Whole, block, Ending::FieldMissing(6))?;
    let marks = Marks::of(old.value);
    // 12, and then 13
    put_key(keys, block, unreferred(old.value));
    put_swap_word(storage, keys, page.place, reset_word(page, marks));
    let change = RecordChange::ConditionCode(marks_with(page, marks));
    storage::completed_as(change, old.count, 2)
}

pub fn reset_reference_bit(storage: &mut [u8], keys: &mut [u8], call: Call) -> Step<RecordChange>
    ensures { finished result storage.new keys.new
        ≡ finish (seen (reset_reference_bit call) (machine storage.old keys.old)) }
{
    let guest = call.guest;
    // 1 to 3
    let rseg = segment_table(storage, keys, guest.assists_control(), PLACES, guest)?;
    // 4
    let second = access::second_halfword(storage, keys, guest).after(rseg.count)?;
    // 5 to 11
    let at = guest.effective(second.value);
    let found = find_page(storage, keys, PLACES, rseg.value, at).after(second.count)?;
    let page = found.value;
    // 12
    match page.block {
        Some(block) => reset_block_key(storage, keys, page, block).after(found.count),
        None => {
            // 13
            put_swap_word(storage, keys, page.place, reset_word(page, Marks::none()));
            let change = RecordChange::ConditionCode(marks_with(page, Marks::none()));
            storage::completed_as(change, found.count, 1)
        }
    }
}
