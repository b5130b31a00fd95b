// SET STORAGE KEY (08), RR format: the key of the block that R2 addresses is set from R1, in the real key and in the
// swap table. The manual's page names R2 as the key's register; GA22-7000 says R1, and document 01 lets that decide.
ghost use Rattle.std.specs.Prelude.{◌≡◌, true, length};
ghost use Rattle.rules.specs.Machine.{has};
ghost use Rattle.rules.specs.SetStorageKey.{set_block_key, set_storage_key};
ghost use Rattle.storage.specs.Answers.{machine, seen, finished, finish};

use crate::keys::{address_word, assists_keys, key_word, new_key, swap_word};
use crate::marks::Marks;
use crate::pages::find_page;
use crate::stores::{put_key, put_swap_word};
use crate::tables::{STEPS, segment_table};
use rules::{Call, Ending, FoundPage, KeyUse, RecordChange};
use storage::{After, Step};

// Step 11 on a valid page, and step 12: the key of its block, and the swap word.
fn set_block_key(
    storage: &mut [u8],
    keys: &mut [u8],
    call: Call,
    page: FoundPage,
    block: u32,
) -> Step<RecordChange>
    requires { has (length storage.old) page.place 4 ≡ true }
    ensures { finished result storage.new keys.new
        ≡ finish (seen (set_block_key call page block) (machine storage.old keys.old)) }
{
    let missing = Ending::FieldMissing(11);
    let old = storage::consult_key(keys, KeyUse::Whole, block, missing)?;
    // 11, and then 12
    put_key(keys, block, new_key(key_word(call), old.value));
    put_swap_word(
        storage,
        keys,
        page.place,
        swap_word(call, page, Marks::of(old.value)),
    );
    storage::completed(old.count, 2)
}

pub fn set_storage_key(storage: &mut [u8], keys: &mut [u8], call: Call) -> Step<RecordChange>
    ensures { finished result storage.new keys.new
        ≡ finish (seen (set_storage_key call) (machine storage.old keys.old)) }
{
    let at = address_word(call) % 16777216;
    // 1 to 3
    let rseg = segment_table(storage, keys, assists_keys(call), STEPS, call.guest)?;
    // 4 to 10
    let found = find_page(storage, keys, STEPS, rseg.value, at).after(rseg.count)?;
    let page = found.value;
    // 11
    match page.block {
        Some(block) => set_block_key(storage, keys, call, page, block).after(found.count),
        None => {
            // 12
            let swap = swap_word(call, page, Marks::none());
            put_swap_word(storage, keys, page.place, swap);
            storage::completed(found.count, 1)
        }
    }
}
