// INSERT STORAGE KEY (09), RR format: the key of the block that R2 addresses comes into R1. Nothing is stored.
ghost use Rattle.std.specs.Prelude.{◌≡◌, ◌<◌};
ghost use Rattle.rules.specs.InsertStorageKey.{insert_key, insert_block_key, insert_storage_key};
ghost use Rattle.storage.specs.Answers.{machine, seen, finished, finish};

use crate::keys::{address_word, assists_keys, inserted_key, virtual_key};
use crate::marks::Marks;
use crate::pages::find_page;
use crate::tables::{PLACES, segment_table};
use rules::{Call, Ending, FoundPage, Guest, KeyUse, RecordChange};
use storage::{After, Step};

// Steps 12 to 14, after so many fields and key blocks were tried.
fn insert_key(
    storage: &[u8],
    keys: &mut [u8],
    guest: Guest,
    page: FoundPage,
    tried: u32,
    marks: Marks,
) -> Step<RecordChange>
    requires { tried < 256 }
    ensures { finished result storage.now keys.new
        ≡ finish (seen (insert_key guest page tried marks.bits) (machine storage.now keys.old)) }
{
    // 12
    let vpsw = access::micblok_word(storage, keys, tried + 1, access::MICVPSW, guest)?;
    // 13
    let at = access::address_in(vpsw.value);
    let first = access::control_field::<u16>(storage, keys, tried + 2, at).after(vpsw.count)?;
    // 14: the EC mode is bit 12, as in `is_extended` of masks; for both crates it would be a public function, with a
    // promise and wrong programs of its own, for one test
    let key = inserted_key(first.value / 8 % 2 == 1, virtual_key(page), marks);
    storage::completed_as(RecordChange::RegisterByte(key), first.count, 0)
}

// Step 11 on a valid page, and steps 12 to 14.
fn insert_block_key(
    storage: &[u8],
    keys: &mut [u8],
    guest: Guest,
    page: FoundPage,
    block: u32,
) -> Step<RecordChange>
    ensures { finished result storage.now keys.new
        ≡ finish (seen (insert_block_key guest page block) (machine storage.now keys.old)) }
{
    let key = storage::consult_key(keys, KeyUse::Whole, block, Ending::FieldMissing(6))?;
    insert_key(storage, keys, guest, page, 6, Marks::of(key.value)).after(key.count)
}

pub fn insert_storage_key(storage: &[u8], keys: &mut [u8], call: Call) -> Step<RecordChange>
    ensures { finished result storage.now keys.new
        ≡ finish (seen (insert_storage_key call) (machine storage.now keys.old)) }
{
    let guest = call.guest;
    let at = address_word(call) % 16777216;
    // 1 to 3
    let rseg = segment_table(storage, keys, assists_keys(call), PLACES, guest)?;
    // 4 to 10
    let found = find_page(storage, keys, PLACES, rseg.value, at).after(rseg.count)?;
    let page = found.value;
    // 11: on an invalid page no key is tried
    match page.block {
        Some(block) => insert_block_key(storage, keys, guest, page, block).after(found.count),
        None => insert_key(storage, keys, guest, page, 5, Marks::none()).after(found.count),
    }
}
