// Page tables: document 01, "Addresses and translation", steps 5 and 6.
ghost use Rattle.std.specs.Prelude.{◌≡◌, ◌≤◌};
ghost use Rattle.rules.specs.Translation.{page_table, page_index, page_entry_at, entry_of, invalid};
ghost use Rattle.rules.specs.Translation.{malformed, real_address, page_verdict, page_walk};
ghost use Rattle.storage.specs.Answers.{machine, told, seen};
ghost use Rattle.access.specs.Walks.{told_walk, Follows};

use crate::entries::Entries;
use crate::walks::{Walked, fault, walked};
use rules::{Ending, Format, TableFault};
use storage::{Counted, Step};

// The origin of the page table that a segment entry names.
#[inline(always)]
pub fn page_table(segment: u32) -> u32
    ensures { result ≡ page_table segment }
{
    segment / 8 % 2097152 * 8
}

#[inline(always)]
pub fn page_index(format: Format, at: u32) -> u32
    ensures { (result ≡ page_index format at) × (result ≤ 512) }
{
    at % format.segment_bytes() / format.page_bytes()
}

#[inline(always)]
pub(crate) fn page_entry_at(format: Format, segment: u32, at: u32) -> u32
    ensures { result ≡ page_entry_at format segment at }
{
    rules::sum(page_table(segment), 2 * page_index(format, at))
}

// Step 5: the entry, or this ending if it is not in storage.
pub fn page_entry(
    storage: &[u8],
    keys: &mut [u8],
    format: Format,
    segment: u32,
    at: u32,
    missing: Ending,
) -> Step<u32>
    ensures { told result storage.now keys.new
        ≡ seen (entry_of 2 missing (page_entry_at format segment at)) (machine storage.now keys.old) }
{
    let place = page_entry_at(format, segment, at);
    storage::fetch::<u16>(storage, keys, place, missing)
}

#[inline(always)]
pub fn is_invalid(format: Format, entry: u32) -> bool
    ensures { result ≡ invalid format entry }
{
    entry / (format.page_bytes() / 512) % 2 == 1
}

#[inline(always)]
pub fn is_malformed(format: Format, entry: u32) -> bool
    ensures { result ≡ malformed format entry }
{
    entry / 2 % (format.page_bytes() / 1024) != 0
}

// The frame and the remaining address bits.
#[inline(always)]
pub fn real_address(format: Format, entry: u32, at: u32) -> u32
    ensures { result ≡ real_address format entry at }
{
    let bytes = format.page_bytes();
    entry / (bytes / 256) % (16777216 / bytes) * bytes + at % bytes
}

// What is made of an entry, read at this place for an address: steps 5 and 6.
#[inline(always)]
fn page_verdict(entry: Counted<u32>, format: Format, place: u32, at: u32) -> Walked
    ensures { Follows entry result (page_verdict format place at) }
{
    let count = entry.count;
    if is_invalid(format, entry.value) {
        return fault(TableFault::PageInvalid, place, count);
    }
    if is_malformed(format, entry.value) {
        return fault(TableFault::PageFormat, place, count);
    }
    Ok(Counted {
        value: real_address(format, entry.value, at),
        count,
    })
}

// By entries that are read so.
#[inline(always)]
pub(crate) fn page_walk<E: Entries>(
    storage: &[u8],
    keys: &mut [u8],
    entries: E,
    format: Format,
    segment: u32,
    at: u32,
) -> Walked
    ensures { told_walk result storage.now keys.new
        ≡ seen (page_walk (E.entry entries 2) format segment at) (machine storage.now keys.old) }
{
    let place = page_entry_at(format, segment, at);
    let entry = walked(entries.read::<u16>(storage, keys, place))?;
    page_verdict(entry, format, place, at)
}
