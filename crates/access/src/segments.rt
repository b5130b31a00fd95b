// Segment tables: document 01, "Addresses and translation", steps 2 to 4. One walk serves every table and format.
ghost use Rattle.std.specs.Prelude.{◌≡◌};
ghost use Rattle.rules.specs.Translation.{beyond_segments, segment_entry_at, beyond_pages};
ghost use Rattle.rules.specs.Translation.{segment_verdict, segment_walk, table_walk};
ghost use Rattle.storage.specs.Answers.{machine, seen};
ghost use Rattle.access.specs.Walks.{told_walk, Follows};

use crate::entries::Entries;
use crate::pages::{page_entry_at, page_walk};
use crate::walks::{Walked, fault, walked};
use rules::{Format, SegmentSize, TableFault};
use storage::{After, Counted};

// Step 2: for 64K segments the table's length must reach address bits 8-11.
#[inline(always)]
fn is_beyond_segments(format: Format, table: u32, at: u32) -> bool
    ensures { result ≡ beyond_segments format table at }
{
    match format.segment {
        SegmentSize::SixtyFourK => table / 16777216 % 256 < at / 1048576 % 16,
        SegmentSize::OneM => false,
    }
}

#[inline(always)]
fn segment_entry_at(format: Format, table: u32, at: u32) -> u32
    ensures { result ≡ segment_entry_at format table at }
{
    let index = at / format.segment_bytes();
    rules::sum(table / 64 % 262144 * 64, 4 * index)
}

// Step 4: the four leftmost bits of the page index exceed the entry's length.
#[inline(always)]
fn is_beyond_pages(format: Format, entry: u32, at: u32) -> bool
    ensures { result ≡ beyond_pages format entry at }
{
    let bytes = format.segment_bytes();
    entry / 268435456 % 16 < at / (bytes / 16) % 16
}

// What is made of an entry, read at this place for an address: steps 3 and 4.
#[inline(always)]
fn segment_verdict(entry: Counted<u32>, format: Format, place: u32, at: u32) -> Walked
    ensures { Follows entry result (segment_verdict format place at) }
{
    let count = entry.count;
    if entry.value % 2 == 1 {
        return fault(TableFault::SegmentInvalid, place, count);
    }
    if entry.value / 16777216 % 16 != 0 {
        return fault(TableFault::SegmentFormat, place, count);
    }
    if is_beyond_pages(format, entry.value, at) {
        let beyond = page_entry_at(format, entry.value, at);
        return fault(TableFault::PageTableLength, beyond, count);
    }
    Ok(entry)
}

// By entries that are read so.
#[inline(always)]
pub fn segment_walk<E: Entries>(
    storage: &[u8],
    keys: &mut [u8],
    entries: E,
    format: Format,
    table: u32,
    at: u32,
) -> Walked
    ensures { told_walk result storage.now keys.new
        ≡ seen (segment_walk (E.entry entries 4) format table at) (machine storage.now keys.old) }
{
    let place = segment_entry_at(format, table, at);
    if is_beyond_segments(format, table, at) {
        return fault(TableFault::SegmentTableLength, place, 0);
    }
    let entry = walked(entries.read::<u32>(storage, keys, place))?;
    segment_verdict(entry, format, place, at)
}

// Both halves, steps 2 to 6: segments by entries that are read one way, pages by entries that are read another.
#[inline(always)]
pub(crate) fn table_walk<S: Entries, P: Entries>(
    storage: &[u8],
    keys: &mut [u8],
    segments: S,
    pages: P,
    format: Format,
    table: u32,
    at: u32,
) -> Walked
    ensures { told_walk result storage.now keys.new
        ≡ seen (table_walk (S.entry segments 4) (P.entry pages 2) format table at)
        (machine storage.now keys.old) }
{
    let segment = segment_walk(storage, keys, segments, format, table, at)?;
    page_walk(storage, keys, pages, format, segment.value, at).after(segment.count)
}
