// The steps on the way to a page. Their numbers here are those of SSK and ISK.
ghost use Rattle.std.specs.Prelude.{◌≡◌};
ghost use Rattle.rules.specs.SwapTables.{format_in, segment_table, segment_of, swap_word_at, page_of};
ghost use Rattle.storage.specs.Answers.{machine, told, seen};

use access::Real;
use rules::{Ending, FieldNumbers, Format, Guest, PageSize};
use storage::{Counted, Step};

// What ending 3 carries. SSK: the step.
pub(crate) const STEPS: FieldNumbers = FieldNumbers {
    table: 2,
    segment: 5,
    swaps: 7,
    swap: 8,
    page: 9,
    block: 11,
};

// ISK and RRB: the place, from 1, among these as tried.
pub(crate) const PLACES: FieldNumbers = FieldNumbers {
    table: 1,
    segment: 2,
    swaps: 3,
    swap: 4,
    page: 5,
    block: 6,
};

// In these steps the numbers, the format and the address go one by one: each step's definition takes the two or three
// of them that it wants, so a value of all three would be taken apart in every clause.
//
// Steps 1 to 3: MICRSEG, by whether step 1's test lets the instruction go on.
pub(crate) fn segment_table(
    storage: &[u8],
    keys: &mut [u8],
    assists: bool,
    numbers: FieldNumbers,
    guest: Guest,
) -> Step<u32>
    ensures { told result storage.now keys.new
        ≡ seen (segment_table assists numbers guest) (machine storage.now keys.old) }
{
    // 1
    if !assists {
        return storage::refuse(0);
    }
    // 2
    let rseg = access::micblok_word(storage, keys, numbers.table, access::MICRSEG, guest)?;
    // 3: bit 30, as in `page_size_in` of access, which is inner; public, it would be one promise more for one test
    if rseg.value / 2 % 2 == 1 {
        return storage::refuse(rseg.count);
    }
    Ok(rseg)
}

// Step 4: 4K pages; bit 31 of MICRSEG chooses 1M segments.
pub(crate) fn format_in(rseg: u32) -> Format
    ensures { result ≡ format_in rseg }
{
    Format {
        page: PageSize::FourK,
        segment: access::segment_size_in(rseg),
    }
}

// Steps 4 to 6: a segment entry that is not in storage gives 3, all that is wrong with the tables is refused.
pub(crate) fn segment_of(
    storage: &[u8],
    keys: &mut [u8],
    numbers: FieldNumbers,
    format: Format,
    rseg: u32,
    at: u32,
) -> Step<u32>
    ensures { told result storage.now keys.new
        ≡ seen (segment_of numbers format rseg at) (machine storage.now keys.old) }
{
    let entries = Real {
        missing: Ending::FieldMissing(numbers.segment),
    };
    access::faults_refused(access::segment_walk(storage, keys, entries, format, rseg, at))
}

// Step 7, the word at the page-table origin less 4; and step 8's address, of the swap word.
pub(crate) fn swap_word_at(
    storage: &[u8],
    keys: &mut [u8],
    numbers: FieldNumbers,
    format: Format,
    segment: u32,
    at: u32,
) -> Step<u32>
    ensures { told result storage.now keys.new
        ≡ seen (swap_word_at numbers format segment at) (machine storage.now keys.old) }
{
    let place = rules::difference(access::page_table(segment), 4);
    let table = access::control_field::<u32>(storage, keys, numbers.swaps, place)?;
    let offset = 8 * access::page_index(format, at);
    Ok(Counted {
        value: rules::sum(access::address_in(table.value), offset),
        count: table.count,
    })
}

// Steps 9 and 10: the page entry.
pub(crate) fn page_of(
    storage: &[u8],
    keys: &mut [u8],
    numbers: FieldNumbers,
    format: Format,
    segment: u32,
    at: u32,
) -> Step<u32>
    ensures { told result storage.now keys.new
        ≡ seen (page_of numbers format segment at) (machine storage.now keys.old) }
{
    let missing = Ending::FieldMissing(numbers.page);
    let page = access::page_entry(storage, keys, format, segment, at, missing)?;
    if !access::is_invalid(format, page.value) & access::is_malformed(format, page.value) {
        return storage::refuse(page.count);
    }
    Ok(page)
}
