// The way to a page, whole: one walk for SSK, ISK and RRB, with what a missing field gives as its parameter.
ghost use Rattle.std.specs.Prelude.{◌≡◌};
ghost use Rattle.rules.specs.SwapTables.{found_page, find_page};
ghost use Rattle.storage.specs.Answers.{machine, told, seen};

use crate::tables::{format_in, page_of, segment_of, swap_word_at};
use rules::{FieldNumbers, Format, FoundPage};
use storage::{After, Counted, Step};

// What is known once the page entry is there.
fn found_page(format: Format, place: u32, swap: u32, page: u32, at: u32) -> FoundPage
    ensures { result ≡ found_page format place swap page at }
{
    let block = if access::is_invalid(format, page) {
        None
    } else {
        Some(access::real_address(format, page, at) / 2048)
    };
    FoundPage {
        place,
        swap,
        block,
        upper: at / 2048 % 2 == 1,
    }
}

// Steps 4 to 10 of SSK and ISK, and 5 to 11 of RRB.
pub(crate) fn find_page(
    storage: &[u8],
    keys: &mut [u8],
    numbers: FieldNumbers,
    rseg: u32,
    at: u32,
) -> Step<FoundPage>
    ensures { told result storage.now keys.new
        ≡ seen (find_page numbers rseg at) (machine storage.now keys.old) }
{
    // 4 to 6
    let format = format_in(rseg);
    let segment = segment_of(storage, keys, numbers, format, rseg, at)?;
    let entry = segment.value;
    // 7
    let place = swap_word_at(storage, keys, numbers, format, entry, at).after(segment.count)?;
    // 8
    let number = numbers.swap;
    let swap = access::control_field::<u32>(storage, keys, number, place.value).after(place.count)?;
    // 9 and 10
    let page = page_of(storage, keys, numbers, format, entry, at).after(swap.count)?;
    Ok(Counted {
        value: found_page(format, place.value, swap.value, page.value, at),
        count: page.count,
    })
}
