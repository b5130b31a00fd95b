// LOAD REAL ADDRESS (B1), RX format: the second operand's address is walked by the guest's own tables; condition code
// and R1 tell what came of it. Nothing is stored.
ghost use Rattle.std.specs.Prelude.{ℕ, ◌≡◌, List};
ghost use Rattle.rules.specs.Translation.{fault};
ghost use Rattle.rules.specs.LoadRealAddress.{loaded, loaded_by, load_by, load_through, load_real_address};
ghost use Rattle.storage.specs.Answers.{machine, seen, finished, finish};

use access::WalkEnd;
use rules::{Call, Format, RecordChange, TableFault};
use storage::{After, Step};

fn loaded(code: u32, address: u32) -> Step<RecordChange>
    ensures { (s ks : List ℕ) → finished result s ks ≡ finish (seen (loaded code address) (machine s ks)) }
{
    storage::completed_as(RecordChange::LoadedAddress(code, address), 0, 0)
}

// What is wrong with the virtual tables, and the virtual address of the entry that it is about.
fn faulted(kind: TableFault, entry: u32) -> Step<RecordChange>
    ensures { (s ks : List ℕ) → finished result s ks ≡ finish (seen (loaded_by (fault kind entry)) (machine s ks)) }
{
    match kind {
        // 6
        TableFault::SegmentTableLength => loaded(3, entry),
        // 13 to 15
        TableFault::SegmentInvalid => loaded(1, entry),
        TableFault::SegmentFormat => storage::refuse(0),
        TableFault::PageTableLength => loaded(3, entry),
        // 22, 23
        TableFault::PageInvalid => loaded(2, entry),
        TableFault::PageFormat => storage::refuse(0),
    }
}

// Steps 6 to 24.
fn load_by(
    storage: &[u8],
    keys: &mut [u8],
    rseg: u32,
    format: Format,
    table: u32,
    at: u32,
) -> Step<RecordChange>
    ensures { finished result storage.now keys.new
        ≡ finish (seen (load_by rseg format table at) (machine storage.now keys.old)) }
{
    match access::virtual_walk(storage, keys, rseg, format, table, at) {
        // 24
        Ok(real) => loaded(0, real.value).after(real.count),
        Err(end) => match end.value {
            WalkEnd::Fault(kind, entry) => faulted(kind, entry).after(end.count),
            WalkEnd::Ended(ending) => storage::stop(ending, end.count),
        },
    }
}

// From step 3 on.
fn load_through(
    storage: &[u8],
    keys: &mut [u8],
    call: Call,
    rseg: u32,
    ecblok: u32,
) -> Step<RecordChange>
    ensures { finished result storage.now keys.new
        ≡ finish (seen (load_through call rseg ecblok) (machine storage.now keys.old)) }
{
    let guest = call.guest;
    // 3: virtual control registers 0 and 1
    let cr0 = access::control_field::<u32>(storage, keys, 3, ecblok)?;
    let at_1 = rules::sum(ecblok, 4);
    let cr1 = access::control_field::<u32>(storage, keys, 4, at_1).after(cr0.count)?;
    // 4
    let Some(format) = access::format_of(cr0.value) else {
        return storage::refuse(cr1.count);
    };
    // 5
    let second = access::second_halfword(storage, keys, guest).after(cr1.count)?;
    let at = guest.indexed(call.r2(), second.value);
    load_by(storage, keys, rseg, format, cr1.value, at).after(second.count)
}

pub fn load_real_address(storage: &[u8], keys: &mut [u8], call: Call) -> Step<RecordChange>
    ensures { finished result storage.now keys.new
        ≡ finish (seen (load_real_address call) (machine storage.now keys.old)) }
{
    let guest = call.guest;
    // 1
    if !guest.assists_control() {
        return storage::refuse(0);
    }
    // 2
    let rseg = access::micblok_word(storage, keys, 1, access::MICRSEG, guest)?;
    let creg = access::micblok_word(storage, keys, 2, access::MICCREG, guest).after(rseg.count)?;
    let ecblok = access::address_in(creg.value);
    load_through(storage, keys, call, rseg.value, ecblok).after(creg.count)
}
