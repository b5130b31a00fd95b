// Tables at virtual addresses, which are found through the real tables of MICRSEG: document 002, LRA, steps 6 to 23.
ghost use Rattle.std.specs.Prelude.{◌≡◌};
ghost use Rattle.rules.specs.LoadRealAddress.{real_format, real_by, through_real, virtual_walk};
ghost use Rattle.storage.specs.Answers.{machine, told, seen};
ghost use Rattle.access.specs.Walks.{told_walk};

use crate::control_fields::{page_size_in, segment_size_in};
use crate::entries::{Entries, Real};
use crate::segments::table_walk;
use crate::walks::{Walked, faults_refused};
use rules::{Ending, Exception, Format};
use storage::{After, Item, Step};

// Entries at virtual addresses. Ending 3 carries the place of the real segment entry, or of the real page entry, that
// is not in storage.
#[derive(Clone, Copy)]
pub struct Virtual {
    pub rseg: u32,
    pub segment: u32,
    pub page: u32,
}

fn real_format(rseg: u32) -> Format
    ensures { result ≡ real_format rseg }
{
    Format {
        page: page_size_in(rseg),
        segment: segment_size_in(rseg),
    }
}

impl Virtual {
    // The real address of a virtual one: steps 7 to 11, and 16 to 20.
    #[inline(never)]
    fn real_by(self, storage: &[u8], keys: &mut [u8], at: u32) -> Step<u32>
        ensures { told result storage.now keys.new
            ≡ seen (real_by self.rseg self.segment self.page at) (machine storage.now keys.old) }
    {
        let segments = Real {
            missing: Ending::FieldMissing(self.segment),
        };
        let pages = Real {
            missing: Ending::FieldMissing(self.page),
        };
        let format = real_format(self.rseg);
        faults_refused(table_walk(storage, keys, segments, pages, format, self.rseg, at))
    }
}

impl Entries for Virtual {
    ghost entry = { λ v bytes address. through_real v.rseg v.segment v.page bytes address };

    // Also step 12, and 21.
    fn read<T: Item>(self, storage: &[u8], keys: &mut [u8], at: u32) -> Step<u32> {
        let real = self.real_by(storage, keys, at)?;
        let refuse = Ending::Interruption(Exception::PrivilegedOperation);
        storage::fetch::<T>(storage, keys, real.value, refuse).after(real.count)
    }
}

// Segment entries by steps 6 to 15, page entries by steps 16 to 23.
pub fn virtual_walk(
    storage: &[u8],
    keys: &mut [u8],
    rseg: u32,
    format: Format,
    table: u32,
    at: u32,
) -> Walked
    ensures { told_walk result storage.now keys.new
        ≡ seen (virtual_walk rseg format table at) (machine storage.now keys.old) }
{
    let segments = Virtual {
        rseg,
        segment: 5,
        page: 6,
    };
    let pages = Virtual {
        rseg,
        segment: 7,
        page: 8,
    };
    table_walk(storage, keys, segments, pages, format, table, at)
}
