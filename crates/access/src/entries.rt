// How the entries of tables are read: at real addresses, or, as virtual_tables.rt has it, at virtual ones.
ghost use Rattle.std.specs.Prelude.{◌≡◌, ℕ};
ghost use Rattle.rules.specs.Steps.{Steps};
ghost use Rattle.rules.specs.Translation.{entry_of};
ghost use Rattle.storage.specs.Answers.{machine, told, seen};

use rules::Ending;
use storage::{Item, Step};

pub trait Entries: Copy {
    // the reading program of an entry of so many bytes at an address
    ghost entry: { Self → (bytes address : ℕ) → Steps ℕ };

    fn read<T: Item>(self, storage: &[u8], keys: &mut [u8], at: u32) -> Step<u32>
        ensures { told result storage.now keys.new
            ≡ seen (entry self T.bytes at) (machine storage.now keys.old) };
}

// At real addresses; an entry that is not in storage gives this ending.
#[derive(Clone, Copy)]
pub struct Real {
    pub missing: Ending,
}

impl Entries for Real {
    ghost entry = { λ r bytes address. entry_of bytes r.missing address };

    fn read<T: Item>(self, storage: &[u8], keys: &mut [u8], at: u32) -> Step<u32> {
        storage::fetch::<T>(storage, keys, at, self.missing)
    }
}
