// Logical addresses: the access test, once for all instructions, and logical fetches.
ghost use Rattle.std.specs.Prelude.{◌≡◌, ℕ, List};
ghost use Rattle.rules.specs.Access.{key_test, access, store_test, logical_fetch, second_halfword};
ghost use Rattle.storage.specs.Answers.{machine, told, seen};
ghost use Rattle.access.specs.Passes.{passes_for};

use crate::translation::translate;
use rules::{Ending, Exception, Guest, KeyUse};
use storage::{Access, After, Counted, Item, Step};

// A store passes if the PSW key is zero or equals the access bits; a fetch passes also if the fetch bit is zero.
#[inline(always)]
fn passes(kind: Access, psw_key: u32, key: u32) -> bool
    ensures { result ≡ passes_for kind psw_key key }
{
    let stores = (psw_key == 0) | (psw_key == key / 2 % 16);
    match kind {
        Access::Store => stores,
        Access::Fetch => stores | (key % 2 != 1),
    }
}

// A real address: in storage, and its key lets the access pass.
#[inline(always)]
fn key_test(keys: &mut [u8], kind: Access, psw_key: u32, real: u32) -> Step<u32>
    ensures { (s : List ℕ) →
        told result s keys.new ≡ seen (key_test (passes_for kind) psw_key real) (machine s keys.old) }
{
    let outside = Ending::Interruption(Exception::Addressing);
    let key = storage::consult_key(keys, KeyUse::ForProtection, real / 2048, outside)?;
    if !passes(kind, psw_key, key.value) {
        return storage::stop(Ending::Interruption(Exception::Protection), key.count);
    }
    Ok(Counted {
        value: real,
        count: key.count,
    })
}

// The access test, once for all instructions: the real address of a logical one, where its key lets the access pass.
// With DAT off a logical address is real. It is no `Step` there: the compiler would join it in memory with the one that
// translation answers, and each access would wait for it.
#[inline(always)]
fn access_test(storage: &[u8], keys: &mut [u8], kind: Access, guest: Guest, at: u32) -> Step<u32>
    ensures { told result storage.now keys.new
        ≡ seen (access (passes_for kind) guest at) (machine storage.now keys.old) }
{
    let psw_key = guest.psw_key();
    if guest.dat_on() {
        let real = translate(storage, keys, guest.cr0, guest.cr1, at)?;
        return key_test(keys, kind, psw_key, real.value).after(real.count);
    }
    key_test(keys, kind, psw_key, at)
}

// The store test of an operand: low-address protection comes before translation, and makes no entry.
#[inline(always)]
pub fn store_test(storage: &[u8], keys: &mut [u8], guest: Guest, at: u32) -> Step<u32>
    ensures { told result storage.now keys.new
        ≡ seen (store_test guest at) (machine storage.now keys.old) }
{
    if guest.protects_low(at) {
        return storage::stop(Ending::Interruption(Exception::Protection), 0);
    }
    access_test(storage, keys, Access::Store, guest, at)
}

#[inline(always)]
pub fn logical_fetch<T: Item>(storage: &[u8], keys: &mut [u8], guest: Guest, at: u32) -> Step<u32>
    ensures { told result storage.now keys.new
        ≡ seen (logical_fetch guest at T.bytes) (machine storage.now keys.old) }
{
    let real = access_test(storage, keys, Access::Fetch, guest, at)?;
    let outside = Ending::Interruption(Exception::Addressing);
    storage::fetch::<T>(storage, keys, real.value, outside).after(real.count)
}

// The second halfword of the instruction.
#[inline(always)]
pub fn second_halfword(storage: &[u8], keys: &mut [u8], guest: Guest) -> Step<u32>
    ensures { told result storage.now keys.new
        ≡ seen (second_halfword guest) (machine storage.now keys.old) }
{
    let at = rules::sum(guest.instruction_address(), 2);
    logical_fetch::<u16>(storage, keys, guest, at)
}
