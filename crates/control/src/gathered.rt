// Step 5: the registers fetched, then every operand word tested in rising order.
//
// The words stand in an array with their number beside it, since there is no heap. The loops go by index: of an array
// whose elements `iter_mut` has lent, a proof doesn't know what they hold. They are two: as one, what is asked and
// where it goes on would be a trait with two impls, as `Entries` of access is, and longer than the second loop. Their
// invariant is one (proofs/Turns.antt).
ghost use Rattle.std.specs.Prelude.{◌<◌, ◌≤◌, ◌≡◌};
ghost use Rattle.rules.specs.StoreControl.{virtual_registers, operand_words};
ghost use Rattle.storage.specs.Answers.{machine, told, seen};
ghost use Rattle.control.specs.Gathered.{first_words};

use rules::Guest;
use storage::{After, Counted, Step};

// n virtual control registers from the first on, in the first n words; the register after 15 is register 0.
#[inline(always)]
pub(crate) fn virtual_registers(
    storage: &[u8],
    keys: &mut [u8],
    ecblok: u32,
    first: u32,
    n: usize,
) -> Step<[u32; 16]>
    requires { (n ≤ 16) × (first < 16) }
    ensures { told (first_words n result) storage.now keys.new
        ≡ seen (virtual_registers ecblok first n) (machine storage.now keys.old) }
{
    let mut words = Counted {
        value: [0u32; 16],
        count: 0,
    };
    for i in 0..n {
        let at = rules::sum(ecblok, 4 * ((first + i as u32) % 16));
        let word = access::control_field::<u32>(storage, keys, 5, at).after(words.count)?;
        words.value[i] = word.value;
        words.count = word.count;
    }
    Ok(words)
}

// The real addresses of n operand words from an address on, each tested for a store.
#[inline(always)]
pub(crate) fn operand_words(
    storage: &[u8],
    keys: &mut [u8],
    guest: Guest,
    address: u32,
    n: usize,
) -> Step<[u32; 16]>
    requires { n ≤ 16 }
    ensures { told (first_words n result) storage.now keys.new
        ≡ seen (operand_words guest address n) (machine storage.now keys.old) }
{
    let mut words = Counted {
        value: [0u32; 16],
        count: 0,
    };
    let mut at = address;
    for i in 0..n {
        let real = access::store_test(storage, keys, guest, at).after(words.count)?;
        words.value[i] = real.value;
        words.count = real.count;
        at = rules::sum(at, 4);
    }
    Ok(words)
}
