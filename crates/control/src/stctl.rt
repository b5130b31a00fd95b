// The whole instruction. Nothing is stored before the last word is tested.
ghost use Rattle.std.specs.Prelude.{◌≡◌};
ghost use Rattle.rules.specs.StoreControl.{store_control};
ghost use Rattle.storage.specs.Answers.{machine, seen, finished, finish};

use crate::gathered::{operand_words, virtual_registers};
use crate::operand::{control_block, register_count, word_operand};
use crate::stores::store_words;
use rules::{Call, RecordChange};
use storage::{After, Step};

pub fn store_control(storage: &mut [u8], keys: &mut [u8], call: Call) -> Step<RecordChange>
    ensures { finished result storage.new keys.new
        ≡ finish (seen (store_control call) (machine storage.old keys.old)) }
{
    let guest = call.guest;
    // 1 and 2
    let ecblok = control_block(storage, keys, guest)?;
    // 3 and 4
    let address = word_operand(storage, keys, guest).after(ecblok.count)?;
    // 5: the registers, then the tests, and only then the stores: so values and addresses are two arrays
    let first = call.r1();
    let n = register_count(first, call.r2());
    let values = virtual_registers(storage, keys, ecblok.value, first, n).after(address.count)?;
    let reals = operand_words(storage, keys, guest, address.value, n).after(values.count)?;
    store_words(storage, keys, &reals.value[..n], &values.value[..n]);
    storage::completed(reals.count, n as u32)
}
