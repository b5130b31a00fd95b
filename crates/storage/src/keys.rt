// Keys, one for each block of 2,048 bytes.
ghost use Rattle.std.specs.Prelude.{◌≡◌, ℕ, List};
ghost use Rattle.rules.specs.Steps.{consult_key};
ghost use Rattle.storage.specs.Answers.{machine, told, seen};

use crate::steps::{Counted, Step, stop};
use rules::{Ending, KeyUse};

// The key of a block, as it is seen for this use, or the ending if the block is not in storage.
#[inline(always)]
pub fn consult_key(keys: &mut [u8], for_use: KeyUse, block: u32, missing: Ending) -> Step<u32>
    ensures { (s : List ℕ) →
        told result s keys.new ≡ seen (consult_key for_use block missing) (machine s keys.old) }
{
    let Some(key) = keys.get(block as usize) else {
        return stop(missing, 0);
    };
    Ok(Counted {
        value: for_use.seen_as(u32::from(*key)),
        count: 1,
    })
}
