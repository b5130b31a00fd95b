// The operation byte, the first byte of an instruction: document 02, R-5.
#![tactic(auto)]

ghost use Rattle.std.specs.Prelude.{◌≡◌};
ghost use Rattle.operations.specs.Operations.{operation_of};

use crate::entries::entry;

mod entries;

// What the operation byte says of an instruction: its length in bytes, and whether an assisted one can begin so.
#[derive(Clone, Copy)]
pub struct Operation {
    pub length: u32,
    pub assisted: bool,
}

// Looked up in the table.
#[tactic(auto, using(crate::proofs::Table::entry_apart))]
pub fn operation_of(byte: u8) -> Operation
    ensures { result ≡ operation_of byte }
{
    let found = entry(byte);
    Operation {
        length: u32::from(found % 128),
        assisted: found / 128 == 1,
    }
}
