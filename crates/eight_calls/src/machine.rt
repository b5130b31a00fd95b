// Storage and keys. Before the first call storage is a function from an address to the word there, and keys are zero.
use rules::{Answer, Call};

const STORAGE_BYTES: usize = 0x4000;

const KEY_BLOCK: usize = 2048;

#[derive(Drop)]
pub(crate) struct Machine {
    storage: [u8; STORAGE_BYTES],
    keys: [u8; STORAGE_BYTES / KEY_BLOCK],
}

impl Machine {
    pub(crate) fn new() -> Machine {
        let mut storage = [0; STORAGE_BYTES];
        for (word, address) in storage.chunks_exact_mut(4).zip((0..).step_by(4)) {
            word.copy_from_slice(&initial_word(address).to_be_bytes());
        }
        Machine {
            storage,
            keys: [0; STORAGE_BYTES / KEY_BLOCK],
        }
    }

    pub(crate) fn attempt(&mut self, call: Call) -> Answer {
        assist::attempt(
            &mut self.storage,
            &mut self.keys,
            call.guest,
            call.first,
            call.installed,
        )
    }
}

// Pages are 4K and segments 64K, in both kinds of tables.
fn initial_word(address: usize) -> u32 {
    match address {
        // MICRSEG, MICCREG, MICVPSW
        0x0400 => 0x00000800,
        0x0404 => 0x00000500,
        0x0408 => 0x00000600,
        // virtual control registers
        0x0500..=0x053F => 0xA0B0C0D0 + (address / 4 % 16) as u32 * 0x01010101,
        // virtual PSW: EC mode, system mask 04
        0x0600 => 0x04080000,
        // SSK's tables: the entry of segment 2, the swap table's address, the entries of pages 2 and 3; the frame of
        // page 2 isn't in storage
        0x0808 => 0xF0000C10,
        0x0C0C => 0x00000D00,
        0x0C14 => 0x0FF00010,
        // instruction, operand
        0x1000 => 0x80002010,
        0x2000 => 0x07000000,
        // tables for DAT: the entries of segment 0, of pages 0 and 1, of page 2, which is invalid
        0x3000 => 0xF0003400,
        0x3400 => 0x00000010,
        0x3404 => 0x00080000,
        _ => 0,
    }
}
