// Storage and keys as an edge finds them: a function from a place to what stands there. So there is no second copy of
// storage to see what a call changed.
use crate::edge::Edge;
use crate::places::{
    ECBLOK, INSTRUCTION, LAST_REGISTER, MICCREG, MICVPSW, VIRTUAL_PSW, virtual_register,
};

// Base register 2, displacement 010.
const SECOND_HALFWORD: u32 = 0x2010;

// What every set-up has.
fn usual_word(first: u16, address: u32) -> u32 {
    match address {
        MICCREG => ECBLOK,
        MICVPSW => VIRTUAL_PSW,
        INSTRUCTION => u32::from(first) << 16 | SECOND_HALFWORD,
        ECBLOK..=LAST_REGISTER => virtual_register((address - ECBLOK) / 4),
        _ => 0,
    }
}

impl Edge {
    // At an address that is a multiple of four.
    pub(crate) fn word_at(&self, address: u32) -> u32 {
        let latest = self
            .words
            .iter()
            .rev()
            .flatten()
            .find(|word| word.address == address);
        match latest {
            Some(word) => word.value,
            None => usual_word(self.call.first, address),
        }
    }

    pub(crate) fn byte_at(&self, address: u32) -> u8 {
        let offset = address % 4;
        self.word_at(address - offset).to_be_bytes()[offset as usize]
    }

    pub(crate) fn key_at(&self, number: u32) -> u8 {
        self.keys.get(number as usize).copied().unwrap_or(0)
    }

    pub(crate) fn fill(&self, storage: &mut [u8], keys: &mut [u8]) {
        for (address, byte) in (0u32..).zip(storage.iter_mut()) {
            *byte = self.byte_at(address);
        }
        for (number, key) in (0u32..).zip(keys.iter_mut()) {
            *key = self.key_at(number);
        }
    }
}
