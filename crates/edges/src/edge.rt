// An edge: one whole call, with the storage and keys that it finds.
use crate::places::{
    ECBLOK, INSTRUCTION, LAST_HALFWORD, MICBLOK, MICVPSW, PAGE_TABLE, REAL_PAGE_TABLE,
    SEGMENT_TABLE, SWAP_TABLE, VIRTUAL_PSW,
};
use crate::registers::{
    EXPANDED_ASSIST, LOW_ADDRESS_PROTECTION, PAGES_4K_SEGMENTS_64K, PSW_ADDRESS, PSW_CODE, PSW_DAT,
    PSW_EC_PROBLEM, PSW_KEY_1, PSW_MASK_A,
};
use rules::{Call, Guest};

// The virtual PSW's second byte: bit 12 alone, and all but bit 12.
pub(crate) const EC: u8 = 0x08;

pub(crate) const BC: u8 = 0xF7;

const USUAL_SIZE: usize = 0x4000;

const DISPLACEMENT: u32 = 0x010;

// There is no heap: an edge has room for so many words, and for the keys of the usual size.
const WORD_ROOM: usize = 32;

const KEY_ROOM: usize = 8;

// What stands at an address that is a multiple of four.
#[derive(Clone, Copy)]
pub(crate) struct Word {
    pub(crate) address: u32,
    pub(crate) value: u32,
}

#[derive(Clone, Copy)]
pub(crate) struct Edge {
    pub(crate) size: usize,
    pub(crate) call: Call,
    // the words that differ from those of every set-up, one after another; at each address the latest stays
    pub(crate) words: [Option<Word>; WORD_ROOM],
    // the keys of the first blocks; all others are zero
    pub(crate) keys: [u8; KEY_ROOM],
}

// What the call finds.
impl Edge {
    // 16 KiB, PSW key zero, DAT off; base register 2 with its displacement gives the operand. Virtual register 0 lets
    // SSM go on.
    pub(crate) fn new(first: u16) -> Edge {
        let guest = Guest {
            psw: PSW_EC_PROBLEM | u64::from(INSTRUCTION),
            general: [0; 16],
            cr0: 0,
            cr1: 0,
            cr6: 0x80000000 + MICBLOK,
        };
        let edge = Edge {
            size: USUAL_SIZE,
            call: Call {
                guest,
                first,
                installed: false,
            },
            words: [None; WORD_ROOM],
            keys: [0; KEY_ROOM],
        };
        edge.register(2, 0x5A001FF0).word(ECBLOK, 0x80000000)
    }

    // No edge puts more than there is room for; one more would be left out.
    pub(crate) fn word(mut self, address: u32, value: u32) -> Edge {
        // by its position: for `iter_mut().find(..)` the check would want a proof by hand
        if let Some(free) = self.words.iter().position(|word| word.is_none()) {
            self.words[free] = Some(Word { address, value });
        }
        self
    }

    // At an even address. The other halfword of its word is as it was.
    pub(crate) fn halfword(self, address: u32, value: u16) -> Edge {
        let start = address - address % 4;
        let [high, low] = value.to_be_bytes();
        let [byte_0, byte_1, byte_2, byte_3] = self.word_at(start).to_be_bytes();
        let word = if address == start {
            [high, low, byte_2, byte_3]
        } else {
            [byte_0, byte_1, high, low]
        };
        self.word(start, u32::from_be_bytes(word))
    }

    pub(crate) fn key(mut self, number: usize, value: u8) -> Edge {
        if let Some(key) = self.keys.get_mut(number) {
            *key = value;
        }
        self
    }

    // The keys of all eight blocks.
    pub(crate) fn all_keys(mut self, value: u8) -> Edge {
        self.keys = [value; KEY_ROOM];
        self
    }
}

// Alterations.
impl Edge {
    pub(crate) fn size(mut self, size: usize) -> Edge {
        self.size = size;
        self
    }

    // A virtual interruption is pending: bit 0 of MICVPSW.
    pub(crate) fn pending(self) -> Edge {
        self.word(MICVPSW, 0x80000000 + VIRTUAL_PSW)
    }

    pub(crate) fn expanded_installed(mut self) -> Edge {
        self.call.installed = true;
        self
    }

    pub(crate) fn control_register_6(mut self, value: u32) -> Edge {
        self.call.guest.cr6 = value;
        self
    }

    // Bit 6 of control register 6 is one, the others are as they were.
    pub(crate) fn expanded_on(self) -> Edge {
        self.control_register_6(self.call.guest.cr6 | EXPANDED_ASSIST)
    }

    // The operand at this logical address.
    pub(crate) fn operand(self, address: u32) -> Edge {
        self.register(2, rules::difference(address, DISPLACEMENT))
    }

    pub(crate) fn register(mut self, number: usize, value: u32) -> Edge {
        if let Some(register) = self.call.guest.general.get_mut(number) {
            *register = value;
        }
        self
    }

    // Register R2 of SSK and ISK.
    pub(crate) fn r2(self, value: u32) -> Edge {
        self.register(4, value)
    }

    pub(crate) fn first(mut self, first: u16) -> Edge {
        self.call.first = first;
        self
    }

    // The entry of page 3.
    pub(crate) fn page(self, entry: u16) -> Edge {
        self.halfword(REAL_PAGE_TABLE + 2 * 3, entry)
    }

    // The swap word of page 3.
    pub(crate) fn swap(self, word: u32) -> Edge {
        self.word(SWAP_TABLE + 8 * 3, word)
    }

    // PSW bits 18-19.
    pub(crate) fn condition_code(mut self, code: u64) -> Edge {
        self.call.guest.psw = self.call.guest.psw & !PSW_CODE | code << 44;
        self
    }

    // PSW bits 20-23 are 1010.
    pub(crate) fn program_mask_a(mut self) -> Edge {
        self.call.guest.psw |= PSW_MASK_A;
        self
    }

    pub(crate) fn psw_key_1(mut self) -> Edge {
        self.call.guest.psw |= PSW_KEY_1;
        self
    }

    // The first halfword is the last of storage, so that the second isn't in storage.
    pub(crate) fn instruction_at_top(mut self) -> Edge {
        self.call.guest.psw = self.call.guest.psw & !PSW_ADDRESS | u64::from(LAST_HALFWORD);
        self.halfword(LAST_HALFWORD, self.call.first)
    }

    // The PSW key isn't the instruction's, whose block is fetch-protected; it is the operand's.
    pub(crate) fn instruction_fetch_protected(self) -> Edge {
        self.psw_key_1().key(2, 0x28).key(4, 0x10)
    }

    pub(crate) fn control_register_0(mut self, value: u32) -> Edge {
        self.call.guest.cr0 = value;
        self
    }

    // Bit 3 of control register 0 is one, the others are as they were.
    pub(crate) fn low_address_protection(self) -> Edge {
        self.control_register_0(self.call.guest.cr0 | LOW_ADDRESS_PROTECTION)
    }

    // The virtual PSW at 000100, with its first two bytes.
    pub(crate) fn virtual_psw_at_100(self, halfword: u16) -> Edge {
        self.word(MICVPSW, 0x000100).halfword(0x100, halfword)
    }

    // DAT on, with control register 0 as given; no table has an entry.
    pub(crate) fn dat_on(mut self, control_register_0: u32) -> Edge {
        self.call.guest.psw |= PSW_DAT;
        self.call.guest.cr0 = control_register_0;
        self.call.guest.cr1 = 0xFF000000 + SEGMENT_TABLE;
        self
    }

    // DAT on, 4K pages and 64K segments. Two page entries stand in a word.
    pub(crate) fn dat(self, pages_0_1: u32, pages_2_3: u32) -> Edge {
        self.dat_on(PAGES_4K_SEGMENTS_64K)
            .word(SEGMENT_TABLE, 0xF0000000 + PAGE_TABLE)
            .word(PAGE_TABLE, pages_0_1)
            .word(PAGE_TABLE + 2 * 2, pages_2_3)
    }

    // The operand's page 2 is in frame 002, the instruction's page 1 isn't valid.
    pub(crate) fn instruction_not_mapped(self) -> Edge {
        self.dat(0x00000018, 0x00200000)
    }
}
