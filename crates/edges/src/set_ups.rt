// Base set-ups. Each completes unless it is altered.
use crate::edge::Edge;
use crate::places::{
    ECBLOK, FIRST_PAGE_ENTRY, FIRST_PAGE_ENTRY_2K, FIRST_SEGMENT_ENTRY, MICRSEG, OPERAND,
    REAL_PAGE_TABLE, REAL_SEGMENT_TABLE, SECOND_PAGE_ENTRY, SECOND_PAGE_ENTRY_2K,
    SECOND_PAGE_TABLE, SECOND_SEGMENT_ENTRY, SWAP_TABLE, VIRTUAL_PAGE_ENTRY, VIRTUAL_PAGE_ENTRY_1M,
    VIRTUAL_PAGE_ENTRY_2K, VIRTUAL_PAGE_ENTRY_2K_1M, VIRTUAL_PAGE_TABLE, VIRTUAL_PSW,
    VIRTUAL_SEGMENT_ENTRY, VIRTUAL_SEGMENT_ENTRY_1M, VIRTUAL_SEGMENT_TABLE, virtual_register,
};
use crate::registers::{MICRSEG_4K, PAGES_4K_SEGMENTS_64K};

impl Edge {
    fn virtual_psw(self, mask: u8, mode: u8) -> Edge {
        self.word(VIRTUAL_PSW, u32::from_be_bytes([mask, mode, 0, 0]))
    }

    // `old` is byte 0 of the virtual PSW, `mode` its byte 1, `new` the operand.
    pub(crate) fn ssm(old: u8, mode: u8, new: u8) -> Edge {
        Edge::new(0x8000)
            .virtual_psw(old, mode)
            .word(OPERAND, u32::from_be_bytes([new, 0, 0, 0]))
    }

    // STNSM and STOSM differ in the operation code, for which each has its name: a line each, and plainer so.
    pub(crate) fn stnsm(old: u8, mode: u8, immediate: u8) -> Edge {
        Edge::new(u16::from_be_bytes([0xAC, immediate])).virtual_psw(old, mode)
    }

    pub(crate) fn stosm(old: u8, mode: u8, immediate: u8) -> Edge {
        Edge::new(u16::from_be_bytes([0xAD, immediate])).virtual_psw(old, mode)
    }

    // R1 and R3 as they stand in the instruction, four bits each.
    pub(crate) fn stctl(registers: u8) -> Edge {
        Edge::new(u16::from_be_bytes([0xB6, registers])).word(ECBLOK, virtual_register(0))
    }

    // The real tables of address 023000 (64K segments: segment 2, page 3), and the page's entry.
    fn tables(self, page: u16) -> Edge {
        self.word(MICRSEG, REAL_SEGMENT_TABLE)
            .word(REAL_SEGMENT_TABLE + 4 * 2, 0xF0000000 + REAL_PAGE_TABLE)
            .word(REAL_PAGE_TABLE - 4, SWAP_TABLE)
            .page(page)
    }

    // SSK 3,4 of address 023000 in frame 001; R1 low byte 3F.
    pub(crate) fn ssk() -> Edge {
        Edge::new(0x0834)
            .register(3, 0xABCDEF3F)
            .r2(0x5A023000)
            .tables(0x0010)
    }

    // ISK 3,4 of the same address; `mode` is byte 1 of the virtual PSW.
    pub(crate) fn isk(mode: u8) -> Edge {
        Edge::ssk()
            .first(0x0934)
            .virtual_psw(0, mode)
            .swap(0x5AC3AD53)
            .key(2, 0x53)
    }

    // RRB of the same address, in frame 002; `key` is that of the address's block.
    pub(crate) fn rrb(key: u8, swap: u32) -> Edge {
        Edge::new(0xB213)
            .condition_code(1)
            .program_mask_a()
            .operand(0x023000)
            .tables(0x0020)
            .swap(swap)
            .key(4, key)
    }

    // RRB of address 023800, in the upper block.
    pub(crate) fn rrb_upper(key: u8, swap: u32) -> Edge {
        Edge::rrb(0x00, swap).operand(0x023800).key(5, key)
    }

    // LRA 3,010(0,2) of address 345E78: 4K pages and 64K segments, virtual and real; every table is just long enough.
    // Each table has entries for every format: another one is chosen by virtual control register 0, or by MICRSEG.
    pub(crate) fn lra() -> Edge {
        Edge::new(0xB130)
            .condition_code(1)
            .program_mask_a()
            .register(2, 0x5A345E68)
            .register(3, 0xABCDEF3F)
            .word(MICRSEG, MICRSEG_4K)
            .word(ECBLOK, PAGES_4K_SEGMENTS_64K)
            .word(ECBLOK + 4, 0x03000000 + VIRTUAL_SEGMENT_TABLE)
            .virtual_tables()
            .real_tables_64k()
            .real_tables_1m()
    }

    // Address 345E78, 64K segments: segment 34, page 5 (4K) or 0B (2K); 1M: segment 3, page 45 (4K) or 8B (2K).
    fn virtual_tables(self) -> Edge {
        self.word(VIRTUAL_SEGMENT_ENTRY, 0x50000000 + VIRTUAL_PAGE_TABLE)
            .word(VIRTUAL_SEGMENT_ENTRY_1M, 0x40000000 + VIRTUAL_PAGE_TABLE)
            .halfword(VIRTUAL_PAGE_ENTRY, 0xABC0)
            .halfword(VIRTUAL_PAGE_ENTRY_2K, 0x5678)
            .halfword(VIRTUAL_PAGE_ENTRY_1M, 0x1230)
            .halfword(VIRTUAL_PAGE_ENTRY_2K_1M, 0x9AB0)
    }

    // The page of the virtual segment table (4K: 123000, in frame 002; 2K: 123800, at 2800) and that of the virtual
    // page table (4K: 056000, in frame 001; 2K: 056800, at 1800), in 64K segments 12 and 05.
    fn real_tables_64k(self) -> Edge {
        self.word(FIRST_SEGMENT_ENTRY, 0x30000000 + REAL_PAGE_TABLE)
            .halfword(FIRST_PAGE_ENTRY, 0x0020)
            .halfword(FIRST_PAGE_ENTRY_2K, 0x0028)
            .word(SECOND_SEGMENT_ENTRY, 0x60000000 + SECOND_PAGE_TABLE)
            .halfword(SECOND_PAGE_ENTRY, 0x0010)
            .halfword(SECOND_PAGE_ENTRY_2K, 0x0018)
    }

    // The same pages in 1M segments 1 and 0.
    fn real_tables_1m(self) -> Edge {
        self.word(REAL_SEGMENT_TABLE + 4, 0x20000000 + REAL_PAGE_TABLE)
            .halfword(REAL_PAGE_TABLE + 2 * 0x23, 0x0020)
            .halfword(REAL_PAGE_TABLE + 2 * 0x47, 0x0028)
            .word(REAL_SEGMENT_TABLE, 0x50000000 + SECOND_PAGE_TABLE)
            .halfword(SECOND_PAGE_TABLE + 2 * 0x56, 0x0010)
            .halfword(SECOND_PAGE_TABLE + 2 * 0xAD, 0x0018)
    }
}
