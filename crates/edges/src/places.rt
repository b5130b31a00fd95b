// Fixed places of every set-up, and the virtual control registers.

// Control fields, the instruction and its operand.
pub(crate) const MICBLOK: u32 = 0x400;

pub(crate) const MICRSEG: u32 = MICBLOK;

pub(crate) const MICCREG: u32 = MICBLOK + 4;

pub(crate) const MICVPSW: u32 = MICBLOK + 8;

pub(crate) const ECBLOK: u32 = 0x500;

// Virtual control register 15.
pub(crate) const LAST_REGISTER: u32 = ECBLOK + 4 * 15;

pub(crate) const VIRTUAL_PSW: u32 = 0x600;

pub(crate) const INSTRUCTION: u32 = 0x1000;

pub(crate) const OPERAND: u32 = 0x2000;

// Real segment table, page table and swap table; the page table has the swap table's address before it.
pub(crate) const REAL_SEGMENT_TABLE: u32 = 0x800;

pub(crate) const REAL_PAGE_TABLE: u32 = 0xC10;

pub(crate) const SWAP_TABLE: u32 = 0xD00;

// LRA: the virtual tables, by their virtual addresses and by their real ones.
pub(crate) const VIRTUAL_SEGMENT_TABLE: u32 = 0x123840;

pub(crate) const VIRTUAL_PAGE_TABLE: u32 = 0x056D08;

pub(crate) const VIRTUAL_SEGMENT_TABLE_REAL: u32 = 0x2840;

pub(crate) const VIRTUAL_PAGE_TABLE_REAL: u32 = 0x1D08;

// Their entries, in storage. Here and below, 64K segments and 4K pages but where the name says otherwise.
pub(crate) const VIRTUAL_SEGMENT_ENTRY: u32 = VIRTUAL_SEGMENT_TABLE_REAL + 4 * 0x34;

pub(crate) const VIRTUAL_SEGMENT_ENTRY_1M: u32 = VIRTUAL_SEGMENT_TABLE_REAL + 4 * 3;

pub(crate) const VIRTUAL_PAGE_ENTRY: u32 = VIRTUAL_PAGE_TABLE_REAL + 2 * 5;

pub(crate) const VIRTUAL_PAGE_ENTRY_2K: u32 = VIRTUAL_PAGE_TABLE_REAL + 2 * 0x0B;

pub(crate) const VIRTUAL_PAGE_ENTRY_1M: u32 = VIRTUAL_PAGE_TABLE_REAL + 2 * 0x45;

pub(crate) const VIRTUAL_PAGE_ENTRY_2K_1M: u32 = VIRTUAL_PAGE_TABLE_REAL + 2 * 0x8B;

// The real entries of the first walk, to the virtual segment entry.
pub(crate) const FIRST_SEGMENT_ENTRY: u32 = REAL_SEGMENT_TABLE + 4 * 0x12;

pub(crate) const FIRST_PAGE_ENTRY: u32 = REAL_PAGE_TABLE + 2 * 3;

pub(crate) const FIRST_PAGE_ENTRY_2K: u32 = REAL_PAGE_TABLE + 2 * 7;

// Those of the second walk, to the virtual page entry, and its page table.
pub(crate) const SECOND_SEGMENT_ENTRY: u32 = REAL_SEGMENT_TABLE + 4 * 5;

pub(crate) const SECOND_PAGE_TABLE: u32 = 0xD00;

pub(crate) const SECOND_PAGE_ENTRY: u32 = SECOND_PAGE_TABLE + 2 * 6;

pub(crate) const SECOND_PAGE_ENTRY_2K: u32 = SECOND_PAGE_TABLE + 2 * 0x0D;

// Segment table and page table for DAT.
pub(crate) const SEGMENT_TABLE: u32 = 0x3000;

pub(crate) const PAGE_TABLE: u32 = 0x3400;

// The last word and the last halfword of storage, where it has the usual size.
pub(crate) const LAST_WORD: u32 = 0x3FFC;

pub(crate) const LAST_HALFWORD: u32 = 0x3FFE;

// Virtual control register 0, and by how much each next one is more.
const REGISTER_0: u32 = 0xA0B0C0D0;

const EACH_REGISTER: u32 = 0x01010101;

pub(crate) fn virtual_register(number: u32) -> u32 {
    REGISTER_0 + number % 16 * EACH_REGISTER
}
