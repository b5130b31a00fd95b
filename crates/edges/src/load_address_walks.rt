// LOAD REAL ADDRESS: what is not in storage, and the tests of the real tables. Set-ups as in `load_real_address`.
use crate::edge::Edge;
use crate::places::{
    ECBLOK, FIRST_PAGE_ENTRY, FIRST_PAGE_ENTRY_2K, FIRST_SEGMENT_ENTRY, LAST_WORD, MICCREG,
    MICRSEG, REAL_SEGMENT_TABLE, SECOND_PAGE_ENTRY, SECOND_PAGE_ENTRY_2K, SECOND_SEGMENT_ENTRY,
    VIRTUAL_SEGMENT_ENTRY,
};
use crate::registers::{MICRSEG_2K, MICRSEG_4K, PAGES_4K_SEGMENTS_64K};
use crate::run::Bench;
use std::io;

pub(crate) fn run_load_address_walks(bench: &mut Bench<'_, impl Print>) -> io::Result<()> {
    run_control_fields(bench)?;
    run_table_fields(bench)?;
    run_first_walk(bench)?;
    run_second_walk(bench)?;
    run_real_2k_pages(bench)
}

// Virtual control register 1 isn't in storage.
pub(crate) fn ecblok_at_end(register_0: u32) -> Edge {
    Edge::lra()
        .word(MICCREG, LAST_WORD)
        .word(LAST_WORD, register_0)
}

// The control program's fields, in the order in which they are tried.
fn run_control_fields(bench: &mut Bench<'_, impl Print>) -> io::Result<()> {
    bench.run_each(&[
        (
            "LRA   MICBLOK at 4000",
            Edge::lra().control_register_6(0x80004000),
        ),
        // MICCREG is in one doubleword with MICRSEG, so that it is in storage if MICRSEG is.
        (
            "LRA   MICBLOK at 3FF8, MICCREG at 3FFC",
            Edge::lra()
                .control_register_6(0x80003FF8)
                .word(LAST_WORD - 4, MICRSEG_4K)
                .word(LAST_WORD, ECBLOK),
        ),
        (
            "LRA   ECBLOK at 4000",
            Edge::lra().word(MICCREG, 0x00004000),
        ),
        ("LRA   ECBLOK at 3FFC", ecblok_at_end(PAGES_4K_SEGMENTS_64K)),
    ])
}

// Real tables and virtual entries that are not in storage.
fn run_table_fields(bench: &mut Bench<'_, impl Print>) -> io::Result<()> {
    bench.run_each(&[
        (
            "LRA   real segment table at 4000",
            Edge::lra().word(MICRSEG, 0x01004000),
        ),
        (
            "LRA   real page table of the first walk at 4000",
            Edge::lra().word(FIRST_SEGMENT_ENTRY, 0x30004000),
        ),
        // Segment 12 at 3F80 + 48 = 3FC8, segment 20 at 4000; the virtual page table is in segment 20.
        (
            "LRA   real segment entry of the first walk at 3FC8, of the second at 4000",
            Edge::lra()
                .word(MICRSEG, 0x02003F80)
                .word(0x3FC8, 0x30000C10)
                .word(VIRTUAL_SEGMENT_ENTRY, 0x50206D08),
        ),
        (
            "LRA   real page table of the second walk at 4000",
            Edge::lra().word(SECOND_SEGMENT_ENTRY, 0x60004000),
        ),
        // The real page in frame 004, which isn't in storage.
        (
            "LRA   virtual segment entry at 4910",
            Edge::lra().halfword(FIRST_PAGE_ENTRY, 0x0040),
        ),
        (
            "LRA   virtual page entry at 4D12",
            Edge::lra().halfword(SECOND_PAGE_ENTRY, 0x0040),
        ),
    ])
}

// The first walk, to the virtual segment entry, at virtual 123910: segment 12, page 3.
fn run_first_walk(bench: &mut Bench<'_, impl Print>) -> io::Result<()> {
    bench.run_each(&[
        (
            "LRA   first walk, MICRSEG length 00",
            Edge::lra().word(MICRSEG, REAL_SEGMENT_TABLE),
        ),
        (
            "LRA   first walk, real segment entry invalid",
            Edge::lra().word(FIRST_SEGMENT_ENTRY, 0x30000C11),
        ),
        (
            "LRA   first walk, real segment entry bits 4-7 0001",
            Edge::lra().word(FIRST_SEGMENT_ENTRY, 0x31000C10),
        ),
        (
            "LRA   first walk, real page-table length 2",
            Edge::lra().word(FIRST_SEGMENT_ENTRY, 0x20000C10),
        ),
        (
            "LRA   first walk, real page entry invalid",
            Edge::lra().halfword(FIRST_PAGE_ENTRY, 0x0028),
        ),
        (
            "LRA   first walk, real page entry bit 13 one",
            Edge::lra().halfword(FIRST_PAGE_ENTRY, 0x0024),
        ),
    ])
}

// The second walk, to the virtual page entry, at virtual 056D12: segment 05, page 6.
fn run_second_walk(bench: &mut Bench<'_, impl Print>) -> io::Result<()> {
    bench.run_each(&[
        (
            "LRA   second walk, virtual page table at 256D08, MICRSEG length 01",
            Edge::lra().word(VIRTUAL_SEGMENT_ENTRY, 0x50256D08),
        ),
        (
            "LRA   second walk, real segment entry invalid",
            Edge::lra().word(SECOND_SEGMENT_ENTRY, 0x60000D01),
        ),
        (
            "LRA   second walk, real segment entry bits 4-7 1000",
            Edge::lra().word(SECOND_SEGMENT_ENTRY, 0x68000D00),
        ),
        (
            "LRA   second walk, real page-table length 5",
            Edge::lra().word(SECOND_SEGMENT_ENTRY, 0x50000D00),
        ),
        (
            "LRA   second walk, real page entry invalid",
            Edge::lra().halfword(SECOND_PAGE_ENTRY, 0x0018),
        ),
        (
            "LRA   second walk, real page entry bit 14 one",
            Edge::lra().halfword(SECOND_PAGE_ENTRY, 0x0012),
        ),
    ])
}

// 2K pages: bit 13 is the invalid bit, bit 14 the format's.
fn run_real_2k_pages(bench: &mut Bench<'_, impl Print>) -> io::Result<()> {
    bench.run_each(&[
        (
            "LRA   real pages 2K, first walk, real page entry bit 13 one",
            Edge::lra()
                .word(MICRSEG, MICRSEG_2K)
                .halfword(FIRST_PAGE_ENTRY_2K, 0x002C),
        ),
        (
            "LRA   real pages 2K, second walk, real page entry bit 14 one",
            Edge::lra()
                .word(MICRSEG, MICRSEG_2K)
                .halfword(SECOND_PAGE_ENTRY_2K, 0x001A),
        ),
    ])
}
