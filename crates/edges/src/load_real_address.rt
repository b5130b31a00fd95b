// LOAD REAL ADDRESS: real 1M segments, entries whose addresses go round the top, registers. Address 345E78, 4K pages
// and 64K segments, virtual and real, every entry valid, R1 register 3, no index, condition code 1 but where an edge
// says otherwise. The other edges are in the modules `load_address_..`.
use crate::edge::Edge;
use crate::load_address_formats::run_load_address_formats;
use crate::load_address_tests::run_load_address_tests;
use crate::load_address_walks::run_load_address_walks;
use crate::places::{
    ECBLOK, FIRST_SEGMENT_ENTRY, INSTRUCTION, MICRSEG, REAL_SEGMENT_TABLE, SECOND_PAGE_TABLE,
    SECOND_SEGMENT_ENTRY, VIRTUAL_PAGE_TABLE_REAL, VIRTUAL_SEGMENT_ENTRY,
    VIRTUAL_SEGMENT_TABLE_REAL,
};
use crate::registers::MICRSEG_2K;
use crate::run::Bench;
use std::io;

pub(crate) fn run_load_real_address(bench: &mut Bench<'_, impl Print>) -> io::Result<()> {
    run_load_address_formats(bench)?;
    run_real_1m_segments(bench)?;
    run_virtual_tables_at_top(bench)?;
    run_real_tables_at_top(bench)?;
    run_indexes(bench)?;
    run_same_registers(bench)?;
    run_load_address_walks(bench)?;
    run_load_address_tests(bench)
}

// With a length that would be too short for 64K segments.
fn run_real_1m_segments(bench: &mut Bench<'_, impl Print>) -> io::Result<()> {
    bench.run_each(&[
        (
            "LRA   real pages 4K, segments 1M, MICRSEG length 00",
            Edge::lra().word(MICRSEG, REAL_SEGMENT_TABLE + 1),
        ),
        (
            "LRA   real pages 2K, segments 1M, MICRSEG length 00",
            Edge::lra().word(MICRSEG, REAL_SEGMENT_TABLE + 3),
        ),
    ])
}

// Virtual addresses 000002 and 000090, of entries, are in page 0 of real segment 0; that page is in frame 002.
fn page_0() -> Edge {
    Edge::lra().halfword(SECOND_PAGE_TABLE, 0x0020)
}

// FFFFC0 + 4 * 34 = 000090.
fn virtual_segments_at_top() -> Edge {
    page_0().word(ECBLOK + 4, 0x03FFFFC0)
}

fn run_virtual_tables_at_top(bench: &mut Bench<'_, impl Print>) -> io::Result<()> {
    bench.run_each(&[
        // FFFFF8 + 2 * 5 = 000002.
        (
            "LRA   virtual segment table at FFFFC0, virtual page table at FFFFF8",
            virtual_segments_at_top()
                .word(0x2090, 0x50FFFFF8)
                .halfword(0x2002, 0xABC0),
        ),
        (
            "LRA   virtual segment table at FFFFC0, segment entry invalid",
            virtual_segments_at_top()
                .word(0x2090, 0x50056D09)
                .condition_code(2),
        ),
        (
            "LRA   virtual segment table at FFFFC0, length 02",
            Edge::lra().word(ECBLOK + 4, 0x02FFFFC0),
        ),
        (
            "LRA   virtual page table at FFFFF8, page entry invalid",
            page_0()
                .word(VIRTUAL_SEGMENT_ENTRY, 0x50FFFFF8)
                .halfword(0x2002, 0xABC8),
        ),
        (
            "LRA   virtual page table at FFFFF8, page-table length 4",
            Edge::lra().word(VIRTUAL_SEGMENT_ENTRY, 0x40FFFFF8),
        ),
    ])
}

// FFFFC0 + 4 * 12 = 000008 and FFFFC0 + 4 * 13 = 00000C: the virtual page table is in segment 13.
fn real_segments_at_top() -> Edge {
    Edge::lra()
        .word(MICRSEG, 0x01FFFFC0)
        .word(VIRTUAL_SEGMENT_ENTRY, 0x50136D08)
        .word(0x0008, 0x30000C10)
        .word(0x000C, 0x60000D00)
}

// FFFFF8 + 2 * 7 = 000006 and FFFFF8 + 2 * 0D = 000012.
fn real_pages_at_top() -> Edge {
    Edge::lra()
        .word(MICRSEG, MICRSEG_2K)
        .word(FIRST_SEGMENT_ENTRY, 0x30FFFFF8)
        .halfword(0x0006, 0x0028)
        .word(SECOND_SEGMENT_ENTRY, 0x60FFFFF8)
        .halfword(0x0012, 0x0018)
}

fn run_real_tables_at_top(bench: &mut Bench<'_, impl Print>) -> io::Result<()> {
    bench.run_each(&[
        ("LRA   real segment table at FFFFC0", real_segments_at_top()),
        (
            "LRA   real pages 2K, real page tables at FFFFF8",
            real_pages_at_top(),
        ),
    ])
}

// 222A18 + 123450 + 010 = 345E78, if 5 is the index.
fn registers_2_and_5() -> Edge {
    Edge::lra().register(2, 0x5A222A18).register(5, 0xA5123450)
}

// FFFFFF + FFFFFF + FFF = 000FFD: virtual segment 0, page 0.
fn sum_round_the_top() -> Edge {
    Edge::lra()
        .first(0xB135)
        .halfword(INSTRUCTION + 2, 0x2FFF)
        .register(2, 0xFFFFFFFF)
        .register(5, 0xFFFFFFFF)
        .word(VIRTUAL_SEGMENT_TABLE_REAL, 0x00056D08)
        .halfword(VIRTUAL_PAGE_TABLE_REAL, 0xABC0)
}

fn run_indexes(bench: &mut Bench<'_, impl Print>) -> io::Result<()> {
    bench.run_each(&[
        ("LRA   index register 5", registers_2_and_5().first(0xB135)),
        (
            "LRA   index 0, register 0 5A111111",
            Edge::lra().register(0, 0x5A111111),
        ),
        (
            "LRA   base 0, index register 5, register 0 5A111111",
            Edge::lra()
                .first(0xB135)
                .halfword(INSTRUCTION + 2, 0x0010)
                .register(2, 0)
                .register(5, 0x5A345E68)
                .register(0, 0x5A111111),
        ),
        // Twice 1A2F34, with displacement 010.
        (
            "LRA   index and base register 2",
            Edge::lra().first(0xB132).register(2, 0x5A1A2F34),
        ),
        (
            "LRA   base FFFFFFFF, index FFFFFFFF, displacement FFF",
            sum_round_the_top(),
        ),
    ])
}

// R1 is the index or base register, or register 0.
fn run_same_registers(bench: &mut Bench<'_, impl Print>) -> io::Result<()> {
    bench.run_each(&[
        (
            "LRA   R1 and index register 5",
            registers_2_and_5().first(0xB155),
        ),
        ("LRA   R1 and base register 2", Edge::lra().first(0xB120)),
        (
            "LRA   R1, index and base register 15",
            Edge::lra()
                .first(0xB1FF)
                .halfword(INSTRUCTION + 2, 0xF010)
                .register(15, 0x5A1A2F34),
        ),
        (
            "LRA   R1 register 0, index 0",
            Edge::lra().first(0xB100).register(0, 0x5A111111),
        ),
    ])
}
