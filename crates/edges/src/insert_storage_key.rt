// INSERT STORAGE KEY.
use crate::common_edges::{run_control_register_6, run_missing_fields};
use crate::edge::{BC, EC, Edge};
use crate::places::{LAST_WORD, MICRSEG, MICVPSW, REAL_PAGE_TABLE, REAL_SEGMENT_TABLE, SWAP_TABLE};
use crate::run::Bench;
use std::io;

pub(crate) fn run_insert_storage_key(bench: &mut Bench<'_, impl Print>) -> io::Result<()> {
    run_figure_6(bench)?;
    run_registers(bench)?;
    run_missing_fields(bench, "ISK", Edge::isk(EC))?;
    run_virtual_psw(bench)?;
    run_tests(bench)?;
    run_segments(bench)?;
    run_page_entries(bench)?;
    run_own_block(bench)
}

// Of address 023800, in the upper block.
fn upper(mode: u8) -> Edge {
    Edge::isk(mode).r2(0x5A023800).key(2, 0x00).key(3, 0xA5)
}

fn run_figure_6(bench: &mut Bench<'_, impl Print>) -> io::Result<()> {
    for (name, mode) in [("EC", EC), ("BC", BC)] {
        for (page, entry) in [("valid", 0x0010), ("invalid", 0x0018)] {
            bench.run(
                format_args!("ISK   {name}, page {page}, bit 20 zero, swap word 5AC3AD53, key 53"),
                Edge::isk(mode).page(entry),
            )?;
            bench.run(
                format_args!("ISK   {name}, page {page}, bit 20 one, swap word 5AC3AD53, key A5"),
                upper(mode).page(entry),
            )?;
        }
    }
    Ok(())
}

// Another key, and where R1 is R2.
fn run_registers(bench: &mut Bench<'_, impl Print>) -> io::Result<()> {
    bench.run_each(&[
        (
            "ISK   EC, page valid, bit 20 zero, swap word 5AC3A9FF, key 50",
            Edge::isk(EC).swap(0x5AC3A9FF).key(2, 0x50),
        ),
        ("ISK   R1 and R2 register 4", Edge::isk(EC).first(0x0944)),
        (
            "ISK   R1 and R2 register 15",
            Edge::isk(EC).first(0x09FF).register(15, 0x5A023000),
        ),
        (
            "ISK   R1 and R2 register 0",
            Edge::isk(EC).first(0x0900).register(0, 0x5A023000),
        ),
    ])
}

// Past the end: MICVPSW, where MICBLOK is the last eight bytes, or the second byte of the virtual PSW.
fn run_virtual_psw(bench: &mut Bench<'_, impl Print>) -> io::Result<()> {
    let no_micvpsw = Edge::isk(EC)
        .control_register_6(0x80003FF8)
        .word(LAST_WORD - 4, REAL_SEGMENT_TABLE);
    let virtual_psw_at_end = Edge::isk(EC).word(MICVPSW, 0x003FFF);
    bench.run_each(&[
        ("ISK   page valid, MICVPSW at 4000", no_micvpsw),
        (
            "ISK   page invalid, MICVPSW at 4000",
            no_micvpsw.page(0x0018),
        ),
        ("ISK   page valid, virtual PSW at 3FFF", virtual_psw_at_end),
        (
            "ISK   page invalid, virtual PSW at 3FFF",
            virtual_psw_at_end.page(0x0018),
        ),
    ])
}

fn run_tests(bench: &mut Bench<'_, impl Print>) -> io::Result<()> {
    bench.run("ISK   R2 bits 28-31 0001", Edge::isk(EC).r2(0x5A023001))?;
    run_control_register_6(bench, "ISK", Edge::isk(EC), &[0b1010, 0b1001])?;
    bench.run(
        "ISK   MICRSEG bit 30 one",
        Edge::isk(EC).word(MICRSEG, REAL_SEGMENT_TABLE + 2),
    )
}

// Address 123000: segment 12, or with 1M segments segment 1, page 23. `rseg` is MICRSEG.
fn far(rseg: u32, segment: u32) -> Edge {
    Edge::isk(EC)
        .r2(0x5A123000)
        .word(MICRSEG, rseg)
        .word(segment, 0xF0000000 + REAL_PAGE_TABLE)
}

fn run_segments(bench: &mut Bench<'_, impl Print>) -> io::Result<()> {
    bench.run_each(&[
        (
            "ISK   64K segments, length 00, address 123000",
            far(REAL_SEGMENT_TABLE, REAL_SEGMENT_TABLE + 4 * 0x12),
        ),
        (
            "ISK   64K segments, length 01, address 123000",
            far(
                0x01000000 + REAL_SEGMENT_TABLE,
                REAL_SEGMENT_TABLE + 4 * 0x12,
            ),
        ),
        // Page 22 and 23 have a word; page 23 a swap word.
        (
            "ISK   1M segments, length 00, address 123000",
            far(REAL_SEGMENT_TABLE + 1, REAL_SEGMENT_TABLE + 4)
                .word(REAL_PAGE_TABLE + 2 * 0x22, 0x00000010)
                .word(SWAP_TABLE + 8 * 0x23, 0x5AC3AD53),
        ),
    ])
}

fn run_page_entries(bench: &mut Bench<'_, impl Print>) -> io::Result<()> {
    bench.run_each(&[
        ("ISK   page entry 0014", Edge::isk(EC).page(0x0014)),
        ("ISK   page entry 001E", Edge::isk(EC).page(0x001E)),
    ])
}

fn run_own_block(bench: &mut Bench<'_, impl Print>) -> io::Result<()> {
    bench.run_each(&[
        (
            "ISK   MICBLOK in the page's own block",
            in_frame_0(Edge::isk(EC)).swap(0x5AC3A9FF).key(0, 0x50),
        ),
        (
            "ISK   tables in the page's own block",
            in_frame_0(upper(EC))
                .swap(0x5AC3FFA9)
                .key(1, 0x50)
                .key(3, 0x00),
        ),
        (
            "ISK   virtual PSW in the page's own block",
            Edge::isk(EC)
                .word(MICVPSW, 0x001600)
                .word(0x1600, 0x00080000)
                .swap(0x5AC3A9FF)
                .key(2, 0x50),
        ),
    ])
}

// The page's lower block has the MICBLOK, its upper block the tables.
fn in_frame_0(edge: Edge) -> Edge {
    edge.page(0x0000).key(2, 0x00)
}
