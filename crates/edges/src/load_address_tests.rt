// LOAD REAL ADDRESS: the tests of virtual entries, the second halfword, recording. Set-ups as in `load_real_address`.
use crate::common_edges::run_control_register_6;
use crate::edge::Edge;
use crate::load_address_walks::ecblok_at_end;
use crate::places::{
    ECBLOK, MICCREG, MICRSEG, PAGE_TABLE, SECOND_PAGE_ENTRY, SEGMENT_TABLE, VIRTUAL_PAGE_ENTRY,
    VIRTUAL_PAGE_ENTRY_2K, VIRTUAL_SEGMENT_ENTRY,
};
use crate::registers::{PAGES_2K_SEGMENTS_1M, PAGES_2K_SEGMENTS_64K};
use crate::run::Bench;
use std::io;

pub(crate) fn run_load_address_tests(bench: &mut Bench<'_, impl Print>) -> io::Result<()> {
    run_virtual_entries(bench)?;
    run_control_register_0(bench)?;
    run_second_halfword(bench)?;
    run_control_register_6(bench, "LRA", Edge::lra(), &[0b1010, 0b1001, 0b1100])?;
    run_others(bench)
}

// Invalid comes before the format, the format before the page table's length.
fn run_virtual_entries(bench: &mut Bench<'_, impl Print>) -> io::Result<()> {
    bench.run_each(&[
        (
            "LRA   virtual segment entry bits 4-7 0001",
            Edge::lra().word(VIRTUAL_SEGMENT_ENTRY, 0x51056D08),
        ),
        (
            "LRA   virtual segment entry invalid, bits 4-7 1000",
            Edge::lra()
                .word(VIRTUAL_SEGMENT_ENTRY, 0x58056D09)
                .condition_code(2),
        ),
        (
            "LRA   virtual segment entry bits 4-7 1000, page-table length 4",
            Edge::lra().word(VIRTUAL_SEGMENT_ENTRY, 0x48056D08),
        ),
        (
            "LRA   virtual page entry bit 13 one",
            Edge::lra().halfword(VIRTUAL_PAGE_ENTRY, 0xABC4),
        ),
        (
            "LRA   virtual page entry invalid, bits 13-14 11",
            Edge::lra().halfword(VIRTUAL_PAGE_ENTRY, 0xABCE),
        ),
        (
            "LRA   virtual pages 2K, page entry bit 14 one",
            Edge::lra()
                .word(ECBLOK, PAGES_2K_SEGMENTS_64K)
                .halfword(VIRTUAL_PAGE_ENTRY_2K, 0x567A),
        ),
    ])
}

// After both virtual control registers have been fetched, before the second halfword.
fn run_control_register_0(bench: &mut Bench<'_, impl Print>) -> io::Result<()> {
    bench.run_each(&[
        (
            "LRA   virtual control register 0 bits 8-12 00000",
            Edge::lra().word(ECBLOK, 0),
        ),
        (
            "LRA   virtual control register 0 FF87FFFF",
            Edge::lra().word(ECBLOK, 0xFF87FFFF),
        ),
        (
            "LRA   virtual control register 0 bits 8-12 00000, second halfword not in storage",
            Edge::lra().word(ECBLOK, 0).instruction_at_top(),
        ),
        (
            "LRA   virtual control register 0 bits 8-12 00000, ECBLOK at 3FFC",
            ecblok_at_end(0),
        ),
    ])
}

// Access exceptions as themselves. DAT is for the second halfword alone.
fn run_second_halfword(bench: &mut Bench<'_, impl Print>) -> io::Result<()> {
    bench.run_each(&[
        (
            "LRA   second halfword not in storage",
            Edge::lra().instruction_at_top(),
        ),
        (
            "LRA   second halfword not in storage, real segment table at 4000",
            Edge::lra().instruction_at_top().word(MICRSEG, 0x01004000),
        ),
        (
            "LRA   second halfword fetch-protected",
            Edge::lra().psw_key_1().key(2, 0x28),
        ),
        (
            "LRA   DAT on, control register 0 bits 8-12 00000",
            Edge::lra().dat_on(0),
        ),
        (
            "LRA   DAT on, second halfword's segment invalid",
            Edge::lra()
                .dat(0x00000010, 0)
                .word(SEGMENT_TABLE, 0xF0003401),
        ),
        (
            "LRA   DAT on, second halfword's page invalid",
            Edge::lra().dat(0x00000018, 0),
        ),
        // The instruction's page is page 2.
        (
            "LRA   DAT on, pages 2K, segments 1M, instruction's page at 1000",
            Edge::lra()
                .dat_on(PAGES_2K_SEGMENTS_1M)
                .word(SEGMENT_TABLE, 0xF0000000 + PAGE_TABLE)
                .halfword(PAGE_TABLE + 2 * 2, 0x0010),
        ),
    ])
}

// Recording, and another first byte.
fn run_others(bench: &mut Bench<'_, impl Print>) -> io::Result<()> {
    bench.run_each(&[
        ("LRA   all keys F3", Edge::lra().all_keys(0xF3)),
        // Only the second halfword is fetched with the PSW key.
        (
            "LRA   PSW key 1, all keys FB but key 2, which is 18",
            Edge::lra().psw_key_1().all_keys(0xFB).key(2, 0x18),
        ),
        // Virtual control register 0 is at 37FA, 1 at 37FE.
        (
            "LRA   virtual control register 1 across a block boundary",
            Edge::lra()
                .word(MICCREG, 0x000037FA)
                .word(0x37F8, 0x00000080)
                .word(0x37FC, 0x00000312)
                .word(0x3800, 0x38400000),
        ),
        (
            "LRA   all keys F3, real page entry of the second walk invalid",
            Edge::lra()
                .all_keys(0xF3)
                .halfword(SECOND_PAGE_ENTRY, 0x0018),
        ),
        ("other first halfword B030", Edge::lra().first(0xB030)),
    ])
}
