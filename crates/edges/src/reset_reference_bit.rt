// RESET REFERENCE BIT.
use crate::common_edges::{run_control_register_6, run_missing_fields};
use crate::edge::Edge;
use crate::places::{MICRSEG, REAL_SEGMENT_TABLE};
use crate::run::Bench;
use std::io;

pub(crate) fn run_reset_reference_bit(bench: &mut Bench<'_, impl Print>) -> io::Result<()> {
    run_codes(bench)?;
    run_other_codes(bench)?;
    run_missing_fields(bench, "RRB", usual())?;
    run_second_halfword(bench)?;
    run_control_register_6(bench, "RRB", usual(), &[0b1010, 0b1001, 0b1100])?;
    run_others(bench)
}

// Each condition code, by the key and by the swap word: of the lower block, then of the upper one.
fn run_codes(bench: &mut Bench<'_, impl Print>) -> io::Result<()> {
    let lower = [
        (0xF9, 0x50C3F9FF),
        (0xFB, 0x50C3F9FF),
        (0xFD, 0x50C3F9FF),
        (0xFF, 0x50C3F9FF),
        (0xF9, 0x50C3FBFF),
        (0xF9, 0x50C3FDFF),
        (0xF9, 0x50C3FFFF),
        (0xFB, 0x50C3FDFF),
        (0xFD, 0x50C3FBFF),
    ];
    for (key, swap) in lower {
        bench.run(
            format_args!("RRB   key {key:02X}, swap word {swap:08X}, bit 20 zero"),
            Edge::rrb(key, swap),
        )?;
    }
    let upper = [
        (0xF9, 0x50C3FFF9),
        (0xFB, 0x50C3FFF9),
        (0xFD, 0x50C3FFF9),
        (0xFF, 0x50C3FFF9),
        (0xF9, 0x50C3FFFF),
    ];
    for (key, swap) in upper {
        bench.run(
            format_args!("RRB   key {key:02X}, swap word {swap:08X}, bit 20 one"),
            Edge::rrb_upper(key, swap),
        )?;
    }
    Ok(())
}

// An invalid page, both keys FF.
fn invalid(edge: Edge) -> Edge {
    edge.page(0x0028).key(4, 0xFF).key(5, 0xFF)
}

fn run_other_codes(bench: &mut Bench<'_, impl Print>) -> io::Result<()> {
    bench.run_each(&[
        (
            "RRB   key F9, swap word 5FC3F9F9, bit 20 zero",
            Edge::rrb(0xF9, 0x5FC3F9F9),
        ),
        (
            "RRB   page invalid, swap word 50C3FFFF, bit 20 zero",
            invalid(Edge::rrb(0xFF, 0x50C3FFFF)),
        ),
        (
            "RRB   page invalid, swap word 50C3FFFF, bit 20 one",
            invalid(Edge::rrb_upper(0xFF, 0x50C3FFFF)),
        ),
        (
            "RRB   page invalid, swap word 5FC3F9F9, bit 20 one",
            invalid(Edge::rrb_upper(0xFF, 0x5FC3F9F9)),
        ),
        (
            "RRB   operand 023FFF",
            Edge::rrb_upper(0xFB, 0x50C3FFFD).operand(0x023FFF),
        ),
    ])
}

fn usual() -> Edge {
    Edge::rrb(0xFB, 0x50C3FDFF)
}

fn run_second_halfword(bench: &mut Bench<'_, impl Print>) -> io::Result<()> {
    bench.run_each(&[
        (
            "RRB   second halfword not in storage",
            usual().instruction_at_top(),
        ),
        (
            "RRB   second halfword fetch-protected",
            usual().psw_key_1().key(2, 0x28),
        ),
        (
            "RRB   second halfword's page invalid",
            usual().instruction_not_mapped(),
        ),
        (
            "RRB   second halfword not in storage, MICRSEG bit 30 one",
            usual()
                .instruction_at_top()
                .word(MICRSEG, REAL_SEGMENT_TABLE + 2),
        ),
        (
            "RRB   second halfword not in storage, segment table at 4000",
            usual().instruction_at_top().word(MICRSEG, 0x00004000),
        ),
    ])
}

// Recording, DAT, and B2 with another second byte.
fn run_others(bench: &mut Bench<'_, impl Print>) -> io::Result<()> {
    bench.run_each(&[
        // The second halfword's fetch is recorded before the key is read.
        (
            "RRB   instruction in the page's own block",
            Edge::rrb(0x00, 0x50C3F9FF).page(0x0010).key(2, 0xF9),
        ),
        // And the swap word's store after the key is set.
        (
            "RRB   tables in the page's own block",
            Edge::rrb_upper(0x00, 0x50C3FFF9).page(0x0000).key(1, 0xF9),
        ),
        (
            "RRB   DAT on, instruction's page in frame 001",
            usual().dat(0x00000010, 0x00200000),
        ),
        ("other first halfword B212", usual().first(0xB212)),
        ("other first halfword B214", usual().first(0xB214)),
    ])
}
