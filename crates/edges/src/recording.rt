// Recording, document 02, R-13: reference and change bits. All keys are 00 at first but where an edge has others.
use crate::edge::{EC, Edge};
use crate::places::{MICCREG, MICVPSW, REAL_PAGE_TABLE};
use crate::run::Bench;
use std::io;

pub(crate) fn run_recording(bench: &mut Bench<'_, impl Print>) -> io::Result<()> {
    run_set_storage_key(bench)?;
    run_others(bench)
}

// The page is in frame 000: its lower block has the MICBLOK, its upper block the tables.
fn run_set_storage_key(bench: &mut Bench<'_, impl Print>) -> io::Result<()> {
    let ssk_in_frame_0 = Edge::ssk().page(0x0000);
    bench.run_each(&[
        (
            "SSK   tables in the page's own block",
            ssk_in_frame_0.r2(0x5A023800),
        ),
        ("SSK   MICBLOK in the page's own block", ssk_in_frame_0),
        // The word of page 3 is at FFE; its last two bytes are those of the instruction.
        (
            "SSK   swap word across a block boundary, page in the second block",
            Edge::ssk().word(REAL_PAGE_TABLE - 4, 0x000FE6),
        ),
    ])
}

fn run_others(bench: &mut Bench<'_, impl Print>) -> io::Result<()> {
    bench.run_each(&[
        // Register 15 is at 7FE.
        (
            "STCTL register 15 across a block boundary",
            Edge::stctl(0xFF)
                .word(MICCREG, 0x0007C2)
                .word(0x7FC, 0x0000AFBF)
                .word(0x800, 0xCFDF0000),
        ),
        // The virtual PSW is in block 5.
        (
            "STNSM EC, old 07, AND F8, refused after two fetches, whose reference bits stay",
            Edge::stnsm(0x07, EC, 0xF8)
                .word(MICVPSW, 0x002800)
                .word(0x2800, 0x07080000)
                .key(0, 0xF9)
                .key(5, 0x02),
        ),
        (
            "SSM   virtual PSW partly not in storage records nothing there",
            Edge::ssm(0x04, EC, 0x07).word(MICVPSW, 0x003FFF),
        ),
        (
            "STCTL words in two blocks, the second protected: the store test records nothing",
            Edge::stctl(0x67)
                .operand(0x27FC)
                .psw_key_1()
                .key(2, 0x10)
                .key(4, 0x10)
                .key(5, 0x20),
        ),
    ])
}
