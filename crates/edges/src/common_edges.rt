// Edges that several instructions have.
use crate::edge::Edge;
use crate::places::{LAST_WORD, MICBLOK, MICRSEG, REAL_PAGE_TABLE, REAL_SEGMENT_TABLE, SWAP_TABLE};
use crate::run::Bench;
use std::io;

// A field of the control program that is not in storage, or the page's key block: of ISK and of RRB.
pub(crate) fn run_missing_fields(
    bench: &mut Bench<'_, impl Print>,
    instruction: &str,
    edge: Edge,
) -> io::Result<()> {
    let edges = [
        ("MICBLOK at 4000", edge.control_register_6(0x80004000)),
        ("segment table at 4000", edge.word(MICRSEG, 0x00004000)),
        (
            "page table at 0, the swap table's address at FFFFFC",
            edge.word(REAL_SEGMENT_TABLE + 4 * 2, 0xF0000000),
        ),
        (
            "swap word at 3FFF",
            edge.word(REAL_PAGE_TABLE - 4, 0x00003FE7),
        ),
        (
            "page table at 4000",
            edge.word(REAL_SEGMENT_TABLE + 4 * 2, 0xF0004000)
                .word(LAST_WORD, SWAP_TABLE),
        ),
        ("page in frame 0FF", edge.page(0x0FF0)),
    ];
    for (case, edge) in edges {
        bench.run(format_args!("{instruction:5} {case}"), edge)?;
    }
    Ok(())
}

// Control register 6 with other bits 0-3 than the usual 1000.
pub(crate) fn run_control_register_6(
    bench: &mut Bench<'_, impl Print>,
    instruction: &str,
    edge: Edge,
    others: &[u32],
) -> io::Result<()> {
    for bits in others {
        bench.run(
            format_args!("{instruction:5} control register 6 bits 0-3 {bits:04b}"),
            edge.control_register_6(*bits << 28 | MICBLOK),
        )?;
    }
    Ok(())
}
