// LOAD REAL ADDRESS: condition codes in each format. Set-ups as in `load_real_address`.
use crate::edge::Edge;
use crate::places::{
    ECBLOK, MICRSEG, VIRTUAL_PAGE_ENTRY, VIRTUAL_PAGE_ENTRY_1M, VIRTUAL_PAGE_ENTRY_2K,
    VIRTUAL_PAGE_ENTRY_2K_1M, VIRTUAL_SEGMENT_ENTRY, VIRTUAL_SEGMENT_ENTRY_1M,
    VIRTUAL_SEGMENT_TABLE,
};
use crate::registers::{
    MICRSEG_2K, MICRSEG_4K, PAGES_2K_SEGMENTS_1M, PAGES_2K_SEGMENTS_64K, PAGES_4K_SEGMENTS_1M,
    PAGES_4K_SEGMENTS_64K,
};
use crate::run::Bench;
use std::io;

pub(crate) fn run_load_address_formats(bench: &mut Bench<'_, impl Print>) -> io::Result<()> {
    for (real_pages, rseg) in [("4K", MICRSEG_4K), ("2K", MICRSEG_2K)] {
        for format in VIRTUAL_FORMATS {
            run_format(bench, format, real_pages, rseg)?;
        }
    }
    Ok(())
}

// A virtual format: virtual control register 0, the places of its entries, and what an edge puts there.
#[derive(Clone, Copy)]
struct VirtualFormat {
    name: &'static str,
    register_0: u32,
    segment_entry: u32,
    segment_invalid: u32,
    // its page table is too short by one
    segment_short: u32,
    short: &'static str,
    page_entry: u32,
    page_invalid: u16,
}

const VIRTUAL_FORMATS: [VirtualFormat; 4] = [
    VirtualFormat {
        name: "pages 2K, segments 64K",
        register_0: PAGES_2K_SEGMENTS_64K,
        segment_entry: VIRTUAL_SEGMENT_ENTRY,
        segment_invalid: 0x50056D09,
        segment_short: 0x40056D08,
        short: "page-table length 4",
        page_entry: VIRTUAL_PAGE_ENTRY_2K,
        page_invalid: 0x567C,
    },
    VirtualFormat {
        name: "pages 2K, segments 1M",
        register_0: PAGES_2K_SEGMENTS_1M,
        segment_entry: VIRTUAL_SEGMENT_ENTRY_1M,
        segment_invalid: 0x40056D09,
        segment_short: 0x30056D08,
        short: "page-table length 3",
        page_entry: VIRTUAL_PAGE_ENTRY_2K_1M,
        page_invalid: 0x9AB4,
    },
    VirtualFormat {
        name: "pages 4K, segments 64K",
        register_0: PAGES_4K_SEGMENTS_64K,
        segment_entry: VIRTUAL_SEGMENT_ENTRY,
        segment_invalid: 0x50056D09,
        segment_short: 0x40056D08,
        short: "page-table length 4",
        page_entry: VIRTUAL_PAGE_ENTRY,
        page_invalid: 0xABC8,
    },
    VirtualFormat {
        name: "pages 4K, segments 1M",
        register_0: PAGES_4K_SEGMENTS_1M,
        segment_entry: VIRTUAL_SEGMENT_ENTRY_1M,
        segment_invalid: 0x40056D09,
        segment_short: 0x30056D08,
        short: "page-table length 3",
        page_entry: VIRTUAL_PAGE_ENTRY_1M,
        page_invalid: 0x1238,
    },
];

// Five edges; a call that sets condition code 1 finds 2. `rseg` is MICRSEG, which chooses the real format.
fn run_format(
    bench: &mut Bench<'_, impl Print>,
    format: VirtualFormat,
    real_pages: &str,
    rseg: u32,
) -> io::Result<()> {
    let name = format.name;
    let valid = Edge::lra()
        .word(ECBLOK, format.register_0)
        .word(MICRSEG, rseg);
    bench.run(
        format_args!("LRA   virtual {name}, real pages {real_pages}"),
        valid,
    )?;
    let edges = [
        (
            "segment entry invalid",
            valid
                .word(format.segment_entry, format.segment_invalid)
                .condition_code(2),
        ),
        (
            "page entry invalid",
            valid.halfword(format.page_entry, format.page_invalid),
        ),
        (
            "segment-table length 02",
            valid.word(ECBLOK + 4, 0x02000000 + VIRTUAL_SEGMENT_TABLE),
        ),
        (
            format.short,
            valid.word(format.segment_entry, format.segment_short),
        ),
    ];
    for (case, edge) in edges {
        bench.run(
            format_args!("LRA   virtual {name}, real pages {real_pages}, {case}"),
            edge,
        )?;
    }
    Ok(())
}
