// The end of storage, document 02, R-10: what is stored with no test was fetched or consulted before, up to the last
// byte and the last key; one byte on the fetch ends the call. All keys are 00 at first but where an edge has others.
use crate::edge::{EC, Edge};
use crate::places::{LAST_HALFWORD, LAST_WORD, MICVPSW, REAL_PAGE_TABLE};
use crate::run::Bench;
use std::io;

// The swap table whose word of page 3 is the last word of storage.
const LAST_SWAP_TABLE: u32 = LAST_WORD - 8 * 3;

pub(crate) fn run_end_of_storage(bench: &mut Bench<'_, impl Print>) -> io::Result<()> {
    run_virtual_psw(bench)?;
    run_set_storage_key(bench)?;
    run_reset_reference_bit(bench)
}

fn run_virtual_psw(bench: &mut Bench<'_, impl Print>) -> io::Result<()> {
    bench.run_each(&[
        (
            "SSM   virtual PSW in the last halfword of storage",
            last_virtual_psw(Edge::ssm(0x04, EC, 0x07), 0x0408),
        ),
        (
            "STNSM virtual PSW in the last halfword of storage, operand in its second byte",
            last_virtual_psw(Edge::stnsm(0x07, EC, 0xFC), 0x0708).operand(0x3FFF),
        ),
        (
            "STOSM virtual PSW in the last halfword of storage, operand in its second byte",
            last_virtual_psw(Edge::stosm(0x04, EC, 0x03), 0x0408).operand(0x3FFF),
        ),
        (
            "STNSM virtual PSW one byte on, its second byte not in storage",
            Edge::stnsm(0x07, EC, 0xFC)
                .word(MICVPSW, LAST_HALFWORD + 1)
                .word(LAST_WORD, 0x00000007)
                .operand(0x3FFF),
        ),
    ])
}

fn run_set_storage_key(bench: &mut Bench<'_, impl Print>) -> io::Result<()> {
    bench.run_each(&[
        (
            "SSK   swap word in the last word of storage",
            swap_table(Edge::ssk(), LAST_SWAP_TABLE, 0x50112233),
        ),
        (
            "SSK   swap word one byte on, its last byte not in storage",
            swap_table(Edge::ssk(), LAST_SWAP_TABLE + 1, 0x00501122),
        ),
        (
            "SSK   key of the last block, swap word in that block",
            last_frame(swap_table(Edge::ssk(), LAST_SWAP_TABLE, 0x50112233)).r2(0x5A023800),
        ),
        (
            "SSK   invalid page, swap word in the last word of storage",
            swap_table(Edge::ssk(), LAST_SWAP_TABLE, 0x50112233).page(0x0018),
        ),
    ])
}

fn run_reset_reference_bit(bench: &mut Bench<'_, impl Print>) -> io::Result<()> {
    bench.run_each(&[
        (
            "RRB   key of the last block, swap word in that block",
            last_frame(swap_table(Edge::rrb(0xFB, 0x50C3FDFF), LAST_SWAP_TABLE, 0x50C3FFFD))
                .operand(0x023800)
                .key(7, 0xFF),
        ),
        (
            "RRB   swap word one byte on, its last byte not in storage",
            swap_table(Edge::rrb(0xFB, 0x50C3FDFF), LAST_SWAP_TABLE + 1, 0x0050C3FD),
        ),
    ])
}

fn last_virtual_psw(edge: Edge, halfword: u16) -> Edge {
    edge.word(MICVPSW, LAST_HALFWORD)
        .halfword(LAST_HALFWORD, halfword)
}

// The swap table at this address, and the last word of storage.
fn swap_table(edge: Edge, address: u32, last_word: u32) -> Edge {
    edge.word(REAL_PAGE_TABLE - 4, address)
        .word(LAST_WORD, last_word)
}

// The page in frame 003: its upper block is the last one.
fn last_frame(edge: Edge) -> Edge {
    edge.page(0x0030)
}
