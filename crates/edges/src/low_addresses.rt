// Low-address protection, document 02, R-6: bit 3 of control register 0. All keys are 00, and the PSW key is zero.
use crate::edge::{EC, Edge};
use crate::places::REAL_PAGE_TABLE;
use crate::run::Bench;
use std::io;

pub(crate) fn run_low_addresses(bench: &mut Bench<'_, impl Print>) -> io::Result<()> {
    run_bytes(bench)?;
    run_words(bench)?;
    run_order(bench)?;
    run_translated(bench)
}

// A name for each, a line each: see `Edge::stnsm`.
fn stnsm() -> Edge {
    Edge::stnsm(0x07, EC, 0xFC)
}

fn stosm() -> Edge {
    Edge::stosm(0x07, EC, 0x03)
}

// Where the store of a byte is protected, and where it isn't.
fn run_bytes(bench: &mut Bench<'_, impl Print>) -> io::Result<()> {
    bench.run_each(&[
        (
            "STNSM operand 1FF (511), bit 3 zero: stored",
            stnsm().operand(0x1FF),
        ),
        (
            "STNSM operand 1FF (511), bit 3 one: protection",
            stnsm().operand(0x1FF).low_address_protection(),
        ),
        (
            "STNSM operand 200 (512), bit 3 one: stored",
            stnsm().operand(0x200).low_address_protection(),
        ),
        (
            "STOSM operand 000, bit 3 zero: stored",
            stosm().operand(0x000),
        ),
        (
            "STOSM operand 000, bit 3 one: protection",
            stosm().operand(0x000).low_address_protection(),
        ),
        (
            "STOSM operand 200 (512), bit 3 one: stored",
            stosm().operand(0x200).low_address_protection(),
        ),
    ])
}

// The same of words.
fn run_words(bench: &mut Bench<'_, impl Print>) -> io::Result<()> {
    bench.run_each(&[
        (
            "STCTL word at 1FC (508), bit 3 zero: stored",
            Edge::stctl(0x55).operand(0x1FC),
        ),
        (
            "STCTL word at 1FC (508), bit 3 one: protection",
            Edge::stctl(0x55).operand(0x1FC).low_address_protection(),
        ),
        (
            "STCTL word at 200 (512), bit 3 one: stored",
            Edge::stctl(0x55).operand(0x200).low_address_protection(),
        ),
        (
            "STCTL operand 1FE (510), not on a word, bit 3 one: refused by step 4",
            Edge::stctl(0x55).operand(0x1FE).low_address_protection(),
        ),
        (
            "STCTL words at 1FC and 200, bit 3 one: neither stored",
            Edge::stctl(0x67).operand(0x1FC).low_address_protection(),
        ),
        (
            "STCTL word at 1FC (508), every bit of control register 0 but bit 3 one: stored",
            Edge::stctl(0x55)
                .operand(0x1FC)
                .control_register_0(0xEFFFFFFF),
        ),
    ])
}

// What comes before it; and that control fields, fetches and real addresses are not affected.
fn run_order(bench: &mut Bench<'_, impl Print>) -> io::Result<()> {
    bench.run_each(&[
        (
            "STNSM operand 1FF (511), bit 3 one, AND F8: step 4 comes first",
            Edge::stnsm(0x07, EC, 0xF8)
                .operand(0x1FF)
                .low_address_protection(),
        ),
        (
            "STNSM virtual PSW at 100, bit 3 one: both bytes stored",
            stnsm().virtual_psw_at_100(0x0708).low_address_protection(),
        ),
        (
            "SSM   operand 1FF and virtual PSW at 100, bit 3 one: fetched and stored",
            Edge::ssm(0x04, EC, 0x07)
                .virtual_psw_at_100(0x0408)
                .word(0x1FC, 0x00000007)
                .operand(0x1FF)
                .low_address_protection(),
        ),
        // The word of page 3.
        (
            "SSK   swap word at 118, bit 3 one: stored",
            Edge::ssk()
                .word(REAL_PAGE_TABLE - 4, 0x000100)
                .low_address_protection(),
        ),
    ])
}

// With DAT on. The instruction's page 1 is in frame 001.
fn run_translated(bench: &mut Bench<'_, impl Print>) -> io::Result<()> {
    bench.run_each(&[
        (
            "STNSM DAT on, operand 1FF, page invalid, bit 3 zero: page translation",
            stnsm().operand(0x1FF).dat(0x00080010, 0),
        ),
        (
            "STNSM DAT on, operand 1FF, page invalid, bit 3 one: protection comes first",
            stnsm()
                .operand(0x1FF)
                .dat(0x00080010, 0)
                .low_address_protection(),
        ),
        (
            "STNSM DAT on, operand 1FF in frame 002, bit 3 zero: stored at 21FF",
            stnsm().operand(0x1FF).dat(0x00200010, 0),
        ),
        (
            "STNSM DAT on, operand 1FF in frame 002, bit 3 one: protection",
            stnsm()
                .operand(0x1FF)
                .dat(0x00200010, 0)
                .low_address_protection(),
        ),
        (
            "STNSM DAT on, operand 21FF in frame 000, bit 3 one: stored at 1FF",
            stnsm()
                .operand(0x21FF)
                .dat(0x00080010, 0)
                .low_address_protection(),
        ),
    ])
}
