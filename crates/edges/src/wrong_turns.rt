// "Wrong turns to shut out": calls at which the wrong program would give something else.
use crate::edge::{BC, EC, Edge};
use crate::places::{MICVPSW, VIRTUAL_PSW};
use crate::run::Bench;
use std::io;

pub(crate) fn run_wrong_turns(bench: &mut Bench<'_, impl Print>) -> io::Result<()> {
    run_pending_bit(bench)?;
    run_last_word(bench)?;
    run_second_halfword(bench)?;
    run_operand_in_virtual_psw(bench)
}

// MICVPSW 80000600, and FF000600 with bits 1-7 one as well: the address is 000600 all the same.
fn run_pending_bit(bench: &mut Bench<'_, impl Print>) -> io::Result<()> {
    bench.run_each(&[
        (
            "SSM   wrong turn 1: pending bit is no part of the address",
            Edge::ssm(0x07, EC, 0x04).pending(),
        ),
        (
            "SSM   wrong turn 1: MICVPSW bits 0-7 are no part of the address",
            Edge::ssm(0x07, EC, 0x04).word(MICVPSW, 0xFF000000 + VIRTUAL_PSW),
        ),
        (
            "STNSM wrong turn 1: pending bit is no part of the address",
            Edge::stnsm(0x07, EC, 0xFC).pending(),
        ),
        (
            "STOSM wrong turn 1: pending bit is no part of the address",
            Edge::stosm(0x07, EC, 0x04).pending(),
        ),
    ])
}

// The first word can be stored, the last cannot: nothing is stored.
fn run_last_word(bench: &mut Bench<'_, impl Print>) -> io::Result<()> {
    bench.run_each(&[
        (
            "STCTL wrong turn 2: last of three words protected, nothing stored",
            Edge::stctl(0x35)
                .operand(0x27F8)
                .psw_key_1()
                .key(4, 0x10)
                .key(5, 0x20),
        ),
        (
            "STCTL wrong turn 2: last of three words not in storage, nothing stored",
            Edge::stctl(0x35).operand(0x3FF8),
        ),
    ])
}

// STNSM and STOSM refuse where STCTL and SSM report the exception as itself.
fn run_second_halfword(bench: &mut Bench<'_, impl Print>) -> io::Result<()> {
    bench.run_each(&[
        (
            "STNSM wrong turn 3: second halfword not in storage, refuse",
            Edge::stnsm(0x07, EC, 0xFC).instruction_at_top(),
        ),
        (
            "STNSM wrong turn 3: second halfword fetch-protected, refuse",
            Edge::stnsm(0x07, EC, 0xFC).instruction_fetch_protected(),
        ),
        (
            "STNSM wrong turn 3: second halfword page invalid, refuse",
            Edge::stnsm(0x07, EC, 0xFC).instruction_not_mapped(),
        ),
        (
            "STOSM wrong turn 3: second halfword not in storage, refuse even with expanded",
            Edge::stosm(0x07, EC, 0x03)
                .instruction_at_top()
                .expanded_installed()
                .expanded_on(),
        ),
        (
            "STOSM wrong turn 3: second halfword fetch-protected, refuse",
            Edge::stosm(0x07, EC, 0x03).instruction_fetch_protected(),
        ),
        (
            "STOSM wrong turn 3: second halfword page invalid, refuse",
            Edge::stosm(0x07, EC, 0x03).instruction_not_mapped(),
        ),
        (
            "STCTL beside wrong turn 3: second halfword not in storage, as itself",
            Edge::stctl(0x55).instruction_at_top(),
        ),
        (
            "SSM   beside wrong turn 3: second halfword not in storage, as itself",
            Edge::ssm(0x04, EC, 0x07).instruction_at_top(),
        ),
    ])
}

// The operand is the second byte of the virtual PSW, or its first.
fn run_operand_in_virtual_psw(bench: &mut Bench<'_, impl Print>) -> io::Result<()> {
    bench.run_each(&[
        (
            "STNSM wrong turn 4: operand is second byte of virtual PSW",
            Edge::stnsm(0x07, EC, 0xFC).operand(VIRTUAL_PSW + 1),
        ),
        (
            "STOSM wrong turn 4: operand is second byte of virtual PSW",
            Edge::stosm(0x04, BC, 0x83).operand(VIRTUAL_PSW + 1),
        ),
        (
            "STNSM operand is first byte of virtual PSW, new byte stays",
            Edge::stnsm(0x07, EC, 0xFC).operand(VIRTUAL_PSW),
        ),
        (
            "STOSM operand is first byte of virtual PSW, new byte stays",
            Edge::stosm(0x04, BC, 0x83).operand(VIRTUAL_PSW),
        ),
        (
            "SSM   BC, operand is second byte of virtual PSW, only byte 0 stored",
            Edge::ssm(0x04, 0x55, 0x00).operand(VIRTUAL_PSW + 1),
        ),
    ])
}
