// SET SYSTEM MASK, STORE THEN AND SYSTEM MASK, STORE THEN OR SYSTEM MASK. Where an edge needs the expanded assist, it
// stands with bit 6 of control register 6 both ways (document 02, R-3).
use crate::edge::{BC, EC, Edge};
use crate::places::MICBLOK;
use crate::run::Bench;
use std::fmt::Display;
use std::io;

pub(crate) fn run_system_masks(bench: &mut Bench<'_, impl Print>) -> io::Result<()> {
    run_set(bench)?;
    run_store_then_and(bench)?;
    run_store_then_or(bench)
}

// With the expanded assist installed and without, each with bit 6 of control register 6 both ways.
fn run_four_ways(
    bench: &mut Bench<'_, impl Print>,
    instruction: &str,
    case: &str,
    edge: Edge,
) -> io::Result<()> {
    run_both_ways(
        bench,
        format_args!("{instruction:5} (*) {case}, expanded installed"),
        edge.expanded_installed(),
    )?;
    run_both_ways(
        bench,
        format_args!("{instruction:5} {case}, expanded not installed"),
        edge,
    )
}

fn run_both_ways(
    bench: &mut Bench<'_, impl Print>,
    case: impl Display + Drop,
    edge: Edge,
) -> io::Result<()> {
    bench.run(format_args!("{case}, bit 6 one"), edge.expanded_on())?;
    bench.run(format_args!("{case}, bit 6 zero"), edge)
}

fn run_set(bench: &mut Bench<'_, impl Print>) -> io::Result<()> {
    let ec_07 = Edge::ssm(0x04, EC, 0x07);
    bench.run("SSM   (*) EC, old 04, new 07", ec_07)?;
    run_four_ways(bench, "SSM", "EC, old 04, new 07, pending", ec_07.pending())?;
    let ec_84 = Edge::ssm(0x04, EC, 0x84);
    run_four_ways(bench, "SSM", "EC, old 04, new 84", ec_84)?;
    bench.run(
        "SSM   EC, old 04, new 84, expanded installed, bits 2-5 and 7 one, bit 6 zero",
        ec_84
            .expanded_installed()
            .control_register_6(0xBD000000 + MICBLOK),
    )?;
    bench.run(
        "SSM   (*) BC, pending, old FF, new 00",
        Edge::ssm(0xFF, BC, 0x00).pending(),
    )?;
    let bc_01 = Edge::ssm(0x00, BC, 0x01).pending();
    run_four_ways(bench, "SSM", "BC, pending, old 00, new 01", bc_01)
}

fn run_store_then_and(bench: &mut Bench<'_, impl Print>) -> io::Result<()> {
    bench.run("STNSM (*) EC, old 07, AND FC", Edge::stnsm(0x07, EC, 0xFC))?;
    let ec_f8 = Edge::stnsm(0x07, EC, 0xF8);
    run_four_ways(bench, "STNSM", "EC, old 07, AND F8", ec_f8)?;
    bench.run(
        "STNSM EC, old 07, AND F8, expanded installed, bits 2, 4, 5 and 7 one, bit 6 zero",
        ec_f8
            .expanded_installed()
            .control_register_6(0xAD000000 + MICBLOK),
    )
}

fn run_store_then_or(bench: &mut Bench<'_, impl Print>) -> io::Result<()> {
    bench.run(
        "STOSM (*) EC, pending, old 07, OR 03",
        Edge::stosm(0x07, EC, 0x03).pending(),
    )?;
    bench.run(
        "STOSM (*) BC, pending, old 07, OR 03",
        Edge::stosm(0x07, BC, 0x03).pending(),
    )?;
    run_both_ways(
        bench,
        "STOSM EC, old 07, OR 87, expanded installed",
        Edge::stosm(0x07, EC, 0x87).expanded_installed(),
    )?;
    run_both_ways(
        bench,
        "STOSM BC, pending, old 04, OR 03, expanded installed",
        Edge::stosm(0x04, BC, 0x03).pending().expanded_installed(),
    )
}
