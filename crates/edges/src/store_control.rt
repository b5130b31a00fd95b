// STORE CONTROL.
use crate::edge::Edge;
use crate::run::Bench;
use std::io;

pub(crate) fn run_store_control(bench: &mut Bench<'_, impl Print>) -> io::Result<()> {
    bench.run_each(&[
        (
            "STCTL (*) R1=14, R3=1: registers 14, 15, 0, 1",
            Edge::stctl(0xE1),
        ),
        ("STCTL (*) R1=R3=5: one register", Edge::stctl(0x55)),
        ("STCTL (*) R1=1, R3=0: sixteen registers", Edge::stctl(0x10)),
        (
            "STCTL operand 3FFFFC, two registers, 4 MiB: second word not in storage",
            Edge::stctl(0x67).size(0x400000).operand(0x3FFFFC),
        ),
    ])
}
