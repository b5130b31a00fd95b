// SET STORAGE KEY.
use crate::edge::Edge;
use crate::run::Bench;
use std::io;

pub(crate) fn run_set_storage_key(bench: &mut Bench<'_, impl Print>) -> io::Result<()> {
    bench.run_each(&[
        (
            "SSK   (*) R1 3F, swap word 0, old key 04, valid page, bit 20 zero",
            Edge::ssk().key(2, 0x04),
        ),
        (
            "SSK   (*) R1 3F, swap word 0, old key 04, valid page, bit 20 one",
            Edge::ssk().r2(0x00023800).key(3, 0x04),
        ),
    ])
}
