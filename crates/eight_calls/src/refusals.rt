// Calls on the full trail that are refused: at other numbers than the one handed back, and in too few of its bytes.
use crate::recorder::Buffer;
use crate::show::Outcome;
use std::io;
use trail::Entry;

const TOO_FEW: usize = 15;

pub(crate) fn try_refusals(rt: &impl Print, buffer: &mut Buffer, last: Entry) -> io::Result<()> {
    for held in [4, 6, u32::MAX] {
        let outcome = Outcome::of(trail::write(buffer, held, last));
        println!(rt; "given {held}: {outcome}")?;
    }
    let too_few = &mut buffer[..TOO_FEW];
    let written = Outcome::of(trail::write(too_few, 5, last));
    println!(rt; "in 15 bytes: {written}")?;
    let started = Outcome::of(trail::start(too_few));
    println!(rt; "start in 15 bytes: {started}")
}
