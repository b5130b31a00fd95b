// Makes eight calls on one machine and writes each down in a trail, then tries the trail's edges with what is written
// down of the last call. It prints a line for each, and the trail's buffer; `second trail` writes the lines that must
// come.
#![tactic(auto)]

use crate::machine::Machine;
use crate::own_buffers::try_own_buffers;
use crate::recorder::Recorder;
use crate::refusals::try_refusals;
use crate::run::{run_calls, start};
use crate::show::print_buffer;
use std::io;

mod calls;
mod machine;
mod own_buffers;
mod recorder;
mod refusals;
mod run;
mod show;

fn main(rt: HostRuntime) -> io::Result<()> {
    let mut machine = Machine::new();
    let mut recorder = Recorder::new();
    start(&rt, &mut recorder)?;
    let last = run_calls(&rt, &mut machine, &mut recorder)?;
    try_refusals(&rt, &mut recorder.buffer, last)?;
    try_own_buffers(&rt, last)?;
    print_buffer(&rt, &recorder.buffer)
}
