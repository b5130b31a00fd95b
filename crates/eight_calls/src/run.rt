// The trail is started, and each call is made and written down; a line is printed for each.
use crate::calls::{GuestCall, calls};
use crate::machine::Machine;
use crate::recorder::Recorder;
use crate::show::{print_entry, print_outcome};
use std::io;
use trail::Entry;

pub(crate) fn start(rt: &impl Print, recorder: &mut Recorder) -> io::Result<()> {
    let outcome = recorder.start();
    print!(rt; "start: ")?;
    print_outcome(rt, outcome, &recorder.buffer)
}

// The answer is what is written down of the last call.
pub(crate) fn run_calls(
    rt: &impl Print,
    machine: &mut Machine,
    recorder: &mut Recorder,
) -> io::Result<Entry> {
    // the first by itself, so that there is a last in any case
    let calls = calls();
    let mut last = run(rt, machine, recorder, 1, calls[0])?;
    for (number, call) in (2..).zip(&calls[1..]) {
        last = run(rt, machine, recorder, number, *call)?;
    }
    Ok(last)
}

fn run(
    rt: &impl Print,
    machine: &mut Machine,
    recorder: &mut Recorder,
    number: usize,
    made: GuestCall,
) -> io::Result<Entry> {
    let answer = machine.attempt(made.call);
    let entry = Entry::of(made.guest_number, made.call, answer);
    let outcome = recorder.write(entry);
    print!(rt; "call {number}")?;
    print_entry(rt, entry)?;
    print_outcome(rt, outcome, &recorder.buffer)?;
    Ok(entry)
}
