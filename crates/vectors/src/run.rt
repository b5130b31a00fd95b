// A run: what each line of the input does.
use crate::lines::{LONGEST, Line};
use crate::machine::Machine;
use crate::report;
use crate::source::Source;
use crate::trouble::{Stop, Trouble};
use std::io;
use std::io::Read;
use std::ops::ControlFlow;

#[derive(Drop)]
struct Run<'a, R: Read> {
    source: Source<R>,
    machine: Machine<'a>,
}

// The lines one after the other, up to the end or to the first that is not of its form.
pub(crate) fn play(
    rt: &(impl Input + Print),
    storage: &mut [u8],
    keys: &mut [u8],
) -> io::Result<()> {
    let mut run = Run {
        source: Source::new(rt.reader()),
        machine: Machine::new(storage, keys),
    };
    let stopped = run.to_end(rt);
    let line = run.source.line;
    match stopped {
        Ok(()) => Ok(()),
        Err(Stop::Trouble(trouble)) => println!(rt; "stopped at line {line}: {trouble}"),
        Err(Stop::Io(e)) => Err(e),
    }
}

impl<'a, R: Read> Run<'a, R> {
    // A proved loop has to end, and nothing says that the input does, so the turns are counted up to a number that no
    // run reaches.
    fn to_end(&mut self, rt: &impl Print) -> Result<(), Stop> {
        for _ in 0..u64::MAX {
            if self.step(rt)?.is_break() {
                self.source.end()?;
                let calls = self.machine.calls;
                println!(rt; "{calls} calls")?;
                return Ok(());
            }
        }
        Ok(())
    }

    // One line of the input, and what it does. The last breaks off the run.
    fn step(&mut self, rt: &impl Print) -> Result<ControlFlow<()>, Stop> {
        // a line's text, in as many bytes as the longest has: there is no heap
        let mut text = [0u8; LONGEST];
        let Run { source, machine } = self;
        match source.next(&mut text)? {
            Line::Comment(text) => {
                rt.write_all(b"#")?;
                rt.write_all(text)?;
            }
            Line::Storage { size, keys } => {
                machine.storage.give(size)?;
                machine.keys.give(keys)?;
            }
            Line::Word { address, word } => machine.storage.put(address, &word.to_be_bytes())?,
            Line::Byte { address, byte } => machine.storage.put(address, &[byte])?,
            Line::Keys { number, keys } => machine.keys.put(number, &keys.to_be_bytes())?,
            Line::Key { number, key } => machine.keys.put(number, &[key])?,
            Line::Record(guest) => machine.guest = Some(guest),
            Line::Call {
                first,
                installed,
                sum,
            } => {
                source.check(sum)?;
                let (answer, after) = machine.attempt(first, installed)?;
                report::answer(rt, machine.calls, answer, after)?;
            }
            Line::End { calls, sum } => {
                source.check(sum)?;
                if calls != machine.calls {
                    return Err(Stop::Trouble(Trouble::Calls));
                }
                return Ok(ControlFlow::Break(()));
            }
        }
        Ok(ControlFlow::Continue(()))
    }
}
