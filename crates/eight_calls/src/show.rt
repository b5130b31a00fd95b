// Parts of the lines.
use std::{fmt, io};
use trail::{Entry, RefusedCall};

pub(crate) const RECORD_BYTES: usize = 128;

pub(crate) const TRAILER_BYTES: usize = 16;

const LINE_BYTES: usize = 32;

// What a call on a trail answers. Printed are the refusal's number, 0 where there is none, and the number of records
// held that it hands back.
#[derive(Clone, Copy)]
pub(crate) struct Outcome {
    answer: Result<u32, RefusedCall>,
}

impl Outcome {
    pub(crate) fn of(answer: Result<u32, RefusedCall>) -> Outcome {
        Outcome { answer }
    }

    pub(crate) fn held(self) -> u32 {
        trail::held(self.answer)
    }
}

impl fmt::Display for Outcome {
    fn fmt<W: fmt::Write>(&self, f: &mut fmt::Formatter<W>) -> fmt::Result {
        let number = trail::refusal_number(self.answer);
        write!(f, "refusal {number}, held {}", self.held())
    }
}

// Bytes as words of four, each after a space.
#[derive(Clone, Copy)]
struct Words<'a> {
    bytes: &'a [u8],
}

impl fmt::Display for Words<'_> {
    fn fmt<W: fmt::Write>(&self, f: &mut fmt::Formatter<W>) -> fmt::Result {
        for word in self.bytes.chunks(4) {
            f.write_str(" ")?;
            for byte in word {
                write!(f, "{byte:02X}")?;
            }
        }
        Ok(())
    }
}

pub(crate) fn print_entry(rt: &impl Print, entry: Entry) -> io::Result<()> {
    print!(rt; ", guest {}, {:04X}: ", entry.number, entry.call.first)?;
    print!(rt;
        "ending {}, code {}, count {}, ",
        entry.ending, entry.code, entry.count
    )?;
    print!(rt;
        "next {:06X}, translation {:06X}; ",
        entry.next, entry.translation
    )
}

// The trailer after so many records, if the buffer is long enough to hold it there.
pub(crate) fn print_trailer(rt: &impl Print, buffer: &[u8], held: u32) -> io::Result<()> {
    let from = RECORD_BYTES * held as usize;
    print!(rt; ", trailer")?;
    if let Some(bytes) = buffer.get(from..from + TRAILER_BYTES) {
        print!(rt; "{}", Words { bytes })?;
    }
    println!(rt;)
}

// With the trailer that the number handed back points at.
pub(crate) fn print_outcome(rt: &impl Print, outcome: Outcome, buffer: &[u8]) -> io::Result<()> {
    print!(rt; "{outcome}")?;
    print_trailer(rt, buffer, outcome.held())
}

// The last line has what is left.
pub(crate) fn print_buffer(rt: &impl Print, buffer: &[u8]) -> io::Result<()> {
    for (i, bytes) in buffer.chunks(LINE_BYTES).enumerate() {
        println!(rt; "{:06X}:{}", LINE_BYTES * i, Words { bytes })?;
    }
    Ok(())
}
