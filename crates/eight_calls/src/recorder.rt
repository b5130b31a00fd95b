// A trail's buffer, with the number of records held, which is given with each call and is what the call hands back.
use crate::show::Outcome;
use trail::Entry;

// Room for five records, the trailer after them, and 24 bytes more.
const BUFFER_BYTES: usize = 680;

pub(crate) type Buffer = [u8; BUFFER_BYTES];

// Each byte of a buffer before the start.
pub(crate) const UNUSED: u8 = 0xEE;

#[derive(Drop)]
pub(crate) struct Recorder {
    pub(crate) buffer: Buffer,
    held: u32,
}

impl Recorder {
    pub(crate) fn new() -> Recorder {
        Recorder {
            buffer: [UNUSED; BUFFER_BYTES],
            held: 0,
        }
    }

    pub(crate) fn start(&mut self) -> Outcome {
        let outcome = Outcome::of(trail::start(&mut self.buffer));
        self.held = outcome.held();
        outcome
    }

    pub(crate) fn write(&mut self, entry: Entry) -> Outcome {
        let outcome = Outcome::of(trail::write(&mut self.buffer, self.held, entry));
        self.held = outcome.held();
        outcome
    }
}
