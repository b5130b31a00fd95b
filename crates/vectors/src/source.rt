// The input, line by line, and the checksum on the way.
use crate::lines::{self, Kind, LONGEST, Line};
use crate::trouble::{Stop, Trouble};
use std::io::{ErrorKind, Read};

#[derive(Drop)]
pub(crate) struct Source<R: Read> {
    input: R,
    // the line that is being read, from 1
    pub(crate) line: u64,
    // the checksum's register
    sum: u32,
}

impl<R: Read> Source<R> {
    pub(crate) fn new(input: R) -> Source<R> {
        Source {
            input,
            line: 0,
            sum: checksum::START,
        }
    }

    // The next line, whose text after the first character is put into `text`.
    pub(crate) fn next<'t>(&mut self, text: &'t mut [u8; LONGEST]) -> Result<Line<'t>, Stop> {
        let first = self.first()?;
        self.sum = checksum::over(self.sum, &[first]);
        let kind = Kind::try_from(first)?;
        let rest = &mut text[..kind.length()];
        self.fill(rest)?;
        let line = lines::parse(kind, rest)?;
        let covered = kind.covered().min(rest.len());
        self.sum = checksum::over(self.sum, &rest[..covered]);
        Ok(line)
    }

    // The checksum is that of the text since the last one; the next begins anew.
    pub(crate) fn check(&mut self, sum: u32) -> Result<(), Trouble> {
        if sum != checksum::finish(self.sum) {
            return Err(Trouble::Checksum);
        }
        self.sum = checksum::START;
        Ok(())
    }

    // After the end nothing follows.
    pub(crate) fn end(&mut self) -> Result<(), Stop> {
        match self.first() {
            Ok(_) => Err(Stop::Trouble(Trouble::After)),
            Err(Stop::Trouble(Trouble::Ends)) => Ok(()),
            Err(stop) => Err(stop),
        }
    }

    // The first character of the next line.
    fn first(&mut self) -> Result<u8, Stop> {
        self.line = self.line.wrapping_add(1);
        let mut first = [0u8];
        self.fill(&mut first)?;
        Ok(first[0])
    }

    // Fills the text from the input.
    fn fill(&mut self, text: &mut [u8]) -> Result<(), Stop> {
        match self.input.read_exact(text) {
            Ok(()) => Ok(()),
            Err(e) if e.kind() == ErrorKind::UnexpectedEof => Err(Stop::Trouble(Trouble::Ends)),
            Err(e) => Err(Stop::Io(e)),
        }
    }
}
