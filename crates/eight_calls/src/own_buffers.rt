// Writing calls in buffers of their own: about the lengths of a trailer and of one record, and at trailers that no
// start made.
use crate::recorder::UNUSED;
use crate::show::{Outcome, RECORD_BYTES, TRAILER_BYTES, print_outcome, print_trailer};
use std::io;
use trail::{Entry, RefusedCall};

const ONE_RECORD: usize = RECORD_BYTES + TRAILER_BYTES;

// 128 times it is 2^32.
const WRAPPED: u32 = 33554432;

pub(crate) fn try_own_buffers(rt: &impl Print, last: Entry) -> io::Result<()> {
    try_lengths(rt, last)?;
    try_ceiling(rt, last)?;
    try_other_trailers(rt, last)?;
    try_wrapped(rt, last)?;
    try_more_room(rt, last)
}

fn try_lengths(rt: &impl Print, last: Entry) -> io::Result<()> {
    try_length(rt, &mut [UNUSED; TRAILER_BYTES], last)?;
    try_length(rt, &mut [UNUSED; ONE_RECORD - 1], last)?;
    try_length(rt, &mut [UNUSED; ONE_RECORD], last)
}

fn try_length(rt: &impl Print, buffer: &mut [u8], last: Entry) -> io::Result<()> {
    let outcome = Outcome::of(write_first(buffer, last));
    print!(rt; "{} bytes: ", buffer.len())?;
    print_outcome(rt, outcome, buffer)
}

fn write_first(buffer: &mut [u8], last: Entry) -> Result<u32, RefusedCall> {
    let held = trail::start(buffer)?;
    trail::write(buffer, held, last)
}

// The turned-away number reaches its ceiling, and stays there.
fn try_ceiling(rt: &impl Print, last: Entry) -> io::Result<()> {
    let mut buffer = trailer([0, 0, 0xFFFFFFFE, 1]);
    try_given(rt, "nearly", &mut buffer, last)?;
    try_given(rt, "ceiling", &mut buffer, last)
}

fn try_other_trailers(rt: &impl Print, last: Entry) -> io::Result<()> {
    try_given(rt, "other version", &mut trailer([0, 0, 0, 2]), last)?;
    try_given(rt, "other distance", &mut trailer([0x80, 0, 0, 1]), last)?;
    try_given(rt, "other number", &mut trailer([0, 1, 0, 1]), last)
}

// In what a buffer holds, with no start.
fn try_given(rt: &impl Print, name: &str, buffer: &mut [u8], last: Entry) -> io::Result<()> {
    let outcome = Outcome::of(trail::write(buffer, 0, last));
    print!(rt; "{name}: ")?;
    print_outcome(rt, outcome, buffer)
}

// The trailer at the front has this record number, and would be found if 128 times the number were taken modulo 2^32.
fn try_wrapped(rt: &impl Print, last: Entry) -> io::Result<()> {
    let mut buffer = trailer([0, WRAPPED, 0, 1]);
    let outcome = Outcome::of(trail::write(&mut buffer, WRAPPED, last));
    print!(rt; "wrapped: {outcome}")?;
    print_trailer(rt, &buffer, 0)
}

// Turned away where a byte is wanting, then written with that byte.
fn try_more_room(rt: &impl Print, last: Entry) -> io::Result<()> {
    let mut buffer = [UNUSED; ONE_RECORD];
    _ = write_first(&mut buffer[..ONE_RECORD - 1], last);
    try_given(rt, "more room", &mut buffer, last)
}

fn trailer(words: [u32; 4]) -> [u8; TRAILER_BYTES] {
    let mut bytes = [0; TRAILER_BYTES];
    for (four, word) in bytes.chunks_exact_mut(4).zip(words) {
        four.copy_from_slice(&word.to_be_bytes());
    }
    bytes
}
