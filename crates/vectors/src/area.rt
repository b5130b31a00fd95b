// The bytes of a storage, or its keys.
use crate::trouble::Trouble;

// An array that has room for them, since there is no heap: its first bytes are those that are there, once a line has
// given their number.
#[derive(Drop)]
pub(crate) struct Area<'a> {
    room: &'a mut [u8],
    given: Option<usize>,
}

impl<'a> Area<'a> {
    pub(crate) fn new(room: &'a mut [u8]) -> Area<'a> {
        Area { room, given: None }
    }

    // So many bytes, all zero.
    pub(crate) fn give(&mut self, count: u32) -> Result<(), Trouble> {
        // by `as`, here and in `put`: no `From` makes a `usize` of a `u32`
        let count = count as usize;
        let bytes = self.room.get_mut(..count).ok_or(Trouble::Room)?;
        bytes.fill(0);
        self.given = Some(count);
        Ok(())
    }

    // The bytes that are there.
    pub(crate) fn bytes(&mut self) -> Option<&mut [u8]> {
        let count = self.given?;
        self.room.get_mut(..count)
    }

    // Puts these bytes from place `at` on, where all their places are there.
    pub(crate) fn put(&mut self, at: u32, bytes: &[u8]) -> Result<(), Trouble> {
        let start = at as usize;
        let places = start..start + bytes.len();
        let there = self.bytes().ok_or(Trouble::Place)?;
        let part = there.get_mut(places).ok_or(Trouble::Place)?;
        part.copy_from_slice(bytes);
        Ok(())
    }
}
