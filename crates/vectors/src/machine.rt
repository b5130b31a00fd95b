// What the calls are made on, and what each leaves.
use crate::area::Area;
use crate::trouble::Trouble;
use rules::{Answer, Guest};

#[derive(Drop)]
pub(crate) struct Machine<'a> {
    pub(crate) storage: Area<'a>,
    pub(crate) keys: Area<'a>,
    // the record, once a line has given it
    pub(crate) guest: Option<Guest>,
    // calls made
    pub(crate) calls: u32,
}

impl<'a> Machine<'a> {
    pub(crate) fn new(storage: &'a mut [u8], keys: &'a mut [u8]) -> Machine<'a> {
        Machine {
            storage: Area::new(storage),
            keys: Area::new(keys),
            guest: None,
            calls: 0,
        }
    }

    // One attempt: its answer, and the checksum of all that is there afterwards.
    pub(crate) fn attempt(
        &mut self,
        first: u16,
        installed: bool,
    ) -> Result<(Answer, u32), Trouble> {
        let guest = self.guest.ok_or(Trouble::Early)?;
        let storage = self.storage.bytes().ok_or(Trouble::Early)?;
        let keys = self.keys.bytes().ok_or(Trouble::Early)?;
        let answer = assist::attempt(storage, keys, guest, first, installed);
        self.calls = self.calls.wrapping_add(1);
        let over_storage = checksum::over(checksum::START, storage);
        let over_keys = checksum::over(over_storage, keys);
        let sum = checksum::finish(over_guest(over_keys, answer.guest));
        Ok((answer, sum))
    }
}

// The checksum's register after a record.
fn over_guest(register: u32, guest: Guest) -> u32 {
    let over_psw = checksum::over(register, &guest.psw.to_be_bytes());
    guest
        .general
        .iter()
        .chain(&[guest.cr0, guest.cr1, guest.cr6])
        .fold(over_psw, |now, &word| checksum::over_word(now, word))
}
