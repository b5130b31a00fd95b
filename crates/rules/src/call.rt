// A call: the guest's record, the first halfword of the instruction, and whether the expanded assist is installed.
ghost use Rattle.std.specs.Prelude.{◌≡◌};
ghost use Rattle.rules.specs.Call.{operation_byte, operation, r1, r2, immediate, expanded, changed};

use crate::{Ending, Exception, Guest, RecordChange};

#[derive(Clone, Copy)]
pub struct Call {
    pub guest: Guest,
    pub first: u16,
    pub installed: bool,
}

impl Call {
    pub fn operation_byte(self) -> u8
        ensures { result ≡ operation_byte self }
    {
        (self.first / 256 % 256) as u8
    }

    // The operation code: a byte, or two where the first is B2.
    pub fn operation(self) -> u32
        ensures { result ≡ operation self }
    {
        let byte = self.operation_byte();
        if byte == 0xb2 {
            return u32::from(self.first);
        }
        u32::from(byte)
    }

    pub fn r1(self) -> u32
        ensures { result ≡ r1 self }
    {
        u32::from(self.first / 16 % 16)
    }

    // R2 of the RR format is R3 of the RS format, and X2, the index, of the RX format.
    pub fn r2(self) -> u32
        ensures { result ≡ r2 self }
    {
        u32::from(self.first % 16)
    }

    pub fn immediate(self) -> u32
        ensures { result ≡ immediate self }
    {
        u32::from(self.first % 256)
    }

    // The record with what an instruction changes in it.
    pub fn changed(self, change: RecordChange) -> Guest
        ensures { result ≡ changed self change }
    {
        match change {
            RecordChange::Unchanged => self.guest,
            RecordChange::RegisterByte(byte) => self.guest.with_byte(self.r1(), byte),
            RecordChange::ConditionCode(code) => self.guest.with_code(code),
            RecordChange::LoadedAddress(code, address) => {
                self.guest.with_code(code).with_address(self.r1(), address)
            }
        }
    }

    // Document 01's "expanded": handed over where the expanded assist is installed and switched on by bit 6 of control
    // register 6 (document 002, Figure 3), else refused.
    pub fn expanded(self) -> Ending
        ensures { result ≡ expanded self }
    {
        if self.installed & (self.guest.cr6 / 33554432 % 2 == 1) {
            return Ending::Expanded;
        }
        Ending::Interruption(Exception::PrivilegedOperation)
    }
}
