// The tests before the instruction: endings 10, 11, 12, 13 and 9, in that order.
ghost use Rattle.std.specs.Prelude.{◌≡◌};
ghost use Rattle.operations.specs.Operations.{begins_assisted};
ghost use Rattle.rules.specs.Call.{operation_byte};
ghost use Rattle.rules.specs.Attempt.{wrong_storage, wrong_keys, odd_address, is_assisted, wrong_mode};

use rules::{Call, Guest};

// 10: not a multiple of 2,048, or outside 2,048 to 16,777,216.
pub(crate) fn is_wrong_storage(bytes: usize) -> bool
    ensures { result ≡ wrong_storage bytes }
{
    (bytes % 2048 != 0) | (bytes < 2048) | (16777216 < bytes)
}

// 11: not one key for each 2,048 bytes.
pub(crate) fn is_wrong_keys(bytes: usize, keys: usize) -> bool
    ensures { result ≡ wrong_keys bytes keys }
{
    keys != bytes / 2048
}

// 12: the instruction address is odd.
pub(crate) fn is_odd(guest: Guest) -> bool
    ensures { result ≡ odd_address guest }
{
    guest.instruction_address() % 2 != 0
}

// 13, where it is not: the table marks the operation byte, and B2 has 13 as its second byte.
pub(crate) fn is_assisted(call: Call, marked: bool) -> bool
    requires { marked ≡ begins_assisted (operation_byte call) }
    ensures { result ≡ is_assisted call }
{
    marked & ((call.operation_byte() != 0xb2) | (call.operation() == 0xb213))
}

// 9: real PSW bit 12 or bit 15 is zero.
pub(crate) fn is_wrong_mode(guest: Guest) -> bool
    ensures { result ≡ wrong_mode guest }
{
    !guest.extended_control() | !guest.problem_state()
}
