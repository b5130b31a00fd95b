// One attempt of the virtual-machine assist: document 01, "The numbered endings".
#![tactic(auto)]

ghost use Rattle.std.specs.Prelude.{◌≤◌, ◌≡◌, length};
ghost use Rattle.operations.specs.Operations.{begins_assisted};
ghost use Rattle.rules.specs.Endings.{numbers};
ghost use Rattle.rules.specs.Call.{operation_byte};
ghost use Rattle.rules.specs.Attempt.{instruction, program};
ghost use Rattle.storage.specs.Answers.{machine, seen, finished, finish};
ghost use Rattle.assist.specs.Attempted.{answer_of, attempted};
ghost use Rattle.assist.specs.Changes.{change_by};

use crate::admission::{is_assisted, is_odd, is_wrong_keys, is_wrong_mode, is_wrong_storage};
use rules::{Answer, Call, Ending, Guest, MaskChange, RecordChange};
use storage::Step;

mod admission;

// STORE THEN AND SYSTEM MASK or STORE THEN OR SYSTEM MASK, and which of them.
fn mask_change(code: u32) -> Option<MaskChange>
    ensures { result ≡ change_by code }
{
    match code {
        0xac => Some(MaskChange::And),
        0xad => Some(MaskChange::Or),
        _ => None,
    }
}

// The instruction, by its operation code, which stays a number: the manual names instructions by it, and so do the
// table and the definitions. Each is called at one place, so that the compiler puts it there; so the two that change a
// mask are told from the others first.
fn instruction(storage: &mut [u8], keys: &mut [u8], call: Call) -> Step<RecordChange>
    ensures { finished result storage.new keys.new
        ≡ finish (seen (instruction call) (machine storage.old keys.old)) }
{
    let operation = call.operation();
    if let Some(change) = mask_change(operation) {
        return masks::store_then(storage, keys, change, call);
    }
    match operation {
        0x80 => masks::set_system_mask(storage, keys, call),
        0xb6 => control::store_control(storage, keys, call),
        0x08 => storage_key::set_storage_key(storage, keys, call),
        0x09 => storage_key::insert_storage_key(storage, keys, call),
        0xb1 => real_address::load_real_address(storage, keys, call),
        _ => storage_key::reset_reference_bit(storage, keys, call),
    }
}

// The same after the tests 10, 11, 12, 13 and 9, given what the table says of the operation byte.
fn program(storage: &mut [u8], keys: &mut [u8], call: Call, marked: bool) -> Step<RecordChange>
    requires { marked ≡ begins_assisted (operation_byte call) }
    ensures { finished result storage.new keys.new
        ≡ finish (seen (program (length storage.old) (length keys.old) call)
        (machine storage.old keys.old)) }
{
    if is_wrong_storage(storage.len()) {
        return storage::stop(Ending::WrongStorageSize, 0);
    }
    if is_wrong_keys(storage.len(), keys.len()) {
        return storage::stop(Ending::WrongKeyCount, 0);
    }
    if is_odd(call.guest) {
        return storage::stop(Ending::OddInstructionAddress, 0);
    }
    if !is_assisted(call, marked) {
        return storage::stop(Ending::NotAssisted, 0);
    }
    if is_wrong_mode(call.guest) {
        return storage::stop(Ending::WrongMode, 0);
    }
    instruction(storage, keys, call)
}

// The answer: completion hands the record back changed and moved on by so many bytes, any other ending as it was.
fn answer_of(concluded: Step<RecordChange>, call: Call, length: u32) -> Answer
    ensures { result ≡ answer_of concluded call length }
{
    match concluded {
        Ok(change) => Answer {
            ending: Ending::Completed,
            count: change.count,
            guest: call.changed(change.value).advance(length),
        },
        Err(ending) => Answer {
            ending: ending.value,
            count: ending.count,
            guest: call.guest,
        },
    }
}

// One attempt. The storage and keys of the caller are changed in place, and only on completion; the record is handed
// back. Every call is answered, whatever is lent, and costs no more in a larger storage.
pub fn attempt(
    storage: &mut [u8],
    keys: &mut [u8],
    guest: Guest,
    first: u16,
    installed: bool,
) -> Answer
    ensures answer { result ≡ (attempted storage.old keys.old guest first installed).answer }
    ensures numbers { numbers result.ending
        ≡ numbers (attempted storage.old keys.old guest first installed).answer.ending }
    ensures count { result.count
        ≡ length (attempted storage.old keys.old guest first installed).references }
    ensures bound { result.count ≤ 85 }
    ensures storage { storage.new
        ≡ (attempted storage.old keys.old guest first installed).after.storage }
    ensures keys { keys.new
        ≡ (attempted storage.old keys.old guest first installed).after.keys }
{
    let call = Call {
        guest,
        first,
        installed,
    };
    let operation = operations::operation_of(call.operation_byte());
    let concluded = program(storage, keys, call, operation.assisted);
    answer_of(concluded, call, operation.length)
}
