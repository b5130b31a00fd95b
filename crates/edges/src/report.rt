// What came of an edge, as the end of its line.
use crate::edge::Edge;
use rules::{Answer, Call, Ending, Exception};
use std::{fmt, io};

// An ending in words. That a field is missing comes with its step, or for ISK, RRB and LRA with its place.
#[derive(Clone, Copy)]
struct Outcome {
    ending: Ending,
    field: &'static str,
}

impl fmt::Display for Outcome {
    fn fmt<W: fmt::Write>(&self, f: &mut fmt::Formatter<W>) -> fmt::Result {
        match self.ending {
            Ending::Completed => write!(f, "completed"),
            Ending::Interruption(exception) => {
                let code = exception.code();
                write!(f, "interruption {code} ({})", Named(exception))
            }
            Ending::Expanded => write!(f, "handed to the expanded assist"),
            Ending::FieldMissing(number) => write!(f, "not in storage, {} {number}", self.field),
            Ending::WrongMode => write!(f, "PSW bit 12 or 15 zero"),
            Ending::WrongStorageSize => write!(f, "storage size"),
            Ending::WrongKeyCount => write!(f, "number of keys"),
            Ending::OddInstructionAddress => write!(f, "odd instruction address"),
            Ending::NotAssisted => write!(f, "operation code"),
        }
    }
}

// An exception by its name.
#[derive(Clone, Copy)]
struct Named(Exception);

impl fmt::Display for Named {
    fn fmt<W: fmt::Write>(&self, f: &mut fmt::Formatter<W>) -> fmt::Result {
        match self.0 {
            Exception::PrivilegedOperation => write!(f, "privileged operation"),
            Exception::Protection => write!(f, "protection"),
            Exception::Addressing => write!(f, "addressing"),
            Exception::SegmentTranslation(address) => {
                write!(f, "segment translation at {address:06X}")
            }
            Exception::PageTranslation(address) => write!(f, "page translation at {address:06X}"),
            Exception::TranslationSpecification => write!(f, "translation specification"),
        }
    }
}

pub(crate) fn print_answer(rt: &impl Print, answer: Answer, edge: &Edge) -> io::Result<()> {
    // with the record as it is handed back
    let call = Call {
        guest: answer.guest,
        ..edge.call
    };
    let register = register_set(call);
    let code = code_set(call);
    let is_set = register.is_some() || code.is_some();
    let number = answer.ending.number();
    let outcome = Outcome {
        ending: answer.ending,
        field: if is_set { "place" } else { "step" },
    };
    let count = answer.count;
    let next = answer.guest.instruction_address();
    print!(rt; " | ending {number} {outcome} | count {count} | next {next:06X}")?;
    if let Some(number) = register {
        let value = answer.guest.register(number);
        print!(rt; " | register {number}: {value:08X}")?;
    }
    if let Some(code) = code {
        print!(rt; " | condition code {code}")?;
    }
    Ok(())
}

// The number of register R1, where ISK or LRA sets it.
fn register_set(call: Call) -> Option<u32> {
    match call.operation() {
        0x09 | 0xB1 => Some(call.r1()),
        _ => None,
    }
}

// The condition code, PSW bits 18-19, where RRB or LRA sets it.
fn code_set(call: Call) -> Option<u64> {
    match call.operation() {
        0xB213 | 0xB1 => Some(call.guest.psw >> 44 & 3),
        _ => None,
    }
}

// What the call changed, as a list: places with `digits` digits, where `before` says what stood there.
pub(crate) fn print_changes<F: Fn(u32) -> u8>(
    rt: &impl Print,
    lent: &[u8],
    digits: usize,
    before: F,
) -> io::Result<()>
    requires { F.IsAlwaysCallable before }
{
    let mut is_empty = true;
    for (place, new) in (0u32..).zip(lent) {
        let old = before(place);
        if old != *new {
            if !is_empty {
                print!(rt; ", ")?;
            }
            print!(rt; "{place:0digits$X}: {old:02X} -> {new:02X}")?;
            is_empty = false;
        }
    }
    if is_empty {
        print!(rt; "none")?;
    }
    Ok(())
}
