// Dynamic address translation: document 01, "Addresses and translation". The first exception found ends the walk.
ghost use Rattle.std.specs.Prelude.{◌≡◌, Some};
ghost use Rattle.rules.specs.Machine.{Machine};
ghost use Rattle.rules.specs.declared.endings.Ending.{Ending};
ghost use Rattle.rules.specs.Translation.{format_of, exception, translate};
ghost use Rattle.storage.specs.Answers.{machine, told, seen};
ghost use Rattle.access.specs.Walks.{formatted, ended_by};

use crate::entries::Real;
use crate::segments::table_walk;
use crate::walks::{WalkEnd, Walked};
use rules::{Ending, Exception, Format, PageSize, SegmentSize, TableFault};
use storage::{Counted, Step};

fn format(page: PageSize, segment: SegmentSize) -> Option<Format>
    ensures { result ≡ Some (record { page = page; segment = segment }) }
{
    Some(Format { page, segment })
}

// Step 1: control register 0 bits 8-12.
#[inline(always)]
pub fn format_of(cr0: u32) -> Option<Format>
    ensures { (unknown : Ending) (m : Machine) → formatted unknown result m ≡ seen (format_of unknown cr0) m }
{
    match cr0 / 524288 % 32 {
        0b01000 => format(PageSize::TwoK, SegmentSize::SixtyFourK),
        0b01010 => format(PageSize::TwoK, SegmentSize::OneM),
        0b10000 => format(PageSize::FourK, SegmentSize::SixtyFourK),
        0b10010 => format(PageSize::FourK, SegmentSize::OneM),
        _ => None,
    }
}

#[inline(always)]
fn exception(at: u32, fault: TableFault) -> Ending
    ensures { result ≡ exception at fault }
{
    Ending::Interruption(match fault {
        TableFault::SegmentTableLength | TableFault::SegmentInvalid =>
            Exception::SegmentTranslation(at),
        TableFault::PageTableLength | TableFault::PageInvalid => Exception::PageTranslation(at),
        TableFault::SegmentFormat | TableFault::PageFormat => Exception::TranslationSpecification,
    })
}

// The walk's answer, its faults as endings. `faults_refused` differs in what a fault gives; with that as a closure, a
// clause would have to say what it gives, which is longer than the two arms.
#[inline(always)]
fn excepted(walked: Walked, at: u32) -> Step<u32>
    ensures { result ≡ ended_by (exception at) walked }
{
    walked.map_err(|end| Counted {
        value: match end.value {
            WalkEnd::Ended(ending) => ending,
            WalkEnd::Fault(fault, _) => exception(at, fault),
        },
        count: end.count,
    })
}

#[inline(never)]
pub(crate) fn translate(storage: &[u8], keys: &mut [u8], cr0: u32, cr1: u32, at: u32) -> Step<u32>
    ensures { told result storage.now keys.new
        ≡ seen (translate cr0 cr1 at) (machine storage.now keys.old) }
{
    let Some(format) = format_of(cr0) else {
        return storage::stop(Ending::Interruption(Exception::TranslationSpecification), 0);
    };
    let entries = Real {
        missing: Ending::Interruption(Exception::Addressing),
    };
    excepted(
        table_walk(storage, keys, entries, entries, format, cr1, at),
        at,
    )
}
