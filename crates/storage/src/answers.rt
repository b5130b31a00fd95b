// The answer of an instruction: completion, or what its last step ended with.
ghost use Rattle.std.specs.Prelude.{◌≡◌};
ghost use Rattle.storage.specs.Answers.{completion_as, completion, ending};

use crate::steps::{Counted, Step};
use rules::RecordChange;

// Completion that changes this in the record, after so many reads and writes.
pub fn completed_as(change: RecordChange, reads: u32, writes: u32) -> Step<RecordChange>
    ensures { result ≡ completion_as change reads writes }
{
    Ok(Counted {
        value: change,
        count: reads.wrapping_add(writes),
    })
}

// The same where it changes nothing in the record but the instruction address.
pub fn completed(reads: u32, writes: u32) -> Step<RecordChange>
    ensures { result ≡ completion reads writes }
{
    completed_as(RecordChange::Unchanged, reads, writes)
}

// A step that ends the instruction: its ending. (Here `?` hands that on; a value would complete, and change nothing in
// the record.)
pub fn ending(step: Step<u32>) -> Step<RecordChange>
    ensures { result ≡ ending step }
{
    match step {
        Ok(given) => completed(given.count, 0),
        Err(ending) => Err(ending),
    }
}
