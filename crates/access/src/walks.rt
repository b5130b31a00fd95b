// The answer of a walk through tables, or of a part of one: what was found, or what ends the walk; each with the count
// of references.
ghost use Rattle.std.specs.Prelude.{◌≡◌, Err};
ghost use Rattle.storage.specs.Answers.{counted};
ghost use Rattle.rules.specs.Endings.{refuse};
ghost use Rattle.access.specs.Walks.{Fault, as_walk, ended_by};

use rules::{Ending, Exception, TableFault};
use storage::{Counted, Step};

// An ending, or what is wrong with the tables and the address of the entry that it is about.
#[derive(Clone, Copy)]
pub enum WalkEnd {
    Ended(Ending),
    Fault(TableFault, u32),
}

pub type Walked = Result<Counted<u32>, Counted<WalkEnd>>;

// A step's ending ends the walk.
#[inline(always)]
pub(crate) fn walked(step: Step<u32>) -> Walked
    ensures { result ≡ as_walk step }
{
    step.map_err(|ending| Counted {
        value: WalkEnd::Ended(ending.value),
        count: ending.count,
    })
}

// The walk ends here, with what is wrong and where, after so many references.
#[inline(always)]
pub(crate) fn fault(kind: TableFault, entry: u32, count: u32) -> Walked
    ensures { result ≡ Err (counted (Fault kind entry) count) }
{
    Err(Counted {
        value: WalkEnd::Fault(kind, entry),
        count,
    })
}

// The walk's answer as a step's: all that is wrong with the tables gives document 01's "refuse".
#[inline(always)]
pub fn faults_refused(walked: Walked) -> Step<u32>
    ensures { result ≡ ended_by (λ fault. refuse) walked }
{
    walked.map_err(|end| Counted {
        value: match end.value {
            WalkEnd::Ended(ending) => ending,
            WalkEnd::Fault(_, _) => Ending::Interruption(Exception::PrivilegedOperation),
        },
        count: end.count,
    })
}
