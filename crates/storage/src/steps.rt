// The answer of a step of a reading program: what it gives, or the ending, and the count of references made for it.
ghost use Rattle.std.specs.Prelude.{◌≡◌, Err};
ghost use Rattle.rules.specs.Endings.{refuse};
ghost use Rattle.rules.specs.Steps.{fetch_bytes};
ghost use Rattle.storage.specs.Answers.{counted, later, refused, machine, told, seen};

use crate::fetches::Item;
use rules::{Ending, Exception};

// Something, and the count of references made for it.
#[derive(Clone, Copy)]
pub struct Counted<T> {
    pub value: T,
    pub count: u32,
}

pub type Step<T> = Result<Counted<T>, Counted<Ending>>;

pub trait After {
    // The same after n references more. No attempt makes more than 85, so that the count never goes round.
    fn after(self, n: u32) -> Self;
}

// Whatever the error is: an ending, or what ends a walk through tables.
impl<T, E> After for Result<Counted<T>, Counted<E>> {
    #[inline(always)]
    fn after(self, n: u32) -> Result<Counted<T>, Counted<E>>
        ensures { result ≡ later n self }
    {
        match self {
            Ok(given) => Ok(Counted {
                value: given.value,
                count: n.wrapping_add(given.count),
            }),
            Err(error) => Err(Counted {
                value: error.value,
                count: n.wrapping_add(error.count),
            }),
        }
    }
}

// This ending, after so many references.
#[inline(always)]
pub fn stop<T>(ending: Ending, count: u32) -> Step<T>
    ensures { result ≡ Err (counted ending count) }
{
    Err(Counted {
        value: ending,
        count,
    })
}

// Document 01's "refuse".
#[inline(always)]
pub fn refuse<T>(count: u32) -> Step<T>
    ensures { result ≡ Err (counted refuse count) }
{
    stop(Ending::Interruption(Exception::PrivilegedOperation), count)
}

// An answer with every ending turned into it.
#[inline(always)]
pub fn refused<T>(step: Step<T>) -> Step<T>
    ensures { result ≡ refused step }
{
    step.or_else(|ending| refuse(ending.count))
}

// An item of storage, or this ending if a byte of it is not there.
#[inline(always)]
pub fn fetch<T: Item>(storage: &[u8], keys: &mut [u8], at: u32, missing: Ending) -> Step<u32>
    ensures { told result storage.now keys.new
        ≡ seen (fetch_bytes at T.bytes missing) (machine storage.now keys.old) }
{
    match T::read(storage, keys, at) {
        Some(value) => Ok(Counted { value, count: 1 }),
        None => stop(missing, 0),
    }
}
