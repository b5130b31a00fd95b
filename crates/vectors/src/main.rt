// Makes the calls that its input gives, through the proved library, and prints a line for each: docs/VECTORS.md. With
// an argument it takes more than 4 MiB of storage, on a stack of 32 MiB.
#![tactic(auto)]

ghost use Rattle.std.specs.Prelude.{◌^◌, ◌<◌};

use crate::run::play;
use std::env::FillError;
use std::io;
use std::rt::Env;

mod area;
mod fields;
mod lines;
mod machine;
mod report;
mod run;
mod source;
mod trouble;

const STORAGE_BYTES: usize = 4194304;

// 16 MiB and one block more.
const LARGE_STORAGE_BYTES: usize = 16779264;

// More than the 8,193 keys of that storage.
const KEY_COUNT: usize = 8448;

// A run in so much storage; no array takes 2^63 bytes. It isn't inlined into `main`, whose stack would then hold the
// storage of both runs.
#[inline(never)]
fn run_in<const BYTES: usize, R: Input + Print>(rt: &R) -> io::Result<()>
    requires { BYTES < 2 ^ 63 }
{
    let mut storage = [0u8; BYTES];
    let mut keys = [0u8; KEY_COUNT];
    play(rt, &mut storage, &mut keys)
}

// With the program's name. An argument can be any bytes, and none of them is needed.
fn argument_count(rt: &impl Env) -> usize {
    (0..usize::MAX)
        .find(|&i| matches!(rt.arg(i, &mut []), Err(FillError::NotPresent)))
        .unwrap_or(usize::MAX)
}

fn main(rt: HostRuntime) -> io::Result<()> {
    if argument_count(&rt) > 1 {
        run_in::<LARGE_STORAGE_BYTES, _>(&rt)
    } else {
        run_in::<STORAGE_BYTES, _>(&rt)
    }
}
