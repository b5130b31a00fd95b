// An edge is run: its call is made, and its line is printed.
use crate::edge::Edge;
use crate::report::{print_answer, print_changes};
use rules::Call;
use std::fmt::Display;
use std::io;

pub(crate) const STORAGE_BYTES: usize = 4194304;

const KEY_BLOCK: usize = 2048;

pub(crate) const KEY_COUNT: usize = STORAGE_BYTES / KEY_BLOCK;

// Lent as arrays: where a local array becomes a slice, the check computes its length, for which its stack is too small
// at millions of bytes.
pub(crate) type Storage = [u8; STORAGE_BYTES];

pub(crate) type Keys = [u8; KEY_COUNT];

// Where the edges are run, one after another: the storage and keys of the largest, and the output for their lines.
#[derive(Drop)]
pub(crate) struct Bench<'a, R> {
    pub(crate) rt: &'a R,
    pub(crate) storage: &'a mut Storage,
    pub(crate) keys: &'a mut Keys,
}

impl<R: Print> Bench<'_, R> {
    // Each with its instruction and its case, which begin its line.
    pub(crate) fn run_each(&mut self, edges: &[(&str, Edge)]) -> io::Result<()> {
        for (case, edge) in edges {
            self.run(*case, *edge)?;
        }
        Ok(())
    }

    // In the first bytes of the storage and the first keys, as many as the edge has.
    pub(crate) fn run(&mut self, case: impl Display + Drop, edge: Edge) -> io::Result<()> {
        let rt = self.rt;
        print!(rt; "{case}")?;
        let storage = &mut *self.storage;
        let keys = &mut *self.keys;
        let key_count = edge.size / KEY_BLOCK;
        match (storage.get_mut(..edge.size), keys.get_mut(..key_count)) {
            (Some(storage), Some(keys)) => run_in(rt, storage, keys, &edge),
            _ => println!(rt; " | no room for its storage and keys"),
        }
    }
}

// The line has addresses in six digits, and the numbers of keys in one.
fn run_in(rt: &impl Print, storage: &mut [u8], keys: &mut [u8], edge: &Edge) -> io::Result<()> {
    edge.fill(storage, keys);
    let Call {
        guest,
        first,
        installed,
    } = edge.call;
    let answer = assist::attempt(storage, keys, guest, first, installed);
    print_answer(rt, answer, edge)?;
    print!(rt; " | bytes: ")?;
    print_changes(rt, storage, 6, |address| edge.byte_at(address))?;
    print!(rt; "; keys: ")?;
    print_changes(rt, keys, 1, |number| edge.key_at(number))?;
    println!(rt;)
}
