//! The programs over memory. They promise nothing here, so that whoever calls them isn't shown all that they promise.
use qc_io::{MemoryShelf, MemorySink};
use qecode_commands::Status;
use std::alloc::Global;

fn qecode(alloc: Global, words: &[&str], shelf: &mut MemoryShelf, out: &mut MemorySink) -> Status {
    qecode_commands::run(alloc, words, shelf, out)
}

fn qtell(alloc: Global, words: &[&str], shelf: &mut MemoryShelf, out: &mut MemorySink) -> Status {
    tell_commands::run(alloc, words, shelf, out)
}

fn qdense(alloc: Global, words: &[&str], shelf: &mut MemoryShelf, out: &mut MemorySink) -> Status {
    dense_commands::run(alloc, words, shelf, out)
}

fn qpart(alloc: Global, words: &[&str], shelf: &mut MemoryShelf, out: &mut MemorySink) -> Status {
    part_commands::run(alloc, words, shelf, out)
}

/// How a run of the program of this name ends, None where no program is called so.
pub(crate) fn run_program(
    alloc: Global,
    name: &str,
    words: &[&str],
    shelf: &mut MemoryShelf,
    out: &mut MemorySink,
) -> Option<Status> {
    if name == "qecode" {
        return Some(qecode(alloc, words, shelf, out));
    }
    if name == "qtell" {
        return Some(qtell(alloc, words, shelf, out));
    }
    if name == "qdense" {
        return Some(qdense(alloc, words, shelf, out));
    }
    if name == "qpart" {
        return Some(qpart(alloc, words, shelf, out));
    }
    None
}
