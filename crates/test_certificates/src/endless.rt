//! A certificate that never ends.
ghost use Rattle.std.specs.Prelude.{◌≡◌, ◌≤◌, length, None};

use qc_io::{Failed, MemorySink, Shelf};
use qecode_commands::{Status, run as run_over};
use std::alloc::Global;
use std::test::Fail;

const HEAD: &[u8] = b"qcert 1\ntrue\n";

// Every name but `c` is the problem; `c` is the front, and then its last two bytes without end. It tells no bytes.
#[derive(Drop)]
struct EndlessShelf {
    problem: Vec<u8>,
    front: Vec<u8>,
    given: u64,
}

impl Shelf for EndlessShelf {
    ghost told = { λ shelf name. None };

    ghost faults = { λ shelf. 0 };

    ghost given = { λ shelf. shelf.given };

    fn read_at(&mut self, name: &str, at: u64, into: &mut [u8]) -> Result<usize, Failed> {
        let count = if name == "c" {
            copy_from(&self.front, place_in_front(at), into)
        } else {
            copy_from(&self.problem, at, into)
        };
        self.given = self.given.saturating_add(count as u64);
        Ok(count)
    }
}

// The place in the front of an endless certificate at which the bytes from there on are the same.
fn place_in_front(at: u64) -> u64 {
    let head = HEAD.len() as u64;
    if at <= head {
        return at;
    }
    head + (at - head) % 2
}

// Copies what stands in the file from a place on into the front of the piece, and says how much.
fn copy_from(file: &[u8], at: u64, into: &mut [u8]) -> usize
    ensures count { result ≤ length into.new }
    ensures same { length into.new ≡ length into.old }
{
    if at >= file.len() as u64 {
        return 0;
    }
    let rest = &file[at as usize..];
    let count = rest.len().min(into.len());
    into[..count].copy_from_slice(&rest[..count]);
    count
}

// A run over such a shelf. It promises nothing, so that the test isn't shown all that `run` promises.
fn run(alloc: Global, words: &[&str], shelf: &mut EndlessShelf, sink: &mut MemorySink) -> Status {
    run_over(alloc, words, shelf, sink)
}

// The lines nest too deep long before; but a file that is too long is told first.
#[test]
fn an_endless_certificate_is_refused(rt: HostRuntime) -> Result<(), Fail> {
    let alloc = rt.alloc();
    let mut front = Vec::from_slice(alloc, HEAD)?;
    for _ in 0..40_000 {
        front.extend_from_slice(b"n\n")?;
    }
    let mut shelf = EndlessShelf {
        problem: Vec::from_slice(alloc, b"goal; solve;")?,
        front,
        given: 0,
    };
    let mut sink = MemorySink::new(alloc, 65_536, 65_536)?;
    let answer = run(alloc, &["check", "p", "c"], &mut shelf, &mut sink);
    assert_eq!(rt; answer, Status::TooLong);
    assert!(rt; sink.bytes() == b"too long: c\n".as_slice());
    Ok(())
}
