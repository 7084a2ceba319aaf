//! A certificate as a tree: written, it has the bytes that the command writes, which `answers.rows` of `test_rows` has too.
ghost use Rattle.std.specs.Prelude.{◌≤◌, length};

use crate::checking::problem_of;
use game_search::solve;
use proof_text::write_cert;
use qc_model::Problem;
use std::alloc::{AllocError, Global};
use std::test::Fail;

// The player is to tell whether the opponent's two are alike.
const ODD: &[u8] =
    b"forall; var bool: a; var bool: b; exists; var bool: c; goal; constraint bool_xor(a,b,c); solve;";

// Of c one value is cut for each two of the opponent; five turns leave open where both are true.
const OPEN: &[u8] =
    b"qcert 2\nopen 5\nv 1\nv 2\nn\np 3 1 1 1\nn\ng\nn\np 3 0 0 1\nn\ng\n.\nv 2\nn\np 3 0 0 1\nn\ng\no\n.\n.\n";

// Six turns don't.
const WON: &[u8] =
    b"qcert 2\ntrue\nv 1\nv 2\nn\np 3 1 1 1\nn\ng\nn\np 3 0 0 1\nn\ng\n.\nv 2\nn\np 3 0 0 1\nn\ng\nn\np 3 1 1 1\nn\ng\n.\n.\n";

// The bytes of the tree that a search within so many turns gives.
fn written(alloc: Global, problem: &Problem, turns: u64) -> Result<Vec<u8>, AllocError>
    requires some { 1 ≤ turns }
    requires most { turns ≤ 10000000 }
{
    let Ok(certificate) = solve(alloc, problem, turns) else {
        return Err(AllocError);
    };
    write_cert(alloc, &certificate)
}

// Whether it has these bytes.
fn is_written(
    alloc: Global,
    problem: &Problem,
    turns: u64,
    bytes: &[u8],
) -> Result<bool, AllocError>
    requires some { 1 ≤ turns }
    requires most { turns ≤ 10000000 }
{
    let written = written(alloc, problem, turns)?;
    Ok(written.as_slice() == bytes)
}

#[test]
fn trees_are_written_as_by_the_command(rt: HostRuntime) -> Result<(), Fail> {
    let alloc = rt.alloc();
    let problem = problem_of(alloc, ODD)?;
    assert!(rt; is_written(alloc, &problem, 5, OPEN)?);
    assert!(rt; is_written(alloc, &problem, 6, WON)?);
    Ok(())
}
