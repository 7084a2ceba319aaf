//! What certificates come to that are read in pieces, and what they come to as trees.
ghost use Rattle.std.specs.Prelude.{◌≡◌, ◌≤◌, ◌<◌, ◌+◌, ◌^◌, length, IfOk};
ghost use Rattle.qc_check.specs.Giving.{CanCheck};
ghost use Rattle.qc_check.specs.Keeping.{WasGiven};

use proof_text::read_cert;
use proof_tree::{Certificate, Outcome};
use qc_check::{Answer, Checked, Checker, Fed, Space};
use qc_model::Problem;
use qc_syntax::read_problem;
use std::alloc::{AllocError, Global};
use std::test::Fail;

// The player takes a value, and the opponent the other.
const LOST: &[u8] =
    b"exists; var 0..1: x; forall; var 0..1: y; goal; constraint int_eq(x,y); solve;";

// The opponent takes a value, and the player the same.
const WON: &[u8] =
    b"forall; var 0..1: y; exists; var 0..1: x; goal; constraint int_eq(x,y); solve;";

// That LOST is lost.
const COUNTER: &[u8] = b"qcert 1\nfalse\nv 1\nn\nv 2\ns\nn\ng\n.\nn\nv 2\nn\ng\ns\n.\n.\n";

// The same tree stands for another outcome.
const CLAIM: &[u8] = b"qcert 1\ntrue\nv 1\nn\nv 2\ns\nn\ng\n.\nn\nv 2\nn\ng\ns\n.\n.\n";

// A number with a needless zero.
const BAD: &[u8] = b"qcert 1\nfalse\nv 1\nn\nv 02\ns\n";

// The calls of a checker and a space, with no more than is needed to call them again: a test isn't shown all that they
// promise.
fn begin<'p>(alloc: Global, problem: &'p Problem) -> Result<Checker<'p>, AllocError>
    ensures given { IfOk result (λ c. WasGiven c) }
    ensures read { IfOk result (λ c. c.read ≡ 0) }
{
    Checker::new(alloc, problem)
}

fn feed(checker: &mut Checker<'_>, bytes: &[u8]) -> Fed
    requires given { WasGiven checker.old }
    requires room { checker.old.read + length bytes.now ≤ 2 ^ 32 }
    ensures given { WasGiven checker.new }
    ensures read { checker.new.read ≤ checker.old.read + length bytes.now }
{
    checker.feed(bytes)
}

fn room<'p>(alloc: Global, problem: &'p Problem) -> Result<Space<'p>, AllocError>
    ensures { IfOk result (λ s. CanCheck s) }
{
    Space::new(alloc, problem)
}

fn check(space: &mut Space<'_>, certificate: &Certificate) -> Answer
    requires { CanCheck space.old }
    ensures { CanCheck space.new }
{
    space.check(certificate)
}

// What the last piece of a text is answered with, and what all come to, where each has as many bytes as this.
fn read_by(checker: &mut Checker<'_>, text: &[u8], size: usize) -> (Fed, Checked)
    requires some { 0 < size }
    requires most { length text.now ≤ 65536 }
    requires given { WasGiven checker.old }
    requires none { checker.old.read ≡ 0 }
{
    let mut fed = Fed::More;
    let mut at = 0;
    while at < text.len() {
        let end = at + size.min(text.len() - at);
        fed = feed(checker, &text[at..end]);
        at = end;
    }
    (fed, checker.finish())
}

// The same over a problem.
fn checked(
    alloc: Global,
    problem: &Problem,
    text: &[u8],
    size: usize,
) -> Result<(Fed, Checked), AllocError>
    requires some { 0 < size }
    requires most { length text.now ≤ 65536 }
{
    // (a `?` or a loop beside what owns so much costs its proof minutes)
    let Ok(mut checker) = begin(alloc, problem) else {
        return Err(AllocError);
    };
    Ok(read_by(&mut checker, text, size))
}

// Whether a text comes to this byte by byte, seven at a time, and whole.
fn comes_to(
    alloc: Global,
    problem: &Problem,
    text: &[u8],
    fed: Fed,
    found: Checked,
) -> Result<bool, Fail>
    requires { length text.now ≤ 65536 }
{
    let single = checked(alloc, problem, text, 1)?;
    let seven = checked(alloc, problem, text, 7)?;
    let whole = checked(alloc, problem, text, 65_536)?;
    Ok(single == (fed, found) && seven == (fed, found) && whole == (fed, found))
}

// The same over a problem's text.
fn comes_to_over(
    alloc: Global,
    problem: &[u8],
    text: &[u8],
    fed: Fed,
    found: Checked,
) -> Result<bool, Fail>
    requires problem { length problem.now ≤ 65536 }
    requires text { length text.now ≤ 65536 }
{
    match read_problem(alloc, problem) {
        Ok(problem) => comes_to(alloc, &problem, text, fed, found),
        Err(_) => Err(Fail::from("no problem")),
    }
}

pub(crate) fn problem_of(alloc: Global, text: &[u8]) -> Result<Problem, Fail>
    requires { length text.now ≤ 65536 }
{
    match read_problem(alloc, text) {
        Ok(problem) => Ok(problem),
        Err(_) => Err(Fail::from("no problem")),
    }
}

fn certificate_of(alloc: Global, text: &[u8]) -> Result<Certificate, Fail>
    requires { length text.now ≤ 65536 }
{
    match read_cert(alloc, text) {
        Ok(certificate) => Ok(certificate),
        Err(_) => Err(Fail::from("no certificate")),
    }
}

// What a space answers of two certificates, and of the first once more.
fn answers(
    space: &mut Space<'_>,
    first: &Certificate,
    second: &Certificate,
) -> (Answer, Answer, Answer)
    requires { CanCheck space.old }
{
    let one = check(space, first);
    let two = check(space, second);
    let again = check(space, first);
    (one, two, again)
}

// The same over a problem.
fn answers_over(
    alloc: Global,
    problem: &Problem,
    first: &Certificate,
    second: &Certificate,
) -> Result<(Answer, Answer, Answer), AllocError> {
    let Ok(mut space) = room(alloc, problem) else {
        return Err(AllocError);
    };
    Ok(answers(&mut space, first, second))
}

#[test]
fn pieces_of_each_size_come_to_the_same(rt: HostRuntime) -> Result<(), Fail> {
    let alloc = rt.alloc();
    let yes = Checked::Yes {
        outcome: Outcome::False,
        optimum: None,
    };
    assert!(rt; comes_to_over(alloc, LOST, COUNTER, Fed::More, yes)?);
    assert!(rt; comes_to_over(alloc, LOST, CLAIM, Fed::More, Checked::NotProved)?);
    assert!(rt; comes_to_over(alloc, WON, COUNTER, Fed::More, Checked::NotProved)?);
    Ok(())
}

// The fault is told at its byte, and whatever comes after it changes nothing.
#[test]
fn faults_have_one_place(rt: HostRuntime) -> Result<(), Fail> {
    let fed = Fed::NotACertificate { at: 22 };
    let found = Checked::NotACertificate { at: 22 };
    assert!(rt; comes_to_over(rt.alloc(), LOST, BAD, fed, found)?);
    Ok(())
}

// The same over a problem's text.
fn answers_of(
    alloc: Global,
    problem: &[u8],
    first: &Certificate,
    second: &Certificate,
) -> Result<(Answer, Answer, Answer), Fail>
    requires { length problem.now ≤ 65536 }
{
    match read_problem(alloc, problem) {
        Ok(problem) => Ok(answers_over(alloc, &problem, first, second)?),
        Err(_) => Err(Fail::from("no problem")),
    }
}

// One space answers one certificate after the other, and what the one before left behind doesn't matter.
fn trees_come_to(alloc: Global, counter: &Certificate, claim: &Certificate) -> Result<bool, Fail> {
    let lost = answers_of(alloc, LOST, counter, claim)?;
    let won = answers_of(alloc, WON, counter, counter)?;
    Ok(
        lost == (Answer::Yes, Answer::NotProved, Answer::Yes)
            && won == (Answer::NotProved, Answer::NotProved, Answer::NotProved),
    )
}

// The same beside the tree of CLAIM.
fn counter_comes_to(alloc: Global, counter: &Certificate) -> Result<bool, Fail> {
    match certificate_of(alloc, CLAIM) {
        Ok(claim) => trees_come_to(alloc, counter, &claim),
        Err(fail) => Err(fail),
    }
}

// The same of the trees of COUNTER and CLAIM.
fn both_come_to(alloc: Global) -> Result<bool, Fail> {
    match certificate_of(alloc, COUNTER) {
        Ok(counter) => counter_comes_to(alloc, &counter),
        Err(fail) => Err(fail),
    }
}

#[test]
fn trees_come_to_the_same(rt: HostRuntime) -> Result<(), Fail> {
    assert!(rt; both_come_to(rt.alloc())?);
    Ok(())
}
