//! A program to measure and compare filters with, apart from the search. It reads a problem, closes all its constraints
//! together, and writes for each variable the least value left, the greatest and how many there are, or `empty`.
//!
//! | words | what it does |
//! |---|---|
//! | `FILE fast` | closes by the filters of the families |
//! | `FILE ends` | closes by the filter that goes end by end |
//! | `FILE again N` | closes, and N times takes a variable's least value away, closes again from there, and undoes it |
//! | `FILE cut N` | closes nothing, and N times takes the first variable's least and greatest value away |
//!
//! That closing ends with a closed box or an empty domain, and that undoing gives back the box, is proved where it is done;
//! what is written is for scripts, and isn't stated. It ends with 1, and writes nothing, for other words, a file that can't
//! be read, a text that is no problem, and for want of memory.
#![tactic(auto)]

ghost use Rattle.std.specs.Prelude.{◌≡◌, ◌<◌, length, IfOk, IfSome};
ghost use Rattle.prop_engine.specs.Watching.{IsReady};

mod closing;
mod cutting;
mod ends;
mod words;

use closing::{close, close_repeatedly};
use cutting::cut_ends;
use ends::ByEnds;
use fd_store::Store;
use prop_engine::Engine;
use prop_families::Families;
use qc_io::{FolderShelf, read_all};
use qc_model::{Problem, VarId};
use qc_syntax::read_problem;
use std::alloc::{AllocError, Global};
use std::process::ExitCode;
use std::{env, io};
use words::{Work, work_of};

/// The most bytes of a problem's text.
const LIMIT: u64 = 4_194_304;

fn main(rt: HostRuntime) -> ExitCode {
    match measured(&rt) {
        Some(()) => ExitCode::from(0),
        None => ExitCode::from(1),
    }
}

fn measured(rt: &HostRuntime) -> Option<()> {
    let alloc = rt.alloc();
    let words: Vec<String> = env::args(rt).ok()?.skip(1).collect(alloc).ok()?;
    let [name, rest @ ..] = words.as_slice() else {
        return None;
    };
    let work = work_of(rest)?;
    let mut shelf = FolderShelf::new(rt);
    let text = read_all(alloc, &mut shelf, name.as_str(), LIMIT).ok()?;
    let problem = read_problem(alloc, &text).ok()?;
    let left = worked(alloc, &problem, work).ok()?;
    tell(rt, &problem, &left).ok()
}

// The store after the work; None where a domain is empty.
fn worked(alloc: Global, problem: &Problem, work: Work) -> Result<Option<Store>, AllocError>
    ensures { IfOk result (λ left. IfSome left (λ s. length s.box ≡ length problem.now.variables)) }
{
    let mut engine = Engine::new(alloc, problem)?;
    match work {
        Work::Fast => close(&Families {}, alloc, problem, &mut engine),
        Work::Ends => close(&ByEnds {}, alloc, problem, &mut engine),
        Work::Again(rounds) => repeated(alloc, problem, &mut engine, rounds),
        Work::Cut(rounds) => cut(alloc, problem, rounds),
    }
}

// Closes, and so many times once more after one variable has lost a value.
fn repeated(
    alloc: Global,
    problem: &Problem,
    engine: &mut Engine,
    rounds: u32,
) -> Result<Option<Store>, AllocError>
    requires { IsReady problem.now engine.old }
    ensures { IfOk result (λ left. IfSome left (λ s. length s.box ≡ length problem.now.variables)) }
{
    let Some(mut store) = close(&Families {}, alloc, problem, engine)? else {
        return Ok(None);
    };
    close_repeatedly(&Families {}, alloc, problem, engine, rounds, &mut store)?;
    Ok(Some(store))
}

// Takes the ends of the first variable away so many times.
fn cut(alloc: Global, problem: &Problem, rounds: u32) -> Result<Option<Store>, AllocError>
    ensures { IfOk result (λ left. IfSome left (λ s. length s.box ≡ length problem.now.variables)) }
{
    let mut store = Store::new(alloc, problem)?;
    if problem.variables() > 0 {
        cut_ends(VarId(0), rounds, &mut store)?;
    }
    Ok(Some(store))
}

fn tell_variable<R: Print>(rt: &R, store: &Store, x: VarId) -> io::Result<()>
    requires { x.0 < length store.now.box }
{
    let size = store.size(x);
    if size == 0 {
        return println!(rt; "-");
    }
    println!(rt; "{} {} {size}", store.min(x), store.max(x))
}

fn tell<R: Print>(rt: &R, problem: &Problem, left: &Option<Store>) -> io::Result<()>
    requires { IfSome left.now (λ s. length s.box ≡ length problem.now.variables) }
{
    problem.known();
    match left {
        None => println!(rt; "empty"),
        Some(store) => {
            for k in 0..problem.variables() {
                tell_variable(rt, store, VarId(k as u16))?;
            }
            Ok(())
        }
    }
}
