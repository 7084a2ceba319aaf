//! The program `qpart`: solves pieces of a game, for certificates that many processors make together.
#![tactic(auto)]

ghost use Rattle.std.specs.Prelude.{◌≡◌, IfOk, drop, map, string_bytes};
ghost use Rattle.std.specs.Process.{exit_status};
ghost use Rattle.std.specs.Vec.Iter.{into_iter_items};
ghost use Rattle.qecode_commands.specs.Exits.{exit_number};
ghost use Rattle.part_commands.specs.Words.{asked_of};
ghost use Rattle.qpart.specs.Edge.{EndsRight};

use part_commands::run;
use qc_io::{FolderShelf, OutSink};
use qecode_commands::Status;
use std::alloc::{AllocError, Global};
use std::env;
use std::io::ErrorKind;
use std::process::ExitCode;
use std::rt::Files;

// Where a word isn't text. `run` never answers it.
const NOT_TEXT: u8 = 20;

fn main(rt: HostRuntime) -> ExitCode {
    let args = match env::args(&rt) {
        Ok(args) => args,
        Err(error) if error.kind() == ErrorKind::OutOfMemory => {
            return exit_of(Status::Memory);
        }
        Err(_) => return ExitCode::from(NOT_TEXT),
    };
    let status = match words_of(rt.alloc(), args) {
        Ok(words) => answer(&rt, words.as_slice()).unwrap_or(Status::Memory),
        Err(AllocError) => Status::Memory,
    };
    exit_of(status)
}

// The exit status of a run that ends so.
fn exit_of(status: Status) -> ExitCode
    ensures { exit_status result ≡ exit_number status }
{
    ExitCode::from(status.number())
}

// The words without the program's name.
fn words_of(alloc: Global, args: env::Args) -> Result<Vec<String>, AllocError>
    ensures { IfOk result (λ words. words.items ≡ drop 1 (into_iter_items args)) }
{
    args.skip(1).collect(alloc)
}

// The same words, borrowed as texts.
fn texts_of(alloc: Global, words: &[String]) -> Result<Vec<&str>, AllocError>
    ensures { IfOk result (λ texts. map (λ w. w.now) texts.items ≡ map string_bytes words.now) }
{
    words.iter().map(|word| word.as_str()).collect(alloc)
}

// How the program ends for these words. Of the files and the output nothing is told.
fn answer<R: Files + Print + AllocGlobal>(rt: &R, words: &[String]) -> Result<Status, AllocError>
    ensures { IfOk result (λ status. EndsRight (asked_of (map string_bytes words.now)) status) }
{
    let alloc = rt.alloc();
    let texts = texts_of(alloc, words)?;
    let mut shelf = FolderShelf::new(rt);
    let mut out = OutSink::new(rt);
    Ok(run(alloc, texts.as_slice(), &mut shelf, &mut out))
}
