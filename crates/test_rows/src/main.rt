//! Trials of the four programs' commands by rows of texts: worked runs of `run` over files and an output in memory.
//!
//! They show what no clause says: answers that were found by hand, the printed lines, each refusal with its place, and what
//! is answered where a file ends anywhere or a call fails. A row more costs no proof.
//!
//! The words name files of rows. A line is written of each row that isn't as wanted: the row's line, the line at which it
//! ended and why, and what was answered; and then how many rows the file has. The program ends with 0 where all are as wanted,
//! with 1 where one isn't, and with 2 where it can't write or memory is refused.
//!
//! A file of rows has blocks between blank lines, and a block is a row. A line is a field and what follows the blank behind it;
//! one that begins with `#` is a comment. The fields of a row are done in their order:
//!
//! | field | what it says |
//! |---|---|
//! | `file NAME TEXT` | there is a file of this name |
//! | `front NAME COUNT TEXT` | there is one with so many of the text's first bytes |
//! | `read_fails CALL` | this call for bytes of files fails, counted from 1 on in the row |
//! | `takes COUNT` | the output takes at most so many bytes in a call |
//! | `write_fails CALL` | this call of the output fails, counted from 1 on in each run |
//! | `run PROGRAM WORDS` | `qecode`, `qtell`, `qdense` or `qpart` runs with these words, of which `""` is empty; what it writes is the file `written` from then on |
//! | `status NAME` | the run ended so, by the names of `docs/command.md`; each run has to have this line |
//! | `writes TEXT` | it wrote this and nothing else |
//! | `begins TEXT` | what it wrote begins with this |
//! | `below COUNT` | it wrote so many lines below the two of a certificate's head |
//!
//! A block is as many rows as these lines ask for, where it has any:
//!
//! | field | what it says |
//! |---|---|
//! | `each TEXT\|TEXT\|..` | a row in which `\1` stands for the first text, `\2` for the second |
//! | `count FIRST LAST` | a row for each number from the first to the last, for which `\1` stands |
//!
//! Texts get names before the rows of their block are tried, and keep them in the blocks after it:
//!
//! | field | what it says |
//! |---|---|
//! | `text NAME TEXT` | a text and its name |
//! | `more NAME COUNT TEXT` | puts a text behind the one of that name, so many times, where `\1` is how often it was put there before |
//! | `load NAME FILE` | the name of what a file beside this one says |
//!
//! A text goes to the end of its line, or to the next bar in `each`. `\n`, `\r`, `\t`, `\\` and `\x` with two digits, in capitals
//! where they are letters, are single bytes, so a blank at the end is `\x20`, and a bar in `each` is `\x7C`. After `$` a text
//! is the one of that name.
#![tactic(auto)]

mod escape;
mod fault;
mod line;
mod programs;
mod session;
mod texts;
mod trial;

use qc_io::{FolderShelf, read_all};
use std::process::ExitCode;
use std::{env, io, str};
use trial::Trial;

/// The most bytes of a file of rows.
const LIMIT: u64 = 4_194_304;

fn main(rt: HostRuntime) -> ExitCode {
    match try_all(&rt) {
        Ok(true) => ExitCode::from(0),
        Ok(false) => ExitCode::from(1),
        Err(_) => ExitCode::from(2),
    }
}

// Whether all rows of all files that the words name are as wanted.
fn try_all(rt: &HostRuntime) -> io::Result<bool> {
    let mut is_all = true;
    let names = env::args(rt)?.skip(1);
    for name in names {
        is_all = try_file(rt, name.as_str())? && is_all;
    }
    Ok(is_all)
}

fn try_file(rt: &HostRuntime, name: &str) -> io::Result<bool> {
    let alloc = rt.alloc();
    let mut folder = FolderShelf::new(rt);
    let Ok(bytes) = read_all(alloc, &mut folder, name, LIMIT) else {
        return refused(rt, name, "it can't be read");
    };
    let Ok(text) = str::from_utf8(&bytes) else {
        return refused(rt, name, "it is no UTF-8");
    };
    let mut trial = Trial::new(alloc);
    trial.try_rows(text, &mut folder)?;
    tell(rt, name, &trial)
}

fn refused(rt: &HostRuntime, name: &str, why: &str) -> io::Result<bool> {
    println!(rt; "{name}: {why}")?;
    Ok(false)
}

fn tell(rt: &HostRuntime, name: &str, trial: &Trial) -> io::Result<bool> {
    for told in &trial.told {
        println!(rt; "{name}:{told}")?;
    }
    let rows = trial.rows;
    if trial.told.is_empty() {
        println!(rt; "{name}: {rows} rows, all as wanted")?;
    } else {
        println!(rt; "{name}: {rows} rows, {} faults", trial.told.len())?;
    }
    Ok(trial.told.is_empty())
}
