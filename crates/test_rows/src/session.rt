//! One row: its lines are done one after the other, and what they want is compared at once.
use crate::fault::Fault;
use crate::line::{Field, Line, cut};
use crate::programs::run_program;
use crate::texts::{Texts, number_of};
use qc_io::{MemoryShelf, MemorySink};
use qecode_commands::Status;
use std::alloc::{AllocError, Global};
use std::str;

/// The most bytes that a run may write.
const ROOM: usize = 16_777_216;

/// How many bytes of an answer people are shown at most.
const SHOWN: usize = 400;

/// The file with what the last run wrote.
const WRITTEN: &str = "written";

/// How a run ended, whether a line wanted that, and what it wrote.
#[derive(Drop)]
struct Answer {
    status: Status,
    is_wanted: bool,
    out: MemorySink,
}

/// The files of a row, how its output behaves, and what was answered last. Calls of the output count from 1, so that none
/// is the call 0.
#[derive(Drop)]
pub(crate) struct Session<'t> {
    alloc: Global,
    texts: &'t Texts,
    parts: &'t [Vec<u8>],
    shelf: MemoryShelf,
    takes: usize,
    failing: u64,
    answer: Option<Answer>,
}

impl<'t> Session<'t> {
    /// No file, an output that never fails, and no answer.
    pub(crate) fn new(alloc: Global, texts: &'t Texts, parts: &'t [Vec<u8>]) -> Self {
        Session {
            alloc,
            texts,
            parts,
            shelf: MemoryShelf::new(alloc),
            takes: ROOM,
            failing: 0,
            answer: None,
        }
    }

    /// Does what a line says, or says why the row ends there.
    fn take(&mut self, line: &Line<'_>) -> Result<(), Fault> {
        match line.field {
            None => Err(Fault::UnknownField),
            Some(Field::File) => self.add(line.rest),
            Some(Field::Front) => self.add_front(line.rest),
            Some(Field::ReadFails) => self.fail_read(line.rest),
            Some(Field::WriteFails) => self.fail_write(line.rest),
            Some(Field::Takes) => self.take_at_once(line.rest),
            Some(Field::Run) => self.run(line.rest),
            Some(Field::Status) => self.want_status(line.rest),
            Some(Field::Writes) => self.want_all(line.rest),
            Some(Field::Begins) => self.want_front(line.rest),
            Some(Field::Below) => self.want_lines(line.rest),
            Some(Field::Text | Field::More | Field::Load | Field::Each | Field::Count) => Ok(()),
        }
    }

    fn bytes(&self, text: &str) -> Result<Vec<u8>, Fault> {
        self.texts.bytes_of(text, self.parts)
    }

    fn number(&self, text: &str) -> Result<u64, Fault> {
        let bytes = self.bytes(text)?;
        match str::from_utf8(&bytes) {
            Ok(digits) => number_of(digits),
            Err(_) => Err(Fault::NoNumber),
        }
    }

    fn add(&mut self, rest: &str) -> Result<(), Fault> {
        let (name, text) = cut(rest);
        let bytes = self.bytes(text)?;
        self.shelf.add(name, &bytes)?;
        Ok(())
    }

    fn add_front(&mut self, rest: &str) -> Result<(), Fault> {
        let (name, more) = cut(rest);
        let (count, text) = cut(more);
        let bytes = self.bytes(text)?;
        let end = self.number(count)?.min(bytes.len() as u64);
        self.shelf.add(name, &bytes[..end as usize])?;
        Ok(())
    }

    fn fail_read(&mut self, rest: &str) -> Result<(), Fault> {
        let call = self.number(rest)?;
        self.shelf.fail_at(call)?;
        Ok(())
    }

    fn fail_write(&mut self, rest: &str) -> Result<(), Fault> {
        self.failing = self.number(rest)?;
        Ok(())
    }

    fn take_at_once(&mut self, rest: &str) -> Result<(), Fault> {
        self.takes = self.number(rest)?.min(ROOM as u64) as usize;
        Ok(())
    }

    fn run(&mut self, rest: &str) -> Result<(), Fault> {
        self.check_wanted()?;
        let bytes = self.bytes(rest)?;
        let Ok(text) = str::from_utf8(&bytes) else {
            return Err(Fault::NoWords);
        };
        let (program, rest) = cut(text);
        let words = words_of(self.alloc, rest)?;
        let mut out = sink(self.alloc, self.takes, self.failing)?;
        let ran = run_program(self.alloc, program, &words, &mut self.shelf, &mut out);
        let status = ran.ok_or(Fault::UnknownProgram)?;
        self.shelf.add(WRITTEN, out.bytes())?;
        self.answer = Some(Answer {
            status,
            is_wanted: false,
            out,
        });
        Ok(())
    }

    // Whether a status was wanted of the last run, if there was one.
    fn check_wanted(&self) -> Result<(), Fault> {
        match &self.answer {
            Some(answer) if !answer.is_wanted => Err(Fault::NoStatus),
            _ => Ok(()),
        }
    }

    fn want_status(&mut self, rest: &str) -> Result<(), Fault> {
        let wanted = self.bytes(rest)?;
        let alloc = self.alloc;
        let Some(answer) = &mut self.answer else {
            return Err(Fault::NothingRun);
        };
        answer.is_wanted = true;
        let status = format!(in alloc; "{:?}", answer.status)?;
        same(status.as_bytes(), &wanted, Fault::OtherStatus)
    }

    fn want_all(&self, rest: &str) -> Result<(), Fault> {
        let wanted = self.bytes(rest)?;
        same(self.written()?, &wanted, Fault::OtherText)
    }

    fn want_front(&self, rest: &str) -> Result<(), Fault> {
        let wanted = self.bytes(rest)?;
        let written = self.written()?;
        let end = wanted.len().min(written.len());
        same(&written[..end], &wanted, Fault::OtherText)
    }

    fn want_lines(&self, rest: &str) -> Result<(), Fault> {
        let wanted = self.number(rest)?;
        if lines_in(self.written()?) != wanted.saturating_add(2) {
            return Err(Fault::OtherLines);
        }
        Ok(())
    }

    fn written(&self) -> Result<&[u8], Fault> {
        match &self.answer {
            Some(answer) => Ok(answer.out.bytes()),
            None => Err(Fault::NothingRun),
        }
    }

    fn finish(&self) -> Result<(), Fault> {
        self.written()?;
        self.check_wanted()
    }

    /// What was answered last, as people read it.
    pub(crate) fn told(&self) -> Result<String, AllocError> {
        match &self.answer {
            Some(answer) => told_of(self.alloc, answer),
            None => Ok(String::new(self.alloc)),
        }
    }
}

/// The line at which a row ends before its end, and why.
#[derive(Clone, Copy)]
pub(crate) struct Stop {
    pub(crate) line: usize,
    pub(crate) fault: Fault,
}

/// Where a row of these lines ends before its end.
pub(crate) fn stop_of(session: &mut Session<'_>, lines: &[Line<'_>]) -> Option<Stop> {
    let mut last = 0;
    for line in lines {
        last = line.number;
        if let Err(fault) = session.take(line) {
            return Some(Stop { line: last, fault });
        }
    }
    match session.finish() {
        Ok(()) => None,
        Err(fault) => Some(Stop { line: last, fault }),
    }
}

fn told_of(alloc: Global, answer: &Answer) -> Result<String, AllocError> {
    let status = answer.status;
    let written = answer.out.bytes();
    let front = written[..written.len().min(SHOWN)].escape_ascii();
    format!(in alloc; "; answered {status:?} and wrote: {front}")
}

fn lines_in(text: &[u8]) -> u64 {
    let mut lines = 0_u64;
    for byte in text {
        if *byte == b'\n' {
            lines = lines.saturating_add(1);
        }
    }
    lines
}

fn same(answered: &[u8], wanted: &[u8], fault: Fault) -> Result<(), Fault> {
    if answered == wanted {
        Ok(())
    } else {
        Err(fault)
    }
}

// An output that takes so many bytes at once, and of which this call fails.
fn sink(alloc: Global, takes: usize, failing: u64) -> Result<MemorySink, AllocError> {
    let mut out = MemorySink::new(alloc, takes.max(1), ROOM)?;
    out.fail_at(failing)?;
    Ok(out)
}

// The words between blanks; `""` is the empty one.
fn words_of(alloc: Global, text: &str) -> Result<Vec<&str>, AllocError> {
    let mut words = Vec::new(alloc);
    for word in text.split(' ') {
        if word == "\"\"" {
            words.push("")?;
        } else if !word.is_empty() {
            words.push(word)?;
        }
    }
    Ok(words)
}
