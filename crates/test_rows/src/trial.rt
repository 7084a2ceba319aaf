//! A file of rows: its blocks, and the rows of each.
use crate::fault::Fault;
use crate::line::{Field, Line, cut, lines_of};
use crate::session::{Session, stop_of};
use crate::texts::{Texts, digits_of, number_of};
use qc_io::Shelf;
use std::alloc::{AllocError, Global};

/// The texts that have names so far, how many rows were tried, and what is told of those that aren't as wanted.
#[derive(Drop)]
pub(crate) struct Trial {
    alloc: Global,
    texts: Texts,
    pub(crate) rows: usize,
    pub(crate) told: Vec<String>,
}

impl Trial {
    /// No text, and no row yet.
    pub(crate) fn new(alloc: Global) -> Self {
        Trial {
            alloc,
            texts: Texts::new(alloc),
            rows: 0,
            told: Vec::new(alloc),
        }
    }

    /// Tries the rows of a file's text. What it loads stands in the folder.
    pub(crate) fn try_rows<S: Shelf>(
        &mut self,
        text: &str,
        folder: &mut S,
    ) -> Result<(), AllocError> {
        let mut first = 1_usize;
        for block in text.split("\n\n") {
            let lines = lines_of(self.alloc, block, first)?;
            self.name_texts(&lines, folder)?;
            self.try_block(&lines)?;
            let height = block.split('\n').count();
            first = first.saturating_add(height).saturating_add(1);
        }
        Ok(())
    }

    fn name_texts<S: Shelf>(
        &mut self,
        lines: &[Line<'_>],
        folder: &mut S,
    ) -> Result<(), AllocError> {
        for line in lines {
            let named = self.name_text(line, folder);
            self.tell_fault(line.number, named)?;
        }
        Ok(())
    }

    fn name_text<S: Shelf>(&mut self, line: &Line<'_>, folder: &mut S) -> Result<(), Fault> {
        match line.field {
            Some(Field::Text) => self.texts.name(line.rest),
            Some(Field::More) => self.texts.repeat(line.rest),
            Some(Field::Load) => self.texts.load(line.rest, folder),
            _ => Ok(()),
        }
    }

    // A block is one row, or as many as its lines ask for, or none where it names texts alone.
    fn try_block(&mut self, lines: &[Line<'_>]) -> Result<(), AllocError> {
        let mut is_row = false;
        for line in lines {
            match line.field {
                Some(Field::Each | Field::Count) => return self.try_more(lines),
                Some(Field::Text | Field::More | Field::Load) => {}
                _ => is_row = true,
            }
        }
        match lines {
            [first, ..] if is_row => self.try_row(first.number, lines, &[]),
            _ => Ok(()),
        }
    }

    fn try_more(&mut self, lines: &[Line<'_>]) -> Result<(), AllocError> {
        for line in lines {
            let tried = match line.field {
                Some(Field::Each) => self.try_parts(line, lines),
                Some(Field::Count) => self.try_numbers(line, lines),
                _ => Ok(()),
            };
            self.tell_fault(line.number, tried)?;
        }
        Ok(())
    }

    fn try_parts(&mut self, line: &Line<'_>, lines: &[Line<'_>]) -> Result<(), Fault> {
        let mut parts = Vec::new(self.alloc);
        for part in line.rest.split('|') {
            parts.push(self.texts.bytes_of(part, &[])?)?;
        }
        self.try_row(line.number, lines, &parts)?;
        Ok(())
    }

    fn try_numbers(&mut self, line: &Line<'_>, lines: &[Line<'_>]) -> Result<(), Fault> {
        let (first, last) = cut(line.rest);
        let end = number_of(last)?.saturating_add(1);
        for number in number_of(first)?..end {
            let parts = [digits_of(self.alloc, number)?];
            self.try_row(line.number, lines, &parts)?;
        }
        Ok(())
    }

    fn try_row(
        &mut self,
        number: usize,
        lines: &[Line<'_>],
        parts: &[Vec<u8>],
    ) -> Result<(), AllocError> {
        self.rows = self.rows.saturating_add(1);
        let mut session = Session::new(self.alloc, &self.texts, parts);
        let Some(stop) = stop_of(&mut session, lines) else {
            return Ok(());
        };
        let answer = session.told()?;
        let told = format!(in self.alloc; "{number}: line {}: {}{answer}", stop.line, stop.fault)?;
        self.told.push(told)?;
        Ok(())
    }

    fn tell_fault(&mut self, number: usize, done: Result<(), Fault>) -> Result<(), AllocError> {
        if let Err(fault) = done {
            self.told
                .push(format!(in self.alloc; "{number}: {fault}")?)?;
        }
        Ok(())
    }
}
