//! Texts: how one is written in a line, and those that have names.
use crate::escape::decode;
use crate::fault::Fault;
use crate::line::cut;
use qc_io::{Shelf, read_all};
use std::alloc::{AllocError, Global};
use std::collections::BTreeMap;

/// The most bytes of a file that is loaded.
const LIMIT: u64 = 4_194_304;

/// The texts that have names so far.
#[derive(Drop)]
pub(crate) struct Texts {
    alloc: Global,
    named: BTreeMap<String, Vec<u8>>,
}

impl Texts {
    pub(crate) fn new(alloc: Global) -> Self {
        Texts {
            alloc,
            named: BTreeMap::new(alloc),
        }
    }

    /// The bytes that a text stands for: after `$` those of the text that it names, else its own.
    pub(crate) fn bytes_of(&self, text: &str, parts: &[Vec<u8>]) -> Result<Vec<u8>, Fault> {
        let mut bytes = Vec::new(self.alloc);
        self.put(text, parts, &mut bytes)?;
        Ok(bytes)
    }

    fn put(&self, text: &str, parts: &[Vec<u8>], into: &mut Vec<u8>) -> Result<(), Fault> {
        match text.strip_prefix('$') {
            Some(name) => self.copy(name, into),
            None => decode(text, parts, into),
        }
    }

    fn copy(&self, name: &str, into: &mut Vec<u8>) -> Result<(), Fault> {
        match self.named.get(name) {
            Some(bytes) => Ok(into.extend_from_slice(bytes)?),
            None => Err(Fault::UnknownText),
        }
    }

    fn insert(&mut self, name: &str, bytes: Vec<u8>) -> Result<(), Fault> {
        let key = String::from_str(self.alloc, name)?;
        self.named.insert(key, bytes)?;
        Ok(())
    }

    /// Gives a text the name.
    pub(crate) fn name(&mut self, rest: &str) -> Result<(), Fault> {
        let (name, text) = cut(rest);
        let bytes = self.bytes_of(text, &[])?;
        self.insert(name, bytes)
    }

    /// Puts a text behind the one that has the name, so many times.
    pub(crate) fn repeat(&mut self, rest: &str) -> Result<(), Fault> {
        let (name, more) = cut(rest);
        let (count, text) = cut(more);
        let times = number_of(count)?;
        let mut bytes = Vec::new(self.alloc);
        self.copy(name, &mut bytes)?;
        for number in 0..times {
            let parts = [digits_of(self.alloc, number)?];
            self.put(text, &parts, &mut bytes)?;
        }
        self.insert(name, bytes)
    }

    /// Gives a file's text the name.
    pub(crate) fn load<S: Shelf>(&mut self, rest: &str, folder: &mut S) -> Result<(), Fault> {
        let (name, file) = cut(rest);
        let bytes = read_all(self.alloc, folder, file, LIMIT)?;
        self.insert(name, bytes)
    }
}

pub(crate) fn number_of(digits: &str) -> Result<u64, Fault> {
    match digits.parse::<u64>() {
        Ok(number) => Ok(number),
        Err(_) => Err(Fault::NoNumber),
    }
}

pub(crate) fn digits_of(alloc: Global, number: u64) -> Result<Vec<u8>, AllocError> {
    let digits = format!(in alloc; "{number}")?;
    Ok(digits.into_bytes())
}
