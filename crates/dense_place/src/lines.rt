//! The lines written so far, as the bytes of their text.
use crate::stop::Stop;
use itoa::Buffer;
use qc_model::VarId;
use std::alloc::Global;

/// The most bytes that are written.
const MOST_BYTES: usize = 1_000_000_000;

/// Lines, each with its line feed. Those of a named node are kept elsewhere; a line `a K` stands for node K of these, from 0 on.
#[derive(Drop)]
pub struct Lines {
    bytes: Vec<u8>,
}

impl Lines {
    pub fn new(alloc: Global) -> Lines {
        Lines {
            bytes: Vec::new(alloc),
        }
    }

    pub fn len(&self) -> usize {
        self.bytes.len()
    }

    pub fn as_slice(&self) -> &[u8] {
        self.bytes.as_slice()
    }

    /// Puts bytes that are whole lines, or the beginning or the end of one.
    pub fn put(&mut self, bytes: &[u8]) -> Result<(), Stop> {
        if self.bytes.len() >= MOST_BYTES {
            return Err(Stop::Spent);
        }
        self.bytes.extend_from_slice(bytes)?;
        Ok(())
    }

    fn put_number(&mut self, number: i64) -> Result<(), Stop> {
        let mut buffer = Buffer::new();
        self.bytes.push(b' ')?;
        self.put(buffer.format(number).as_bytes())
    }

    /// Puts numbers, each after a space.
    pub fn put_numbers(&mut self, numbers: &[i64]) -> Result<(), Stop> {
        for number in numbers {
            self.put_number(*number)?;
        }
        Ok(())
    }

    /// Puts a line that has numbers.
    pub fn put_line(&mut self, letter: &[u8], numbers: &[i64]) -> Result<(), Stop> {
        self.put(letter)?;
        self.put_numbers(numbers)?;
        self.put(b"\n")
    }

    /// Puts `v X`.
    pub fn put_branch(&mut self, x: VarId) -> Result<(), Stop> {
        self.put_line(b"v", &[i64::from(x.0) + 1])
    }

    /// Puts that the values from the first to the last are skipped.
    pub fn put_skipped(&mut self, first: i64, last: i64) -> Result<(), Stop> {
        if first < last {
            self.put_line(b"r", &[last])?;
        }
        self.put(b"s\n")
    }

    /// Drops what was put from a place on.
    pub fn drop_from(&mut self, at: usize) {
        self.bytes.truncate(at);
    }

    /// Takes what was put from a place on.
    pub fn take_from(&mut self, at: usize) -> Result<Vec<u8>, Stop> {
        let at = at.min(self.bytes.len());
        Ok(self.bytes.split_off(at)?)
    }
}
