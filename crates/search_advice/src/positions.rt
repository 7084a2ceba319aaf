//! A table of tuples that ended a position.
//!
//! Each number of a position has one place, which the last tuple that came with such a number has; what was there goes. Room for
//! the values of a tuple is taken where its place gets its first one, so that a short search takes little memory.
use std::alloc::{AllocError, Global};

/// How many tuples are kept.
const PLACES: usize = 8_192;

/// How many bits of a position's number are left out of its place.
const REST_BITS: u32 = 51;

/// The numbers of the positions, 0 where none came yet, where the values of each one's tuple begin, and these values, as many
/// for each as the widest tuple has.
#[derive(Drop)]
pub(crate) struct Positions {
    numbers: Vec<u64>,
    starts: Vec<usize>,
    values: Vec<i64>,
    width: usize,
}

impl Positions {
    /// A table of tuples of at most so many values; one of tuples without values keeps nothing. It fails only where memory
    /// runs out.
    pub(crate) fn new(alloc: Global, width: usize) -> Result<Positions, AllocError> {
        let places = if width > 0 { PLACES } else { 0 };
        Ok(Positions {
            numbers: vec![in alloc; 0u64; places]?,
            starts: vec![in alloc; 0usize; places]?,
            values: Vec::new(alloc),
            width,
        })
    }

    /// Whether there is a tuple for the position.
    pub(crate) fn has(&self, number: u64) -> bool {
        match self.numbers.get(place(number)) {
            Some(kept) => *kept == number,
            None => false,
        }
    }

    /// The value at a place of the position's tuple.
    pub(crate) fn value(&self, number: u64, at: usize) -> i64 {
        match self.values.get(self.value_place(number, at)) {
            Some(value) => *value,
            None => 0,
        }
    }

    /// From now on the position's tuple is the one of which each value is put next. Where there is no memory for it, it isn't
    /// kept.
    pub(crate) fn keep(&mut self, number: u64) {
        if !self.has_room(number) && self.add_room(number).is_err() {
            return;
        }
        if let Some(kept) = self.numbers.get_mut(place(number)) {
            *kept = number;
        }
    }

    /// Whether the place of the position has room for a tuple, or there is no such place.
    fn has_room(&self, number: u64) -> bool {
        self.numbers.get(place(number)) != Some(&0)
    }

    fn add_room(&mut self, number: u64) -> Result<(), AllocError> {
        let start = self.values.len();
        for _ in 0..self.width {
            self.values.push(0)?;
        }
        if let Some(kept) = self.starts.get_mut(place(number)) {
            *kept = start;
        }
        Ok(())
    }

    /// Puts the value at a place of the position's tuple.
    pub(crate) fn put(&mut self, number: u64, at: usize, value: i64) {
        let place = self.value_place(number, at);
        if let Some(kept) = self.values.get_mut(place) {
            *kept = value;
        }
    }

    fn value_place(&self, number: u64, at: usize) -> usize {
        match self.starts.get(place(number)) {
            Some(start) => start.wrapping_add(at),
            None => at,
        }
    }
}

fn place(number: u64) -> usize {
    (number >> REST_BITS) as usize
}
