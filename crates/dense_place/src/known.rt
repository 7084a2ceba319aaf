//! Nodes that come again.
use crate::lines::Lines;
use crate::place::{Place, Rival};
use crate::search::Search;
use crate::stop::Stop;
use dense_board::Board;
use joins::Found;
use std::alloc::{AllocError, Global};

/// How many nodes are found again at most, each at a place by the number of its position.
const PLACES: usize = 65_536;

/// How many bytes the lines of a node have at least that is kept.
const LEAST_BYTES: usize = 16;

/// A node whose lines are kept by themselves: its scope, the horizon that was in force, the least value of each variable where it
/// stood, and what it came to.
#[derive(Drop)]
pub struct KnownNode {
    pub scope: u8,
    pub horizon: Option<u8>,
    pub position: Vec<i64>,
    pub found: Found,
    pub vector: Vec<i64>,
    pub lines: Vec<u8>,
}

/// All such nodes.
#[derive(Drop)]
pub struct KnownNodes {
    // for each place that of its node in the list and one, or 0
    places: Vec<u32>,
    pub nodes: Vec<KnownNode>,
}

impl KnownNodes {
    /// Without room for a node.
    pub fn new(alloc: Global) -> KnownNodes {
        KnownNodes {
            places: Vec::new(alloc),
            nodes: Vec::new(alloc),
        }
    }

    /// Makes room for the place of each number.
    pub fn make_room(&mut self, alloc: Global) -> Result<(), AllocError> {
        self.places = vec![in alloc; 0u32; PLACES]?;
        Ok(())
    }

    // The node that stands at the place of a number.
    fn at(&self, number: u64) -> Option<usize> {
        let at = *self.places.get(place_of(number))?;
        if at == 0 { None } else { Some(at as usize - 1) }
    }
}

// The node at a place, with the lines from `begin` on, which are taken out.
fn node_from(
    alloc: Global,
    board: &Board,
    lines: &mut Lines,
    place: Place,
    begin: usize,
    found: Found,
) -> Result<KnownNode, Stop> {
    Ok(KnownNode {
        scope: place.scope.0,
        horizon: place.horizon,
        position: Vec::from_slice(alloc, board.position())?,
        found,
        vector: Vec::from_slice(alloc, board.vector())?,
        lines: lines.take_from(begin)?,
    })
}

// Whether what a node came to tells all that counts beside what the scope above has reached. One that was left as of no use there tells
// nothing where less was reached.
fn serves(found: Found, rival: Option<Rival>) -> bool {
    match found {
        Found::Lost => true,
        Found::Exact => true,
        Found::Unknown => false,
        Found::AtMost(value) => match rival {
            None => false,
            Some(rival) => rival.beats(value),
        },
    }
}

fn place_of(number: u64) -> usize {
    (number >> 48) as usize
}

impl<'p> Search<'p> {
    // The number of the place's position, where its node may be told again.
    fn number_of(&mut self, place: Place) -> Option<u64> {
        if place.bounded || place.scope.0 == 0 {
            return None;
        }
        self.board.position_number(place.scope)
    }

    /// Puts `a K` where node K is known and looks the same, and says what it came to.
    pub fn look_up(&mut self, place: Place) -> Result<Option<Found>, Stop> {
        let Some(number) = self.number_of(place) else {
            return Ok(None);
        };
        let Some(at) = self.known.at(number) else {
            return Ok(None);
        };
        let Some(node) = self.known.nodes.get(at) else {
            return Ok(None);
        };
        if node.scope != place.scope.0
            || node.horizon != place.horizon
            || !serves(node.found, place.rival)
            || !self.board.is_like(place.scope, node.position.as_slice())
        {
            return Ok(None);
        }
        self.board.hand_out(node.vector.as_slice());
        let found = node.found;
        self.lines.put_line(b"a", &[at as i64])?;
        Ok(Some(found))
    }

    /// Keeps the lines of a node by themselves, where it may be told again, and puts `a K` in their place.
    pub fn remember(&mut self, place: Place, begin: usize, found: Found) -> Result<(), Stop> {
        if self.lines.len().saturating_sub(begin) < LEAST_BYTES {
            return Ok(());
        }
        let Some(number) = self.number_of(place) else {
            return Ok(());
        };
        let at = self.known.nodes.len();
        if at >= PLACES {
            return Ok(());
        }
        let node = node_from(
            self.alloc,
            &self.board,
            &mut self.lines,
            place,
            begin,
            found,
        )?;
        self.known.nodes.push(node)?;
        if let Some(kept) = self.known.places.get_mut(place_of(number)) {
            *kept = at as u32 + 1;
        }
        self.lines.put_line(b"a", &[at as i64])
    }
}
