//! What a search goes over, and what it has written and learnt.
use crate::hints::Hints;
use crate::known::KnownNodes;
use crate::lines::Lines;
use crate::patience::Patience;
use crate::pools::Pools;
use crate::replies::Replies;
use crate::shape::{Shape, note_shapes};
use crate::stop::Stop;
use dense_board::Board;
use qc_model::ScopeId;
use std::alloc::Global;

/// What a search goes over, and what it has written and learnt.
#[derive(Drop)]
pub struct Search<'p> {
    pub alloc: Global,
    pub board: Board<'p>,
    pub lines: Lines,
    pub hints: Hints,
    pub known: KnownNodes,
    // for each scope how its choices are bounded while they are open
    pub shapes: Vec<Shape>,
    pub pools: Pools,
    pub replies: Replies,
    pub turns: u64,
    // the value of the first scope's condition
    pub own: Option<i64>,
    // the last scope has shown a value that is of no use to the scope above, so a reply stands for its node
    pub replied: bool,
    pub patience: Patience,
}

impl<'p> Search<'p> {
    /// A search of the board's game that has so many turns, and has written nothing.
    pub fn new(alloc: Global, board: Board<'p>, turns: u64) -> Result<Search<'p>, Stop> {
        let mut search = Search::without_room(alloc, board, turns);
        match search.make_room() {
            Ok(()) => Ok(search),
            Err(stop) => Err(stop),
        }
    }

    // The same, without room for what it learns.
    fn without_room(alloc: Global, board: Board<'p>, turns: u64) -> Search<'p> {
        Search {
            alloc,
            board,
            lines: Lines::new(alloc),
            hints: Hints::new(alloc),
            known: KnownNodes::new(alloc),
            shapes: Vec::new(alloc),
            pools: Pools::new(alloc),
            replies: Replies::new(alloc),
            turns,
            own: None,
            replied: false,
            patience: Patience::new(),
        }
    }

    // Apart from who owns the search, which would have it to let go at each of these calls.
    fn make_room(&mut self) -> Result<(), Stop> {
        let alloc = self.alloc;
        let variables = self.board.variables();
        let scopes = self.board.scopes();
        self.known.make_room(alloc)?;
        self.hints.make_room(alloc, variables, scopes)?;
        note_shapes(&mut self.shapes, &self.board)?;
        self.pools.make_room(alloc, scopes)?;
        Ok(())
    }

    /// Saves the box. Where a variable has no value left, the search is out of its way.
    pub fn save(&mut self) -> Result<(), Stop> {
        if self.board.save()? {
            Ok(())
        } else {
            Err(Stop::Spent)
        }
    }

    /// How the scope's choices are bounded while they are open.
    pub fn shape(&self, scope: ScopeId) -> Shape {
        match self.shapes.get(scope.0 as usize) {
            None => Shape::No,
            Some(shape) => *shape,
        }
    }
}
