//! Nodes that take long, and begin again.
//!
//! A scope takes fewer lines where a good value bounds it from its beginning on. So where the first scope, one of the player's with a wish
//! that later scopes decide, reaches more after many turns, it begins again at once, and goes into the tuple that reached it first. What
//! it went through before is lost, so next it takes twice as many turns at least; and after a limit it doesn't begin again. Where the
//! last scope takes long, it begins again below a bound that a free search finds (`scouting`).
//!
//! A leader who wants much goes through the greatest values first. That isn't always best, so after some turns the first scope tries the
//! other order for as many, and then keeps to that which reached more.
use crate::place::after;
use crate::scouting::may_scout;
use crate::search::Search;
use crate::stop::Stop;
use dense_board::Board;
use qc_model::{ScopeId, Sense};

/// How many turns a node of the last scope takes before it is said to take long.
const LONG: u64 = 500;

/// How many turns the first scope takes at least before it begins again for the first time.
const FIRST_STRETCH: u64 = 500;

/// After so many turns it doesn't begin again any more, since what that saves is less than what is gone through once more.
const LAST_STRETCH: u64 = 8_000;

/// How many turns the first scope takes for each order that it tries.
const TRY: u64 = 1_000;

/// Which orders of its values the first scope has tried.
#[derive(Clone, Copy, PartialEq, Eq)]
enum Tried {
    Nothing,
    Falling,
    Both,
}

/// When nodes begin again.
#[derive(Clone, Copy)]
pub struct Patience {
    // how many turns are left where the node of the last scope is said to take long
    slow: Option<u64>,
    // how many were left when the first scope began
    begun: u64,
    // how many the first scope takes at least before it begins again
    stretch: u64,
    // what it had reached when it began
    reached: Option<i64>,
    tried: Tried,
    // how many turns are left where its try ends
    try_ends: Option<u64>,
    // it goes through the least values first, though it wants much
    rises: bool,
    // the first scope is on its way to the best tuple that was reached
    goes_back: bool,
}

impl Patience {
    pub fn new() -> Patience {
        Patience {
            slow: None,
            begun: 0,
            stretch: FIRST_STRETCH,
            reached: None,
            tried: Tried::Nothing,
            try_ends: None,
            rises: false,
            goes_back: false,
        }
    }
}

/// Whether it is a scope of the player with a wish, and not the last one.
pub fn is_leader(board: &Board, scope: ScopeId) -> bool {
    board.is_players(scope)
        && after(scope).0 as usize != board.scopes()
        && !board.demanded(after(scope)).is_empty()
}

/// Whether it is such a scope, and more is better.
pub fn wants_much(board: &Board, scope: ScopeId) -> bool {
    is_leader(board, scope)
        && match board.demanded(after(scope)).first() {
            None => false,
            Some(first) => first.sense == Sense::Max,
        }
}

impl<'p> Search<'p> {
    /// A node of the scope begins.
    pub fn watch(&mut self, scope: ScopeId) {
        if may_scout(&self.board, scope) {
            self.patience.slow = self.turns.checked_sub(LONG);
        }
        if scope.0 == 0 {
            self.patience.begun = self.turns;
            self.patience.try_ends = self.end_of_try();
        }
    }

    // How many turns are left where the try of the first scope ends that begins, if it is one.
    fn end_of_try(&self) -> Option<u64> {
        if self.patience.tried == Tried::Both || !wants_much(&self.board, ScopeId(0)) {
            return None;
        }
        self.turns.checked_sub(TRY)
    }

    /// Whether the scope goes through the least values first, though it wants much.
    pub fn rises(&self, scope: ScopeId) -> bool {
        scope.0 == 0 && self.patience.rises
    }

    /// A node of the last scope ends, or begins again.
    pub fn unwatch(&mut self) {
        self.patience.slow = None;
    }

    /// The first scope begins again, and goes to the best tuple that it has reached.
    pub fn go_back(&mut self) {
        self.unwatch();
        self.replied = false;
        self.patience.goes_back = true;
        self.patience.reached = self.board.incumbent(ScopeId(0));
    }

    /// Whether the scope is on its way to the best tuple that it has reached.
    pub fn goes_back(&self, scope: ScopeId) -> bool {
        scope.0 == 0 && self.patience.goes_back
    }

    /// A leaf of the scope was found, which had reached so much before. Where that is more now, its tuple is kept, and the first scope may
    /// begin again.
    pub fn note_reached(&mut self, scope: ScopeId, before: Option<i64>) -> Result<(), Stop> {
        if scope.0 > 0 || !is_leader(&self.board, scope) {
            return Ok(());
        }
        self.patience.goes_back = false;
        let now = self.board.incumbent(scope);
        if now == before {
            return Ok(());
        }
        self.hints.note(&self.board, scope);
        let taken = self.patience.begun.saturating_sub(self.turns);
        if now == self.patience.reached || taken < self.patience.stretch || taken > LAST_STRETCH {
            return Ok(());
        }
        self.patience.stretch = taken.saturating_mul(2);
        Err(Stop::Again)
    }

    // A try of the first scope is over. After the second, the order is that which reached more.
    fn end_try(&mut self) -> Stop {
        match self.patience.tried {
            Tried::Nothing => {
                self.patience.tried = Tried::Falling;
                self.patience.rises = true;
            }
            Tried::Falling => {
                self.patience.tried = Tried::Both;
                self.patience.rises = self.board.incumbent(ScopeId(0)) != self.patience.reached;
            }
            Tried::Both => {}
        }
        Stop::Again
    }

    /// Takes a turn.
    pub fn spend(&mut self) -> Result<(), Stop> {
        if self.turns == 0 {
            return Err(Stop::Spent);
        }
        self.turns -= 1;
        if self.patience.slow == Some(self.turns) {
            return Err(Stop::Slow);
        }
        if self.patience.try_ends == Some(self.turns) {
            return Err(self.end_try());
        }
        Ok(())
    }
}
