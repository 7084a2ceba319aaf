//! Reading where nodes are remembered: a node that comes again is passed over.
//!
//! A node is remembered only where its text lies whole in the piece that is read, so nothing is kept of a piece but what the
//! memory has of it.
ghost use Rattle.std.specs.Prelude.{◌≡◌, ◌⊎◌, ◌≤◌, ◌<◌, ◌+◌, ◌-◌, ◌^◌, ◌++◌, ◌∷◌, [], None, Some, length, take, drop, IfSome, IfNone, IsTrue, ℕ, List};
ghost use Rattle.likeness.specs.Likeness.{IsLike, line_looks};
ghost use Rattle.check_memory.specs.Known.{IsMet};
ghost use Rattle.check_lines.specs.Machine.{game_of, IsReady};
ghost use Rattle.check_lines.specs.Passed.{IsDueIn};
ghost use Rattle.check_lines.specs.declared.open.Due.TheVariants as due_of;
ghost use Rattle.qc_check.specs.Checking.{IsChecking};
ghost use Rattle.qc_check.specs.Keeping.{AreStartsAt, WasGiven, IsKeeping, IsRead, IsSettling, MayEnd, values_due};
ghost use Rattle.qc_check.specs.Places.{StartHeld};

use crate::progress::Checker;
use crate::starts::Starts;
use check_lines::{Machine, NodeDue};
use check_memory::{LEAST_SIZE, MOST_SIZE, Met, NodeMemory};
use likeness::is_won;
use proof_tree::Line;
use qc_model::ScopeId;

/// How many nodes and branches may stand above one another.
const DEEPEST: usize = 1_000;

/// Where the line removes values of a variable that isn't looked at from the last node's scope on, no node is remembered.
#[inline(always)]
fn see(memory: &NodeMemory, starts: &mut Starts, line: Line)
    ensures { (starts.new ≡ []) ⊎ ((starts.new ≡ starts.old) × ((s : StartHeld) (more : List StartHeld) → starts.old ≡ s ∷ more → IsTrue (line_looks memory.now s.start.node.scope line))) }
{
    let Line::Prune { x, .. } = line else {
        return;
    };
    let Some(start) = starts.last() else {
        return;
    };
    if !memory.looks_at(ScopeId(start.node.scope), x) {
        starts.clear();
    }
}

/// Keeps the node that began last, where it has ended with the bytes up to this place, and is won or lost.
fn keep_node(memory: &mut NodeMemory, machine: &Machine, starts: &Starts, bytes: &[u8], at: usize)
    requires ready { IsReady machine.now }
    requires game { memory.old ≡ game_of machine.now }
    requires within { at ≤ length bytes.now }
    requires stands { AreStartsAt MayEnd machine.now (take at bytes.now) starts.now }
    ensures { memory.new ≡ memory.old }
{
    let Some(start) = starts.last() else {
        return;
    };
    if start.node.depth != machine.depth() || start.at > at {
        return;
    }
    let text = &bytes[start.at..at];
    if text.len() < LEAST_SIZE || text.len() > MOST_SIZE || !memory.is_plain() {
        return;
    }
    let Some(ended) = machine.node_ended() else {
        return;
    };
    let Some(won) = is_won(ended.found) else {
        return;
    };
    // as many turns as are counted at most may be more
    if ended.turns == u64::MAX {
        return;
    }
    let met = Met {
        won,
        turns: ended.turns.saturating_sub(start.node.turns),
        depth: start.node.depth,
        size: text.len(),
    };
    let node = start.node;
    memory.keep(
        node.scope,
        node.horizon,
        start.number,
        starts.last_values(),
        met,
        text,
    );
}

impl<'p> Checker<'p> {
    /// Leaves a node that has ended with the bytes up to this place, and keeps it.
    fn end_node(&mut self, bytes: &[u8], at: usize)
        requires closed { self.old.machine.due ≡ due_of.Closed }
        requires ready { IsReady self.old.machine }
        requires within { at ≤ length bytes.now }
        requires some { (before : List ℕ) × IsSettling self.old before bytes.now at }
        ensures settling { (before : List ℕ) → IsSettling self.old before bytes.now at → IsSettling self.new before bytes.now at }
        ensures ready { IsReady self.new.machine }
        ensures same { game_of self.new.machine ≡ game_of self.old.machine }
        ensures read { self.new.read ≡ self.old.read }
        ensures stop { self.new.stop ≡ self.old.stop }
        ensures fewer { self.new.machine.due ≡ due_of.Closed → length self.new.machine.nesting < length self.old.machine.nesting }
    {
        keep_node(&mut self.memory, &self.machine, &self.starts, bytes, at);
        let depth = self.machine.depth();
        self.starts.keep_below(depth);
        self.machine.leave_node();
    }

    /// Leaves all nodes that have ended with the bytes up to this place, and keeps them.
    fn end_nodes(&mut self, bytes: &[u8], at: usize)
        requires ready { IsReady self.old.machine }
        requires within { at ≤ length bytes.now }
        requires some { (before : List ℕ) × IsSettling self.old before bytes.now at }
        ensures keeping { (before : List ℕ) → IsSettling self.old before bytes.now at → IsKeeping self.new before bytes.now at }
        ensures ready { IsReady self.new.machine }
        ensures same { game_of self.new.machine ≡ game_of self.old.machine }
        ensures read { self.new.read ≡ self.old.read }
        ensures stop { self.new.stop ≡ self.old.stop }
    {
        while self.machine.is_closed() {
            self.end_node(bytes, at);
        }
        match self.machine.open_depth() {
            Some(depth) => self.starts.keep_below(depth.saturating_add(1)),
            None => self.starts.clear(),
        }
    }

    /// What is known of the node that is due, with which this text begins, and the number of its position; None where no node
    /// of its scope is kept, or its box isn't fresh.
    fn look_up(&self, due: NodeDue, text: &[u8]) -> Option<(u64, Option<Met>)>
        requires ready { IsReady self.now.machine }
        requires due { IsDueIn self.now.machine due }
        ensures like { IfSome result (λ r. IsLike (game_of self.now.machine) due.scope (values_due self.now.machine) self.now.machine.remains.box) }
        ensures met { IfSome result (λ r. IfSome r.1 (λ m. IsMet (game_of self.now.machine) due.scope due.horizon (values_due self.now.machine) text.now m)) }
    {
        let level = self.machine.level(due.scope);
        if !self.machine.is_fresh(level) {
            return None;
        }
        let here = self.machine.values_before(level);
        let Some(number) = self.memory.number(level, due.horizon, here) else {
            return None;
        };
        let met = self.memory.find(level, due.horizon, number, here, text);
        Some((number, met))
    }

    /// Passes over the node that is due, where its text comes next in the piece and it may stand there. Where the piece goes on:
    /// at the same place where it was not passed over.
    fn pass_over(&mut self, due: NodeDue, met: Met, bytes: &[u8], at: usize) -> usize
        requires ready { IsReady self.old.machine }
        requires due { IsDueIn self.old.machine due }
        requires like { IsLike (game_of self.old.machine) due.scope (values_due self.old.machine) self.old.machine.remains.box }
        requires met { IsMet (game_of self.old.machine) due.scope due.horizon (values_due self.old.machine) (drop at bytes.now) met }
        requires within { at ≤ length bytes.now }
        requires room { self.old.read + (length bytes.now - at) ≤ 2 ^ 32 }
        requires some { (before : List ℕ) × IsKeeping self.old before bytes.now at }
        ensures place { (at ≤ result) × (result ≤ length bytes.now) }
        ensures keeping { (before : List ℕ) → IsKeeping self.old before bytes.now at → IsKeeping self.new before bytes.now result }
        ensures ready { IsReady self.new.machine }
        ensures same { game_of self.new.machine ≡ game_of self.old.machine }
        ensures read { self.new.read ≤ self.old.read + (result - at) }
        ensures stop { self.new.stop ≡ self.old.stop }
    {
        if due.depth == 0 || due.depth > met.depth {
            return at;
        }
        if !self.reader.pass_node(DEEPEST.saturating_sub(met.depth)) {
            return at;
        }
        self.read += met.size as u64;
        self.machine.pass_node(met.won, met.turns);
        self.memory.tell_met(due.scope, met.size);
        let next = at + met.size;
        self.end_nodes(bytes, next);
        next
    }

    /// Looks up the node that is due, and passes over it where it is known and comes next in the piece; else it begins here.
    /// Where the piece goes on.
    fn begin_node(&mut self, due: NodeDue, bytes: &[u8], at: usize) -> usize
        requires ready { IsReady self.old.machine }
        requires due { IsDueIn self.old.machine due }
        requires within { at ≤ length bytes.now }
        requires room { self.old.read + (length bytes.now - at) ≤ 2 ^ 32 }
        requires some { (before : List ℕ) × IsKeeping self.old before bytes.now at }
        ensures place { (at ≤ result) × (result ≤ length bytes.now) }
        ensures keeping { (before : List ℕ) → IsKeeping self.old before bytes.now at → IsKeeping self.new before bytes.now result }
        ensures ready { IsReady self.new.machine }
        ensures same { game_of self.new.machine ≡ game_of self.old.machine }
        ensures read { self.new.read ≤ self.old.read + (result - at) }
        ensures stop { self.new.stop ≡ self.old.stop }
    {
        if !self.memory.is_wanted(due.scope) {
            return at;
        }
        self.memory.tell_asked(due.scope);
        match self.look_up(due, &bytes[at..]) {
            None => at,
            Some((_, Some(met))) => self.pass_over(due, met, bytes, at),
            Some((number, None)) => {
                self.open_node(due, number, at);
                at
            }
        }
    }

    /// The node that is due begins at this place of the piece.
    fn open_node(&mut self, due: NodeDue, number: u64, at: usize)
        requires ready { IsReady self.old.machine }
        requires due { IsDueIn self.old.machine due }
        requires like { IsLike (game_of self.old.machine) due.scope (values_due self.old.machine) self.old.machine.remains.box }
        ensures keeping { (before bytes : List ℕ) → at ≤ length bytes → IsKeeping self.old before bytes at → IsKeeping self.new before bytes at }
        ensures ready { IsReady self.new.machine }
        ensures same { game_of self.new.machine ≡ game_of self.old.machine }
        ensures read { self.new.read ≡ self.old.read }
        ensures stop { self.new.stop ≡ self.old.stop }
    {
        if due.depth == 0 {
            return;
        }
        if let Some(last) = self.starts.last() {
            if due.scope <= last.node.scope || due.depth <= last.node.depth {
                return;
            }
        }
        let level = self.machine.level(due.scope);
        let here = self.machine.values_before(level);
        self.starts.push(at, due, number, here);
    }

    /// Reads a whole line that ends at this place of the piece, and what of it comes next and is known. Where the piece goes on.
    fn read_line(&mut self, line: Line, bytes: &[u8], at: usize) -> usize
        requires ready { IsReady self.old.machine }
        requires within { at ≤ length bytes.now }
        requires room { self.old.read + (length bytes.now - at) ≤ 2 ^ 32 }
        requires some { (before : List ℕ) × IsRead self.old before bytes.now at line }
        ensures place { (at ≤ result) × (result ≤ length bytes.now) }
        ensures keeping { (before : List ℕ) → IsRead self.old before bytes.now at line → IsKeeping self.new before bytes.now result }
        ensures ready { IsReady self.new.machine }
        ensures same { game_of self.new.machine ≡ game_of self.old.machine }
        ensures read { self.new.read ≤ self.old.read + (result - at) }
        ensures stop { self.new.stop ≡ self.old.stop }
    {
        see(&self.memory, &mut self.starts, line);
        self.machine.take(line);
        self.end_nodes(bytes, at);
        match self.machine.node_due() {
            Some(due) => self.begin_node(due, bytes, at),
            None => at,
        }
    }

    /// Reads some of the next bytes of a piece, from this place on, where none was a fault. Where the piece goes on; None where
    /// the byte at the place is a fault, and all bytes after it are passed over.
    fn some_kept(&mut self, bytes: &[u8], at: usize) -> Option<usize>
        requires ready { IsReady self.old.machine }
        requires more { at < length bytes.now }
        requires room { self.old.read + (length bytes.now - at) ≤ 2 ^ 32 }
        requires going { self.old.stop ≡ None }
        requires some { (before : List ℕ) × IsKeeping self.old before bytes.now at }
        ensures place { IfSome result (λ n. (at < n) × (n ≤ length bytes.now)) }
        ensures keeping { IfSome result (λ n. (before : List ℕ) → IsKeeping self.old before bytes.now at → IsKeeping self.new before bytes.now n) }
        ensures stopped { IfNone result ((before : List ℕ) → IsKeeping self.old before bytes.now at → IsChecking self.new (before ++ bytes.now)) }
        ensures ready { IsReady self.new.machine }
        ensures same { game_of self.new.machine ≡ game_of self.old.machine }
        ensures read { IfSome result (λ n. self.new.read ≤ self.old.read + (n - at)) }
        ensures last { IfNone result (self.new.read ≤ self.old.read + (length bytes.now - at)) }
        ensures goes_on { IfSome result (λ n. self.new.stop ≡ None) }
    {
        match self.reader.line(&bytes[at..]) {
            Some((line, size)) => {
                self.read += size as u64;
                Some(self.read_line(line, bytes, at + size))
            }
            None => {
                self.starts.clear();
                self.next(bytes[at]);
                match self.stop {
                    None => Some(at + 1),
                    Some(_) => None,
                }
            }
        }
    }

    /// Reads the next bytes, where none was a fault, and remembers nodes. After a fault all are passed over.
    #[inline(never)]
    pub(crate) fn read_keeping(&mut self, bytes: &[u8])
        requires given { WasGiven self.old }
        requires room { self.old.read + length bytes.now ≤ 2 ^ 32 }
        requires going { self.old.stop ≡ None }
        ensures ready { IsReady self.new.machine }
        ensures same { game_of self.new.machine ≡ game_of self.old.machine }
        ensures read { self.new.read ≤ self.old.read + length bytes.now }
        ensures checking { (before : List ℕ) → IsChecking self.old before → IsChecking self.new (before ++ bytes.now) }
    {
        self.starts.clear();
        let mut at = 0;
        while at < bytes.len() {
            match self.some_kept(bytes, at) {
                Some(next) => at = next,
                None => return,
            }
        }
    }
}
