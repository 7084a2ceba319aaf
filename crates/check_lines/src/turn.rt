//! One line after the other.
ghost use Rattle.std.specs.Prelude.{◌≡◌, ◌<◌, ℕ, suc, Option as Maybe};
ghost use Rattle.check_lines.specs.Ledger.{Ledger as Kept, goes};
ghost use Rattle.check_lines.specs.Found.{Answers};
ghost use Rattle.check_lines.specs.Machine.{game_of, base_of, IsReady, IsAtFork};
ghost use Rattle.check_lines.specs.Telling.{PartTells, Tells, TellsAfter};
ghost use Rattle.check_lines.specs.Ledger.{at_entry, ledger_fork, ledger_case};
ghost use Rattle.check_lines.specs.declared.open.Due.TheVariants as due_of;
ghost use Rattle.proof_tree.specs.declared.line.Line.TheVariants as line_of;

use crate::answer::Answer;
use crate::machine::Machine;
use crate::open::{Due, Open};
use proof_tree::Line;
use qc_model::{ConId, VarId};

impl<'p> Machine<'p> {
    /// A line where a case is due, at the branch that was opened last.
    #[inline(always)]
    pub(crate) fn at_top(&mut self, line: Line)
        requires fork { IsAtFork self.old }
        ensures tells { PartTells self.old self.new (λ d. at_entry d.entries (λ b fs. ledger_fork (game_of self.old) d b fs line)) }
        ensures ready { IsReady self.new }
        ensures same { game_of self.new ≡ game_of self.old }
        ensures base { base_of self.new ≡ base_of self.old }
    {
        match self.nesting.top() {
            Some(Open::Branch { x, mark, from }) => self.at_fork(x, mark, from, line),
            Some(Open::Next { .. }) => self.due = Due::Wrong,
            None => self.due = Due::Wrong,
        }
    }

    #[inline(always)]
    fn ranged_line(&mut self, high: i64, line: Line)
        requires fork { IsAtFork self.old }
        ensures tells { PartTells self.old self.new (λ d. at_entry d.entries (λ b fs. ledger_case (game_of self.old) d b fs (Some high) line)) }
        ensures ready { IsReady self.new }
        ensures same { game_of self.new ≡ game_of self.old }
        ensures base { base_of self.new ≡ base_of self.old }
    {
        match self.nesting.top() {
            Some(Open::Branch { x, mark, from }) => self.at_case(x, mark, from, Some(high), line),
            Some(Open::Next { .. }) => self.due = Due::Wrong,
            None => self.due = Due::Wrong,
        }
    }

    /// The next line, whatever it is, where no node waits to be left.
    fn open_line(&mut self, line: Line)
        requires ready { IsReady self.old }
        requires open { self.old.due ≡ due_of.Closed → ⊥ }
        ensures tells { (n : ℕ) (p : Maybe Kept) → n < 4294967296 → TellsAfter n self.old p → TellsAfter (suc n) self.new (goes (game_of self.old) p line) }
        ensures ready { IsReady self.new }
        ensures same { game_of self.new ≡ game_of self.old }
        ensures base { base_of self.new ≡ base_of self.old }
    {
        match self.due {
            Due::Node => self.at_node(line),
            Due::Prune { k, mark } => self.at_prune(k, mark, line),
            Due::Body => self.at_body(line),
            Due::Part => self.at_end(line),
            Due::Case => self.at_top(line),
            Due::Ranged { high } => self.ranged_line(high, line),
            Due::Closed => {}
            Due::Ended => self.due = Due::Wrong,
            Due::Wrong => {}
        }
    }

    /// The next line, whatever it is.
    #[inline(never)]
    fn any_line(&mut self, line: Line)
        requires ready { IsReady self.old }
        ensures tells { (n : ℕ) (p : Maybe Kept) → n < 4294967296 → TellsAfter n self.old p → TellsAfter (suc n) self.new (goes (game_of self.old) p line) }
        ensures ready { IsReady self.new }
        ensures same { game_of self.new ≡ game_of self.old }
        ensures base { base_of self.new ≡ base_of self.old }
    {
        self.settle();
        self.open_line(line);
    }

    /// The next line, where it is one of those that come seldom. Its copy is made here, so that `line` needs no place for one.
    #[inline(always)]
    fn seldom(&mut self, line: Line)
        requires ready { IsReady self.old }
        ensures tells { (n : ℕ) (p : Maybe Kept) → n < 4294967296 → TellsAfter n self.old p → TellsAfter (suc n) self.new (goes (game_of self.old) p line) }
        ensures ready { IsReady self.new }
        ensures same { game_of self.new ≡ game_of self.old }
        ensures base { base_of self.new ≡ base_of self.old }
    {
        self.any_line(line);
    }

    /// A dot, most of which end a branch.
    #[inline(always)]
    fn take_dot(&mut self)
        requires ready { IsReady self.old }
        ensures tells { (n : ℕ) (p : Maybe Kept) → n < 4294967296 → TellsAfter n self.old p → TellsAfter (suc n) self.new (goes (game_of self.old) p line_of.Dot) }
        ensures ready { IsReady self.new }
        ensures same { game_of self.new ≡ game_of self.old }
        ensures base { base_of self.new ≡ base_of self.old }
    {
        match self.due {
            Due::Case => self.fork_dot(),
            _ => self.seldom(Line::Dot),
        }
    }

    /// A case that is passed over.
    #[inline(always)]
    fn take_skip(&mut self)
        requires ready { IsReady self.old }
        ensures tells { (n : ℕ) (p : Maybe Kept) → n < 4294967296 → TellsAfter n self.old p → TellsAfter (suc n) self.new (goes (game_of self.old) p line_of.Skip) }
        ensures ready { IsReady self.new }
        ensures same { game_of self.new ≡ game_of self.old }
        ensures base { base_of self.new ≡ base_of self.old }
    {
        match self.due {
            Due::Case => self.fork_skip(),
            _ => self.seldom(Line::Skip),
        }
    }

    /// A line that goes on to a node.
    #[inline(always)]
    fn take_next(&mut self)
        requires ready { IsReady self.old }
        ensures tells { (n : ℕ) (p : Maybe Kept) → n < 4294967296 → TellsAfter n self.old p → TellsAfter (suc n) self.new (goes (game_of self.old) p line_of.Next) }
        ensures ready { IsReady self.new }
        ensures same { game_of self.new ≡ game_of self.old }
        ensures base { base_of self.new ≡ base_of self.old }
    {
        match self.due {
            Due::Case => self.fork_next(),
            Due::Part => self.part_next(),
            _ => self.seldom(Line::Next),
        }
    }

    /// The goal's line.
    #[inline(always)]
    fn take_goal(&mut self)
        requires ready { IsReady self.old }
        ensures tells { (n : ℕ) (p : Maybe Kept) → n < 4294967296 → TellsAfter n self.old p → TellsAfter (suc n) self.new (goes (game_of self.old) p line_of.Goal) }
        ensures ready { IsReady self.new }
        ensures same { game_of self.new ≡ game_of self.old }
        ensures base { base_of self.new ≡ base_of self.old }
    {
        match self.due {
            Due::Node => self.goal_line(),
            _ => self.seldom(Line::Goal),
        }
    }

    /// A part whose box is empty.
    #[inline(always)]
    fn take_empty(&mut self)
        requires ready { IsReady self.old }
        ensures tells { (n : ℕ) (p : Maybe Kept) → n < 4294967296 → TellsAfter n self.old p → TellsAfter (suc n) self.new (goes (game_of self.old) p line_of.Empty) }
        ensures ready { IsReady self.new }
        ensures same { game_of self.new ≡ game_of self.old }
        ensures base { base_of self.new ≡ base_of self.old }
    {
        match self.due {
            Due::Part => self.empty_line(),
            _ => self.seldom(Line::Empty),
        }
    }

    /// A part whose tuple isn't allowed.
    #[inline(always)]
    fn take_barred(&mut self)
        requires ready { IsReady self.old }
        ensures tells { (n : ℕ) (p : Maybe Kept) → n < 4294967296 → TellsAfter n self.old p → TellsAfter (suc n) self.new (goes (game_of self.old) p line_of.Barred) }
        ensures ready { IsReady self.new }
        ensures same { game_of self.new ≡ game_of self.old }
        ensures base { base_of self.new ≡ base_of self.old }
    {
        match self.due {
            Due::Part => self.barred_line(),
            _ => self.seldom(Line::Barred),
        }
    }

    /// A branch.
    #[inline(always)]
    fn take_branch(&mut self, x: VarId)
        requires ready { IsReady self.old }
        ensures tells { (n : ℕ) (p : Maybe Kept) → n < 4294967296 → TellsAfter n self.old p → TellsAfter (suc n) self.new (goes (game_of self.old) p (line_of.Branch x)) }
        ensures ready { IsReady self.new }
        ensures same { game_of self.new ≡ game_of self.old }
        ensures base { base_of self.new ≡ base_of self.old }
    {
        match self.due {
            Due::Case => self.fork_branch(x),
            Due::Part => self.part_branch(x),
            Due::Node => self.node_branch(x),
            _ => self.seldom(Line::Branch { x }),
        }
    }

    /// A removal by a constraint.
    #[inline(always)]
    fn take_prune(&mut self, x: VarId, lo: i64, hi: i64, c: ConId)
        requires ready { IsReady self.old }
        ensures tells { (n : ℕ) (p : Maybe Kept) → n < 4294967296 → TellsAfter n self.old p → TellsAfter (suc n) self.new (goes (game_of self.old) p (line_of.Prune x lo hi c)) }
        ensures ready { IsReady self.new }
        ensures same { game_of self.new ≡ game_of self.old }
        ensures base { base_of self.new ≡ base_of self.old }
    {
        match self.due {
            Due::Part => self.part_prune(x, lo, hi, c),
            Due::Case => self.fork_prune(x, lo, hi, c),
            Due::Node => self.node_prune(x, lo, hi, c),
            _ => self.seldom(Line::Prune { x, lo, hi, c }),
        }
    }

    /// Takes the next line. Once one was out of place all others are passed over. A node that ends with it isn't left.
    ///
    /// The lines that come most often are told apart here, in the reader's own loop, which knows already which line it read, and
    /// go on with their numbers alone.
    #[inline(always)]
    pub fn take(&mut self, line: Line)
        requires ready { IsReady self.old }
        ensures tells { (n : ℕ) (p : Maybe Kept) → n < 4294967296 → TellsAfter n self.old p → TellsAfter (suc n) self.new (goes (game_of self.old) p line) }
        ensures ready { IsReady self.new }
        ensures same { game_of self.new ≡ game_of self.old }
        ensures base { base_of self.new ≡ base_of self.old }
    {
        match line {
            Line::Dot => self.take_dot(),
            Line::Skip => self.take_skip(),
            Line::Next => self.take_next(),
            Line::Goal => self.take_goal(),
            Line::Empty => self.take_empty(),
            Line::Barred => self.take_barred(),
            Line::Branch { x } => self.take_branch(x),
            Line::Prune { x, lo, hi, c } => self.take_prune(x, lo, hi, c),
            _ => self.seldom(line),
        }
    }

    /// Takes the next line, and leaves each node that ends with it.
    #[inline(always)]
    pub fn line(&mut self, line: Line)
        requires ready { IsReady self.old }
        ensures tells { (n : ℕ) (p : Maybe Kept) → n < 4294967296 → TellsAfter n self.old p → TellsAfter (suc n) self.new (goes (game_of self.old) p line) }
        ensures ready { IsReady self.new }
        ensures same { game_of self.new ≡ game_of self.old }
        ensures base { base_of self.new ≡ base_of self.old }
    {
        self.take(line);
        if self.is_closed() {
            self.settle();
        }
    }

    /// What the lines so far come to; None where they aren't a whole node with each line in place.
    pub fn finish(&mut self) -> Option<Answer>
        requires ready { IsReady self.old }
        ensures answers { (p : Maybe Kept) → Tells self.old p → Answers result p }
        ensures ready { IsReady self.new }
        ensures same { game_of self.new ≡ game_of self.old }
        ensures base { base_of self.new ≡ base_of self.old }
    {
        self.settle();
        match self.due {
            Due::Ended => Some(Answer {
                found: self.found,
                own: self.own,
                turns: self.turns,
                has_open: self.has_open,
            }),
            Due::Node => None,
            Due::Prune { .. } => None,
            Due::Body => None,
            Due::Part => None,
            Due::Case => None,
            Due::Ranged { .. } => None,
            Due::Closed => None,
            Due::Wrong => None,
        }
    }
}
