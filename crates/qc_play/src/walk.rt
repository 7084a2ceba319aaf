//! A walk over the lines of a tree that stands in place, which gives each node's verdict, and the trees of choices that show it.
//!
//! The lines are read once, from the first to the last, and each call leaves the cursor right behind those of its part. The
//! tree is in place, so nothing of it is judged: removals are taken as they are, and a case ends where it says. What
//! is left to the variables stands in a store with a trail, so that the walk goes back to a branch's box; what the leaves
//! of a scope come to, in a join; their choices, in a gathering, as long as the scope's own tree is walked. A certificate
//! nests at most a thousand deep.
ghost use Rattle.std.specs.Prelude.{◌≡◌, ◌∷◌, ◌++◌, ◌<◌, ◌≤◌, ◌+◌, [], List, ℕ, suc, true, false, length, drop, OnOk, IfOk};
ghost use Rattle.qc_model.specs.Demands.{demands};
ghost use Rattle.qc_model.specs.Domains.{box_within, has_empty, values_left};
ghost use Rattle.qc_model.specs.Valid.{is_number};
ghost use Rattle.joins.specs.DemandLists.{HasLists};
ghost use Rattle.joins.specs.Joins.{out_of};
ghost use Rattle.proof_tree.specs.Counts.{ends_of as ends_in, ending_ends, branch_ends, case_ends};
ghost use Rattle.proof_tree.specs.Finding.{scope_finding, leaf_node};
ghost use Rattle.proof_tree.specs.Place.{is_fixed, position};
ghost use Rattle.proof_tree.specs.declared.line.Line.{Line as OneLine};
ghost use Rattle.proof_tree.specs.declared.tree.Step.{Step};
ghost use Rattle.proof_tree.specs.Lines.{tree_lines, ending_lines, case_lines};
ghost use Rattle.proof_tree.specs.Tree.{Tree, Ending, Branches, Case};
ghost use Rattle.proof_meaning.specs.Answered.{IsAnswered};
ghost use Rattle.qc_play.specs.Shown.{Shows};
ghost use Rattle.qc_play.specs.Beginnings.{ArePart, AreCases, BeginsNode, BeginsPart, BeginsEnd, BeginsCases, BeginsCase};
ghost use Rattle.qc_play.specs.Walk.{game_of, node_finding, end_leaves, part_leaves, pieces_leaves, taken_leaves, CanReadNode, CanReadPart, CanReadEnd, CanReadBranches, CanReadCase, IsWithin, LeadsOn, IsBack, Tells};

use crate::covers::ends_of;
use crate::gathering::Gathering;
use crate::line_cursor::LineCursor;
use crate::shown::Shown;
use crate::tables::Tables;
use crate::taking::{begin_body, next_case};
use check_box::{Ends, Remains};
use joins::Joins;
use proof_tree::Line;
use qc_model::{ScopeId, VarId};
use std::alloc::AllocError;

/// Below every value of a variable, or the least.
const LEAST: i64 = -1_000_000_000;

/// Where a walk stands.
#[derive(Drop)]
pub(crate) struct Walk<'p> {
    pub(crate) remains: Remains,
    pub(crate) joins: Joins<'p>,
    // the first of them are the values of the variables before the scope that is walked
    pub(crate) values: Vec<i64>,
}

impl<'p> Walk<'p> {
    /// What a node of scope i, or of the goal, comes to.
    #[cycle(walk)]
    pub(crate) fn node(
        &mut self,
        tables: &Tables<'p>,
        i: ScopeId,
        lines: &mut LineCursor<'_>,
    ) -> Result<Shown, AllocError>
        requires lists { HasLists (game_of tables.now) tables.now.demands }
        requires within { IsWithin (game_of tables.now) self.old i.0 }
        requires inside { i.0 ≤ length (game_of tables.now).scopes }
        requires full { has_empty self.old.remains.box ≡ false }
        requires tree { BeginsNode (game_of tables.now) lines.old i.0 self.old.remains.box }
        ensures back { OnOk result (IsBack (game_of tables.now) i.0 self.old self.new) }
        ensures shows { IfOk result (λ s. (t : Tree) (rest : List OneLine) → lines.old ≡ tree_lines t ++ rest → CanReadNode (game_of tables.now) t i.0 self.old.remains.box →
            (lines.new ≡ rest) × (ends_in t ≤ 1073741824 → Shows (node_finding (game_of tables.now) t i.0 self.old.remains.box) (out_of self.new.joins) s)) }
    {
        let line = begin_body(lines);
        match line {
            Line::Stuck => Ok(self.stuck(tables, i)),
            Line::Goal => Ok(self.goal(tables, i)),
            _ => self.own_tree(tables, i, line, lines),
        }
    }

    /// What scope i comes to by its own tree, which begins with a line that was taken.
    #[cycle(walk)]
    fn own_tree(
        &mut self,
        tables: &Tables<'p>,
        i: ScopeId,
        line: Line,
        lines: &mut LineCursor<'_>,
    ) -> Result<Shown, AllocError>
        requires lists { HasLists (game_of tables.now) tables.now.demands }
        requires within { IsWithin (game_of tables.now) self.old i.0 }
        requires scope { i.0 < length (game_of tables.now).scopes }
        requires full { has_empty self.old.remains.box ≡ false }
        requires tree { BeginsPart (game_of tables.now) (line ∷ lines.old) i.0 self.old.remains.box }
        ensures back { OnOk result (IsBack (game_of tables.now) i.0 self.old self.new) }
        ensures shows { IfOk result (λ s. (steps : List Step) (e : Ending) (rest : List OneLine) → ArePart (line ∷ lines.old) steps e rest → CanReadPart (game_of tables.now) steps e i.0 self.old.remains.box →
            IsAnswered (drop i.0 (game_of tables.now).scopes) (game_of tables.now) i.0 (position (game_of tables.now) i.0 self.old.remains.box) (part_leaves (game_of tables.now) steps e i.0 self.old.remains.box) →
            (lines.new ≡ rest) × (ending_ends e ≤ 1073741824 → Shows (scope_finding (drop i.0 (game_of tables.now).scopes) (game_of tables.now) i.0 (demands (game_of tables.now) i.0) (position (game_of tables.now) i.0 self.old.remains.box) (part_leaves (game_of tables.now) steps e i.0 self.old.remains.box)) (out_of self.new.joins) s)) }
    {
        let mark = self.remains.mark();
        self.joins.clear(i);
        let mut leaves = tables.gathering(i);
        self.part(tables, i, line, lines, &mut leaves)?;
        self.remains.undo_to(mark);
        self.close(tables, i, leaves)
    }

    /// A part of scope i's own tree, which begins with a line that was taken.
    #[cycle(walk)]
    fn part(
        &mut self,
        tables: &Tables<'p>,
        i: ScopeId,
        line: Line,
        lines: &mut LineCursor<'_>,
        leaves: &mut Gathering<'_>,
    ) -> Result<(), AllocError>
        requires lists { HasLists (game_of tables.now) tables.now.demands }
        requires within { IsWithin (game_of tables.now) self.old i.0 }
        requires scope { i.0 < length (game_of tables.now).scopes }
        requires tree { BeginsPart (game_of tables.now) (line ∷ lines.old) i.0 self.old.remains.box }
        ensures on { OnOk result (LeadsOn (game_of tables.now) i.0 self.old self.new) }
        ensures tells { OnOk result ((steps : List Step) (e : Ending) (rest : List OneLine) → ArePart (line ∷ lines.old) steps e rest → CanReadPart (game_of tables.now) steps e i.0 self.old.remains.box →
            (lines.new ≡ rest) × Tells (game_of tables.now) i.0 self.old.joins leaves.old self.new.joins leaves.new (ending_ends e) (part_leaves (game_of tables.now) steps e i.0 self.old.remains.box)) }
    {
        tables.levels.problem.known();
        let last = self.take_steps(tables, i, line, lines);
        self.end(tables, i, last, lines, leaves)
    }

    /// What follows the removals of a part of scope i's own tree.
    #[cycle(walk)]
    fn end(
        &mut self,
        tables: &Tables<'p>,
        i: ScopeId,
        line: Line,
        lines: &mut LineCursor<'_>,
        leaves: &mut Gathering<'_>,
    ) -> Result<(), AllocError>
        requires lists { HasLists (game_of tables.now) tables.now.demands }
        requires within { IsWithin (game_of tables.now) self.old i.0 }
        requires scope { i.0 < length (game_of tables.now).scopes }
        requires tree { BeginsEnd (game_of tables.now) (line ∷ lines.old) i.0 self.old.remains.box }
        ensures back { OnOk result (IsBack (game_of tables.now) i.0 self.old self.new) }
        ensures tells { OnOk result ((e : Ending) (rest : List OneLine) → line ∷ lines.old ≡ ending_lines e ++ rest → CanReadEnd (game_of tables.now) e i.0 self.old.remains.box →
            (lines.new ≡ rest) × Tells (game_of tables.now) i.0 self.old.joins leaves.old self.new.joins leaves.new (ending_ends e) (end_leaves (game_of tables.now) e i.0 self.old.remains.box)) }
    {
        match line {
            Line::Empty => Ok(()),
            Line::Barred => {
                self.joins.add_barred(i);
                Ok(())
            }
            Line::Next => self.next(tables, i, lines, leaves),
            Line::Branch { x } => self.branch(tables, i, x, lines, leaves),
            _ => unreachable!(),
        }
    }

    /// The node after a tuple of scope i.
    #[cycle(walk)]
    fn next(
        &mut self,
        tables: &Tables<'p>,
        i: ScopeId,
        lines: &mut LineCursor<'_>,
        leaves: &mut Gathering<'_>,
    ) -> Result<(), AllocError>
        requires lists { HasLists (game_of tables.now) tables.now.demands }
        requires within { IsWithin (game_of tables.now) self.old i.0 }
        requires scope { i.0 < length (game_of tables.now).scopes }
        requires full { has_empty self.old.remains.box ≡ false }
        requires fixed { is_fixed (game_of tables.now) i.0 self.old.remains.box ≡ true }
        requires tree { BeginsNode (game_of tables.now) lines.old (suc i.0) self.old.remains.box }
        ensures back { OnOk result (IsBack (game_of tables.now) i.0 self.old self.new) }
        ensures tells { OnOk result ((t : Tree) (rest : List OneLine) → lines.old ≡ tree_lines t ++ rest → CanReadNode (game_of tables.now) t (suc i.0) self.old.remains.box →
            (lines.new ≡ rest) × Tells (game_of tables.now) i.0 self.old.joins leaves.old self.new.joins leaves.new (ends_in t) (leaf_node (position (game_of tables.now) (suc i.0) self.old.remains.box) (node_finding (game_of tables.now) t (suc i.0) self.old.remains.box) ∷ [])) }
    {
        tables.levels.problem.known();
        self.read_tuple(tables, i);
        let shown = self.node(tables, ScopeId(i.0 + 1), lines)?;
        self.add_node(tables, i, shown, leaves)
    }

    /// The cases of a branch of scope i on x.
    #[cycle(walk)]
    fn branch(
        &mut self,
        tables: &Tables<'p>,
        i: ScopeId,
        x: VarId,
        lines: &mut LineCursor<'_>,
        leaves: &mut Gathering<'_>,
    ) -> Result<(), AllocError>
        requires lists { HasLists (game_of tables.now) tables.now.demands }
        requires within { IsWithin (game_of tables.now) self.old i.0 }
        requires scope { i.0 < length (game_of tables.now).scopes }
        requires full { has_empty self.old.remains.box ≡ false }
        requires variable { x.0 < length self.old.remains.box }
        requires tree { BeginsCases (game_of tables.now) lines.old x.0 (values_left self.old.remains.box x.0) i.0 self.old.remains.box }
        ensures back { OnOk result (IsBack (game_of tables.now) i.0 self.old self.new) }
        ensures tells { OnOk result ((bs : Branches) (rest : List OneLine) → AreCases lines.old bs rest → CanReadBranches (game_of tables.now) bs x.0 (values_left self.old.remains.box x.0) i.0 self.old.remains.box →
            (lines.new ≡ rest) × Tells (game_of tables.now) i.0 self.old.joins leaves.old self.new.joins leaves.new (branch_ends bs) (pieces_leaves (game_of tables.now) bs x.0 (values_left self.old.remains.box x.0) i.0 self.old.remains.box)) }
    {
        tables.levels.problem.known();
        let mut from = LEAST;
        while let Some((upto, line)) = next_case(lines) {
            let ends = ends_of(self.remains.store(), x, from, upto);
            self.case(tables, i, x, ends, line, lines, leaves)?;
            from = ends.last + 1;
        }
        Ok(())
    }

    /// A case of a branch of scope i on x, which covers these values, and begins with a line that was taken.
    #[cycle(walk)]
    fn case(
        &mut self,
        tables: &Tables<'p>,
        i: ScopeId,
        x: VarId,
        ends: Ends,
        line: Line,
        lines: &mut LineCursor<'_>,
        leaves: &mut Gathering<'_>,
    ) -> Result<(), AllocError>
        requires lists { HasLists (game_of tables.now) tables.now.demands }
        requires within { IsWithin (game_of tables.now) self.old i.0 }
        requires scope { i.0 < length (game_of tables.now).scopes }
        requires full { has_empty self.old.remains.box ≡ false }
        requires variable { x.0 < length self.old.remains.box }
        requires first { is_number ends.first ≡ true }
        requires last { is_number ends.last ≡ true }
        requires tree { BeginsCase (game_of tables.now) (line ∷ lines.old) i.0 (box_within self.old.remains.box x.0 ends.first ends.last) }
        ensures back { OnOk result (IsBack (game_of tables.now) i.0 self.old self.new) }
        ensures tells { OnOk result ((c : Case) (rest : List OneLine) → line ∷ lines.old ≡ case_lines c ++ rest → CanReadCase (game_of tables.now) c i.0 (box_within self.old.remains.box x.0 ends.first ends.last) →
            (lines.new ≡ rest) × Tells (game_of tables.now) i.0 self.old.joins leaves.old self.new.joins leaves.new (case_ends c) (taken_leaves (game_of tables.now) c i.0 (box_within self.old.remains.box x.0 ends.first ends.last))) }
    {
        match line {
            Line::Skip => {
                self.joins.add_skipped(i);
                Ok(())
            }
            Line::Open => {
                self.joins.add_skipped(i);
                Ok(())
            }
            _ => self.taken(tables, i, x, ends, line, lines, leaves),
        }
    }

    /// A case that is gone into.
    #[cycle(walk)]
    fn taken(
        &mut self,
        tables: &Tables<'p>,
        i: ScopeId,
        x: VarId,
        ends: Ends,
        line: Line,
        lines: &mut LineCursor<'_>,
        leaves: &mut Gathering<'_>,
    ) -> Result<(), AllocError>
        requires lists { HasLists (game_of tables.now) tables.now.demands }
        requires within { IsWithin (game_of tables.now) self.old i.0 }
        requires scope { i.0 < length (game_of tables.now).scopes }
        requires full { has_empty self.old.remains.box ≡ false }
        requires variable { x.0 < length self.old.remains.box }
        requires first { is_number ends.first ≡ true }
        requires last { is_number ends.last ≡ true }
        requires tree { BeginsPart (game_of tables.now) (line ∷ lines.old) i.0 (box_within self.old.remains.box x.0 ends.first ends.last) }
        ensures back { OnOk result (IsBack (game_of tables.now) i.0 self.old self.new) }
        ensures tells { OnOk result ((steps : List Step) (e : Ending) (rest : List OneLine) → ArePart (line ∷ lines.old) steps e rest → CanReadPart (game_of tables.now) steps e i.0 (box_within self.old.remains.box x.0 ends.first ends.last) →
            (lines.new ≡ rest) × Tells (game_of tables.now) i.0 self.old.joins leaves.old self.new.joins leaves.new (ending_ends e) (part_leaves (game_of tables.now) steps e i.0 (box_within self.old.remains.box x.0 ends.first ends.last))) }
    {
        let mark = self.remains.mark();
        self.remains.keep(x, ends.first, ends.last);
        self.part(tables, i, line, lines, leaves)?;
        self.remains.undo_to(mark);
        Ok(())
    }
}
