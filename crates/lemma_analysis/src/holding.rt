//! What makes constraints hold: one true item of each clause, as few as are found, and as little as is seen of the others.
use crate::covering::Cover;
use crate::study::Analyst;
use lemma_engine::Engine;
use lemma_ground::{TruthOf, rule_at, variable_at};
use lemma_needs::{Question, needed};
use qc_model::{ConId, Kind, VarId};
use std::alloc::AllocError;

// How gladly a variable's value is taken for a reason.
#[derive(Clone, Copy, PartialEq, Eq, PartialOrd, Ord)]
enum Rank {
    // nothing has to be said
    Free,
    // a value that the winner chooses after the loser's last scope
    Last,
    Winners,
    Losers,
}

// The value of a variable, and how gladly it is taken.
#[derive(Clone, Copy)]
struct Seen {
    value: i64,
    rank: Rank,
}

impl<'p> Analyst<'p> {
    /// Marks what makes the constraints from `first` to the one before `end` hold, which the winner has to keep. What
    /// variables of scopes from `below` on have needs no mark.
    pub(crate) fn mark_holding(
        &mut self,
        engine: &Engine,
        first: usize,
        end: usize,
        below: usize,
        loser: Kind,
    ) -> Result<(), AllocError> {
        for k in first..end {
            if !engine.facts.is_clause(rule_at(k)) && !engine.is_left_out(rule_at(k)) {
                self.mark_rule(engine, rule_at(k), below)?;
            }
        }
        self.mark_clauses(engine, first, end, below, loser)
    }

    // The same for clauses alone.
    fn mark_clauses(
        &mut self,
        engine: &Engine,
        first: usize,
        end: usize,
        below: usize,
        loser: Kind,
    ) -> Result<(), AllocError> {
        let mut cover = Cover::new(engine.alloc);
        let mut of_winner = Vec::new(engine.alloc);
        let of_loser = self.open_clauses(
            engine,
            (first, end),
            below,
            loser,
            &mut cover,
            &mut of_winner,
        )?;
        // what is marked for the loser's clauses serves the others too
        self.mark_cover(engine, &of_loser, &mut cover)?;
        for c in of_winner.as_slice() {
            if cover.has_open(*c)
                && let Some(x) = self.widest_item(engine, *c, &cover, below, loser)
            {
                self.mark_closing(engine, x, &mut cover)?;
            }
        }
        self.unmark_spare(engine, &mut cover);
        Ok(())
    }

    // The clauses that need a mark are open. Those that the loser's values alone make true are given; the others are put to the
    // winner's.
    fn open_clauses(
        &mut self,
        engine: &Engine,
        rules: (usize, usize),
        below: usize,
        loser: Kind,
        cover: &mut Cover,
        of_winner: &mut Vec<ConId>,
    ) -> Result<Vec<ConId>, AllocError> {
        let mut of_loser = Vec::new(engine.alloc);
        let mut seen = Vec::new(engine.alloc);
        let (first, end) = rules;
        let is_large = end.saturating_sub(first) >= engine.facts.variables() / 2;
        for k in first..end {
            let c = rule_at(k);
            if !engine.facts.is_clause(c) || engine.is_left_out(c) {
                continue;
            }
            if cover.is_empty() {
                cover.make_room(engine)?;
                if is_large {
                    seen = self.all_seen(engine, below, loser)?;
                }
            }
            self.go_over(engine.facts.items_of(c).len());
            match self.best_rank(engine, c, below, loser, &seen) {
                Some(Rank::Free) => continue,
                Some(Rank::Losers) | None => of_loser.push(c)?,
                Some(_) => of_winner.push(c)?,
            }
            cover.open(c);
        }
        Ok(of_loser)
    }

    // Of the variables that make a clause true and are taken most gladly, that which makes most open clauses true.
    fn widest_item(
        &self,
        engine: &Engine,
        c: ConId,
        cover: &Cover,
        below: usize,
        loser: Kind,
    ) -> Option<VarId> {
        let mut best: Option<(Rank, usize, VarId)> = None;
        for item in engine.facts.items_of(c) {
            if let Some(rank) = self.rank_of(engine, item, below, loser) {
                if let Some((before, _, _)) = best
                    && before < rank
                {
                    continue;
                }
                let count = self.count_open(item, cover);
                let is_better = match best {
                    Some((before, most, _)) => rank < before || rank == before && count > most,
                    None => true,
                };
                if is_better {
                    best = Some((rank, count, item.x));
                }
            }
        }
        let (_, _, x) = best?;
        Some(x)
    }

    // How many open clauses an item makes true.
    fn count_open(&self, item: &TruthOf, cover: &Cover) -> usize {
        let mut count = 0usize;
        for mention in self.mentions_of(item.x) {
            if mention.value == item.value && cover.has_open(mention.c) {
                count = count.saturating_add(1);
            }
        }
        count
    }

    fn mark_rule(&mut self, engine: &Engine, c: ConId, below: usize) -> Result<(), AllocError> {
        self.needed.clear();
        let question = Question {
            c,
            end: engine.trail.len(),
            kept: None,
            choices: &[],
            holds: true,
            below,
        };
        needed(
            engine,
            &mut self.bench,
            &question,
            &mut self.needed,
            &mut self.tests,
        )?;
        self.mark_needed()
    }

    fn rank_of(&self, engine: &Engine, item: &TruthOf, below: usize, loser: Kind) -> Option<Rank> {
        if self.value(item.x) != item.value {
            return None;
        }
        Some(self.rank_of_variable(engine, item.x, below, loser))
    }

    fn rank_of_variable(&self, engine: &Engine, x: VarId, below: usize, loser: Kind) -> Rank {
        let scope = engine.facts.scope_of(x);
        if scope >= below {
            return Rank::Free;
        }
        match engine.trail.last_of(x) {
            None => return Rank::Free,
            Some(place) if self.marks.has(place) => return Rank::Free,
            Some(_) => {}
        }
        if engine.facts.side_of(x) == loser {
            return Rank::Losers;
        }
        if scope > self.last_scope_of(loser) {
            Rank::Last
        } else {
            Rank::Winners
        }
    }

    fn seen_at(&self, engine: &Engine, x: VarId, below: usize, loser: Kind) -> Seen {
        Seen {
            value: self.value(x),
            rank: self.rank_of_variable(engine, x, below, loser),
        }
    }

    // What is seen of each variable.
    fn all_seen(
        &self,
        engine: &Engine,
        below: usize,
        loser: Kind,
    ) -> Result<Vec<Seen>, AllocError> {
        let mut seen = Vec::new(engine.alloc);
        for k in 0..engine.facts.variables() {
            seen.push(self.seen_at(engine, variable_at(k), below, loser))?;
        }
        Ok(seen)
    }

    fn last_scope_of(&self, side: Kind) -> usize {
        match side {
            Kind::Exists => self.last_exists,
            Kind::Forall => self.last_forall,
        }
    }

    // The best rank of a clause's true items. What was seen of variables needn't be looked up.
    fn best_rank(
        &self,
        engine: &Engine,
        c: ConId,
        below: usize,
        loser: Kind,
        seen: &[Seen],
    ) -> Option<Rank> {
        let mut best: Option<Rank> = None;
        for item in engine.facts.items_of(c) {
            let it = match seen.get(item.x.0 as usize) {
                Some(it) => *it,
                None => self.seen_at(engine, item.x, below, loser),
            };
            if it.value != item.value {
                continue;
            }
            if it.rank == Rank::Free {
                return Some(Rank::Free);
            }
            best = match best {
                Some(before) if before <= it.rank => best,
                _ => Some(it.rank),
            };
        }
        best
    }

    /// Marks what makes the restriction of a winner's scope hold.
    pub(crate) fn mark_passing(
        &mut self,
        engine: &Engine,
        scope: usize,
        loser: Kind,
    ) -> Result<(), AllocError> {
        let (first, end) = engine.facts.rules_at(scope);
        self.mark_holding(engine, first, end, scope, loser)
    }
}
