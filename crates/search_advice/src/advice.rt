//! Which tuple of a scope is tried first.
//!
//! It is the tuple that ended the same position before (`residues`, `positions`), where one is kept; else the latest of the last
//! tuples that ended nodes of the scope (`tuples`) whose values are all left, or what a free search finds (`looks`); and before
//! there is one, what most clauses want (`signs`). Where the values of a scope may go in any order, it tells in the same way which
//! goes first at each branch. A tuple ends a node where it settles it, or gives a bound that the incumbent of
//! the scope right above beats. What is tried is proved as any case is, so bad advice costs turns and time, and nothing else.
ghost use Rattle.std.specs.Prelude.{◌≡◌, ◌<◌, length, IfSome, IsTrue, IsFalse};
ghost use Rattle.qc_model.specs.Domains.{has_empty, has_value, values_left};

use crate::bests::{Bests, Sought};
use crate::looks::Looks;
use crate::positions::Positions;
use crate::rated::Rated;
use crate::signs::Signs;
use crate::standing::{Source, Standing};
use crate::tuples::{KEPT, Tuples};
use likeness::Residues;
use model_levels::{Level, Levels};
use qc_model::{Kind, ScopeId, VarId};
use search_box::SearchBox;
use std::alloc::{AllocError, Global};

/// Where signs of literals alone tell which value of the opponent's goes first, at most so many variables of the scope follow.
const MOST_AHEAD: usize = 10;

/// A value that no domain has.
const NO_VALUE: i64 = i64::MIN;

/// The widest tuple that is kept for a position.
const MOST_WIDTH: usize = 32;

/// For each scope the values of the tuple that is tried, in the places of its variables, the last tuples, those of positions,
/// and how far both are trusted: a try that serves makes up for one that fails.
#[derive(Drop)]
pub struct Advice<'p> {
    values: Vec<i64>,
    tuples: Tuples,
    rated: Rated,
    scopes: Vec<Standing>,
    residues: Residues,
    positions: Positions,
    signs: Signs,
    looks: Looks<'p>,
    bests: Bests<'p>,
}

impl<'p> Advice<'p> {
    /// No advice for any scope. Only with `tries` positions are kept later, and tuples looked for. It fails only where memory
    /// runs out.
    pub fn new(alloc: Global, levels: &Levels<'p>, tries: bool) -> Result<Advice<'p>, AllocError> {
        levels.problem.known();
        let values = vec![in alloc; 0i64; levels.problem.variables()]?;
        let signs = Signs::new(alloc, levels)?;
        let mut scopes = vec![in alloc; Standing::new(); levels.problem.scopes()]?;
        trust_signs(scopes.as_mut_slice(), levels, &signs);
        let tuples = Tuples::new(alloc, levels.problem.variables())?;
        let rated = Rated::new(alloc, levels.problem.variables(), levels.problem.scopes())?;
        let wanted = wanted_scopes(alloc, levels, tries)?;
        let positions = Positions::new(alloc, widest(levels, wanted.as_slice()))?;
        let residues = Residues::new(alloc, levels, wanted.as_slice())?;
        let looks = Looks::new(alloc, levels, tries);
        let bests = Bests::new(alloc, levels, tries);
        Ok(Advice {
            values,
            tuples,
            rated,
            scopes,
            residues,
            positions,
            signs,
            looks,
            bests,
        })
    }

    /// Begins a node of the scope, where variables have these values and so many turns are left: takes the number of its position,
    /// or finds one, and looks for a tuple, or for the best value of what is sought, where that is worth it: the value that was
    /// found. It fails only where memory runs out.
    pub fn enter(
        &mut self,
        level: &Level,
        sought: Option<Sought>,
        position: Option<u64>,
        values: &[i64],
        left: u64,
    ) -> Result<Option<i64>, AllocError> {
        let position = self.number(level, position, values);
        if let Some(standing) = self.scopes.get_mut(level.number as usize) {
            standing.position = position;
            standing.node = standing.node.wrapping_add(1);
        }
        self.begin(level);
        self.set_again(level, false);
        if self.looks.look(level, values, left)? {
            self.take_found(level);
        }
        self.bests.look(level, sought, values, left)
    }

    /// Ends a node of the scope, where so many turns are left.
    pub fn leave(&mut self, level: &Level, left: u64) {
        self.looks.learn(level, left);
        self.bests.learn(level, left);
    }

    /// Learns whether a bound by the best value that was found made it sure what the node comes to.
    pub fn tell_bound(&mut self, is_sure: bool) {
        self.bests.tell(is_sure);
    }

    /// From now on the tuple that was looked for is the scope's latest, and worth a try.
    fn take_found(&mut self, level: &Level) {
        for x in level.from..level.stop {
            let found = self.looks.value(x);
            self.put(x, found);
        }
        self.tuples.keep(level, self.values.as_slice());
        if let Some(standing) = self.scopes.get_mut(level.number as usize) {
            standing.is_known = true;
            standing.last = standing.last.max(1);
        }
    }

    fn put(&mut self, x: usize, value: i64) {
        if let Some(place) = self.values.get_mut(x) {
            *place = value;
        }
    }

    /// Whether there is a tuple that is worth a try at the node of the scope.
    pub fn is_asked(&self, level: &Level) -> bool {
        match self.scopes.get(level.number as usize) {
            Some(standing) if standing.is_known => {
                standing.last > 0 || self.kept(level).is_some()
            }
            Some(standing) => standing.signs > 0,
            None => false,
        }
    }

    /// From now on the first tuple is tried again, the latest one.
    pub fn begin(&mut self, level: &Level) {
        if let Some(standing) = self.scopes.get_mut(level.number as usize) {
            standing.source = Source::Nowhere;
            standing.next = 0;
            standing.is_again = true;
        }
    }

    fn set_again(&mut self, level: &Level, is_again: bool) {
        if let Some(standing) = self.scopes.get_mut(level.number as usize) {
            standing.is_again = is_again;
        }
    }

    /// Whether another tuple may be tried.
    pub fn has_more(&self, level: &Level) -> bool {
        match self.scopes.get(level.number as usize) {
            Some(standing) => standing.next < KEPT,
            None => false,
        }
    }

    /// Chooses the tuple that is tried next at the node, where these values are left, and says whether there is one.
    pub fn choose(&mut self, level: &Level, remains: &SearchBox) -> bool
        requires game { remains.now.game ≡ level.now.problem.now }
    {
        let Some(standing) = self.scopes.get(level.number as usize) else {
            return false;
        };
        let next = standing.next;
        if let Source::Nowhere = standing.source
            && let Some(number) = self.kept(level)
        {
            self.take_kept(level, number);
            return true;
        }
        if standing.is_rated && !standing.is_again {
            return self.take_rated(level, remains);
        }
        if standing.is_known {
            return self.take_last(level, next, remains);
        }
        self.take_signs(level);
        true
    }

    /// Chooses the values that go first at the branches of the node, one variable after the other, where any order will do: those of
    /// the tuple that ended the position, else of one of the last that are left whole, else of the latest; and before there is one
    /// what the signs of literals say.
    pub fn order(&mut self, level: &Level, remains: &SearchBox)
        requires game { remains.now.game ≡ level.now.problem.now }
    {
        let Some(standing) = self.scopes.get(level.number as usize) else {
            return;
        };
        if let Some(number) = self.kept(level) {
            return self.take_kept(level, number);
        }
        if !standing.is_known {
            return self.take_signs(level);
        }
        if !standing.has_order() {
            return self.take_none(level);
        }
        if !self.take_last(level, 0, remains) {
            self.take_latest(level);
        }
    }

    /// Takes the latest tuple.
    fn take_latest(&mut self, level: &Level) {
        for x in level.from..level.stop {
            let value = self.tuples.value(0, x);
            self.put(x, value);
        }
        if let Some(standing) = self.scopes.get_mut(level.number as usize) {
            standing.source = Source::Last;
        }
    }

    /// Takes no value.
    fn take_none(&mut self, level: &Level) {
        for x in level.from..level.stop {
            self.put(x, NO_VALUE);
        }
        if let Some(standing) = self.scopes.get_mut(level.number as usize) {
            standing.source = Source::Nowhere;
        }
    }

    /// The value of x that goes first at a branch, one that is left to it, where that may still serve.
    pub fn value_first(&self, level: &Level, x: VarId, remains: &SearchBox) -> Option<i64>
        requires var { x.0 < length remains.now.store.box }
        requires full { IsFalse (has_empty remains.now.store.box) }
        ensures { IfSome result (λ v. IsTrue (has_value (values_left remains.now.store.box x.0) v)) }
    {
        let standing = self.scopes.get(level.number as usize)?;
        if !standing.is_hopeful() || self.is_rash(level, x) {
            return None;
        }
        self.value(level, x, remains)
    }

    /// Whether only signs of literals tell which value of x goes first, in a scope of the opponent of which many variables follow: as
    /// long as nothing settled such a scope, its values all count more often than not, and then the lines of half a tree are moved.
    fn is_rash(&self, level: &Level, x: VarId) -> bool {
        match level.kind {
            Kind::Exists => false,
            Kind::Forall => {
                self.is_loose(level) && level.stop.saturating_sub(x.0 as usize) > MOST_AHEAD
            }
        }
    }

    /// Learns that the value that went first at a branch of the scope settled it.
    pub fn tell_first(&mut self, level: &Level) {
        if let Some(standing) = self.scopes.get_mut(level.number as usize) {
            standing.tell_order(true);
        }
    }

    /// Learns that it didn't, and whether another one did after it.
    pub fn tell_others(&mut self, level: &Level, settled: bool) {
        if let Some(standing) = self.scopes.get_mut(level.number as usize) {
            if settled {
                standing.tell_order(false);
            } else {
                standing.tell_in_vain();
            }
        }
    }

    /// Takes for each variable the value that its owner wants by the signs of its literals.
    fn take_signs(&mut self, level: &Level) {
        for x in level.from..level.stop {
            let value = self.signs.value(level.kind, x);
            self.put(x, value.unwrap_or(NO_VALUE));
        }
        if let Some(standing) = self.scopes.get_mut(level.number as usize) {
            standing.source = Source::Signs;
            standing.next = KEPT;
        }
    }

    /// Takes the tuple that is kept for the position.
    fn take_kept(&mut self, level: &Level, number: u64) {
        for x in level.from..level.stop {
            let value = self.positions.value(number, x - level.from);
            self.put(x, value);
        }
        if let Some(standing) = self.scopes.get_mut(level.number as usize) {
            standing.source = Source::Position;
        }
    }

    /// Takes the first of the last tuples from this one on whose values are all left, where there is one.
    fn take_last(&mut self, level: &Level, next: usize, remains: &SearchBox) -> bool
        requires game { remains.now.game ≡ level.now.problem.now }
    {
        let allowed = self.tuples.allowed_from(next, level, remains);
        if let Some(k) = allowed {
            for x in level.from..level.stop {
                let value = self.tuples.value(k, x);
                self.put(x, value);
            }
        }
        if let Some(standing) = self.scopes.get_mut(level.number as usize) {
            standing.take(allowed);
        }
        allowed.is_some()
    }

    /// Takes the tuple that is tried next by what came of each, where there is one whose values are all left.
    fn take_rated(&mut self, level: &Level, remains: &SearchBox) -> bool
        requires game { remains.now.game ≡ level.now.problem.now }
    {
        let Some(standing) = self.scopes.get(level.number as usize) else {
            return false;
        };
        let node = standing.node;
        let place = self.rated.take_best(level, node, remains);
        if let Some(k) = place {
            for x in level.from..level.stop {
                let value = self.rated.value(k, x);
                self.put(x, value);
            }
        }
        if let Some(standing) = self.scopes.get_mut(level.number as usize) {
            standing.take_rated(place);
        }
        place.is_some()
    }

    /// The value that x takes in the tuple that is tried, one that is left to it. None comes where it can't take its own.
    pub fn value(&self, level: &Level, x: VarId, remains: &SearchBox) -> Option<i64>
        requires var { x.0 < length remains.now.store.box }
        requires full { IsFalse (has_empty remains.now.store.box) }
        ensures { IfSome result (λ v. IsTrue (has_value (values_left remains.now.store.box x.0) v)) }
    {
        let value = value_at(self.values.as_slice(), x.0 as usize);
        if remains.has(x, value) {
            return Some(value);
        }
        if self.is_loose(level) {
            return Some(remains.first(x));
        }
        None
    }

    /// Whether a variable whose value in the tuple isn't left takes another: signs say of each variable by itself what is wanted.
    fn is_loose(&self, level: &Level) -> bool {
        match self.scopes.get(level.number as usize) {
            Some(standing) => matches!(standing.source, Source::Signs),
            None => false,
        }
    }

    /// The number of the scope's position, where a tuple is kept for it.
    fn kept(&self, level: &Level) -> Option<u64> {
        let number = self.position(level)?;
        if self.positions.has(number) {
            Some(number)
        } else {
            None
        }
    }

    /// The number of the position that the search is at in the scope.
    fn position(&self, level: &Level) -> Option<u64> {
        self.scopes.get(level.number as usize)?.position
    }

    /// The number of the scope's position, this one where there is one, if it is worth to be looked up.
    fn number(&self, level: &Level, position: Option<u64>, values: &[i64]) -> Option<u64> {
        let standing = self.scopes.get(level.number as usize)?;
        if !standing.keeps_positions() || !self.residues.has(level) {
            return None;
        }
        match position {
            Some(number) => Some(number),
            None => self.residues.number(level, values),
        }
    }

    /// Takes the tuple of the scope out of the values of all variables, where it ended a node.
    pub fn note(&mut self, is_ended: bool, level: &Level, values: &[i64]) {
        if !is_ended {
            return;
        }
        if let Some(standing) = self.scopes.get_mut(level.number as usize) {
            standing.tell_ended();
        }
        self.rate_ended(level, values);
        self.tuples.keep(level, values);
        if let Some(number) = self.position(level) {
            self.keep(number, level, values);
        }
    }

    /// Counts the node for its tuple in these values, where tuples are chosen by what came of them.
    fn rate_ended(&mut self, level: &Level, values: &[i64]) {
        let Some(standing) = self.scopes.get(level.number as usize) else {
            return;
        };
        if standing.is_rated {
            let node = standing.node;
            self.rated.keep(level, node, values);
        }
    }

    /// Keeps the tuple for its position.
    fn keep(&mut self, number: u64, level: &Level, values: &[i64]) {
        let is_met = self.positions.has(number);
        if let Some(standing) = self.scopes.get_mut(level.number as usize) {
            standing.note(is_met);
        }
        self.positions.keep(number);
        for at in 0..level.stop - level.from {
            self.positions
                .put(number, at, value_at(values, level.from + at));
        }
    }

    /// Learns whether a try of the tuple that was chosen served, and whether the scope above can outdo this one.
    pub fn tell(&mut self, level: &Level, served: bool, has_rival: bool) {
        if let Some(standing) = self.scopes.get_mut(level.number as usize) {
            standing.tell(served, has_rival);
            standing.is_rated |= has_rival;
        }
        if !served {
            self.rate_failed(level);
        }
    }

    /// Counts the node against the tuple that was tried, where that was chosen by what came of it.
    fn rate_failed(&mut self, level: &Level) {
        let Some(standing) = self.scopes.get(level.number as usize) else {
            return;
        };
        if let Source::Rated(k) = standing.source {
            self.rated.fail(level, k);
        }
    }
}

fn value_at(values: &[i64], x: usize) -> i64 {
    match values.get(x) {
        Some(value) => *value,
        None => 0,
    }
}

/// From now on the signs are trusted at first where a scope has some.
fn trust_signs(scopes: &mut [Standing], levels: &Levels, signs: &Signs) {
    levels.problem.known();
    for i in 0..levels.problem.scopes() {
        if signs.has(levels.level(ScopeId(i as u8))) {
            if let Some(standing) = scopes.get_mut(i) {
                standing.trust_signs();
            }
        }
    }
}

/// Which scopes' positions are kept: those that can be settled and aren't too wide. The first one has one node, and at the last
/// one what is saved is no more than what a look costs.
fn wanted_scopes(alloc: Global, levels: &Levels, tries: bool) -> Result<Vec<bool>, AllocError> {
    levels.problem.known();
    let mut wanted = Vec::new(alloc);
    let mut demands = false;
    for i in 0..levels.problem.scopes() {
        let level = levels.level(ScopeId(i as u8));
        demands = demands_after(level, demands);
        let is_between = i > 0 && i + 1 < levels.problem.scopes();
        wanted.push(tries && is_between && is_kept(level, demands))?;
    }
    Ok(wanted)
}

/// Whether something may be demanded after the scope, where something may be before.
pub(crate) fn demands_after(level: &Level, before: bool) -> bool {
    match level.kind {
        Kind::Exists => before || level.has_condition,
        Kind::Forall => before
            && !level
                .problem
                .aggregates_in(level.number as usize)
                .is_empty(),
    }
}

/// Whether the scope can be settled, and its tuples aren't too wide.
fn is_kept(level: &Level, demands: bool) -> bool {
    let can_settle = match level.kind {
        Kind::Exists => !demands,
        Kind::Forall => true,
    };
    can_settle && level.stop - level.from <= MOST_WIDTH
}

/// How many variables the widest of these scopes has.
fn widest(levels: &Levels, wanted: &[bool]) -> usize {
    levels.problem.known();
    let mut most = 0;
    for i in 0..levels.problem.scopes() {
        let level = levels.level(ScopeId(i as u8));
        if let Some(true) = wanted.get(i) {
            most = most.max(level.stop - level.from);
        }
    }
    most
}
