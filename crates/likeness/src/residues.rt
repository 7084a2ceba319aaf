//! What the constraints ahead still see of the variables before a scope, as one number.
//!
//! At a node of a scope each variable before it has one value. A constraint of this scope or of a later one sees of them, where
//! it is a linear sum or a + b = c, what their terms sum to; where it is a clause, whether one of them satisfies it; where all are to
//! differ, which values are taken; else their values.
//! Where all this is the same at two nodes of the scope, the same game is ahead of both, so a tuple that settles the one
//! settles the other, and one that outdoes it gives the other the same bound. The number is a hash: two positions may share one
//! by chance, so nothing rests on it but which tuple is tried first.
use model_arguments::{Span, arguments, items_at, last_one, numbers_at, one_at};
use model_levels::{Level, Levels};
use qc_model::{Arg, Argument, Constraint, Meaning, ScopeId, meaning_of};
use std::alloc::{AllocError, Global};

/// How many items all scopes may have together. A scope that would need more has no number.
const MOST_ITEMS: usize = 131_072;

/// As many variables as a problem can have.
const MOST_VARIABLES: usize = 500;

/// An odd number whose bits look as if by chance: 2^64 by the golden ratio.
const MIX: u64 = 0x9E37_79B9_7F4A_7C15;

/// How what stands before a scope is read.
#[derive(Clone, Copy)]
enum Reading {
    /// The sum of the values times their factors.
    Sum,
    /// Whether some value is the factor beside it.
    Clause,
    /// Which values there are, in any order.
    Set,
    /// Each value by itself.
    Values,
}

/// A variable, and its factor in a sum, or the value by which it satisfies a clause.
#[derive(Clone, Copy)]
struct Item {
    x: u16,
    factor: i64,
}

/// What stands of a constraint before a scope: a range of the items.
#[derive(Clone, Copy)]
struct Part {
    reading: Reading,
    items: Span,
}

/// For each scope the parts before it of the constraints from it on: a range, where it has a number.
#[derive(Drop)]
pub struct Residues {
    items: Vec<Item>,
    parts: Vec<Part>,
    scopes: Vec<Option<Span>>,
}

impl Residues {
    /// Those of the scopes that are wanted. It fails only where memory runs out.
    pub fn new(alloc: Global, levels: &Levels, wanted: &[bool]) -> Result<Residues, AllocError> {
        levels.problem.known();
        let mut gathering = Gathering {
            found: Residues {
                items: Vec::new(alloc),
                parts: Vec::new(alloc),
                scopes: Vec::new(alloc),
            },
            by_value: vec![in alloc; false; levels.problem.variables()]?,
            from: 0,
            begin: Begin { items: 0, parts: 0 },
            last: None,
        };
        for i in 0..levels.problem.scopes() {
            let level = levels.level(ScopeId(i as u8));
            let span = match wanted.get(i) {
                Some(true) => gathering.add_scope(levels, level)?,
                _ => None,
            };
            gathering.found.scopes.push(span)?;
        }
        Ok(gathering.found)
    }

    /// Whether the scope's positions have numbers.
    pub fn has(&self, level: &Level) -> bool {
        matches!(self.scopes.get(level.number as usize), Some(Some(_)))
    }

    /// The number of a scope's position, where the variables before it have these values. None comes where the scope has
    /// no number.
    pub fn number(&self, level: &Level, values: &[i64]) -> Option<u64> {
        let Some(Some(parts)) = self.scopes.get(level.number as usize) else {
            return None;
        };
        let mut hash = mixed(0, level.number as i64);
        for at in parts.first..parts.end {
            if let Some(part) = self.parts.get(at) {
                hash = self.with_part(*part, values, hash);
            }
        }
        Some(hash)
    }

    fn with_part(&self, part: Part, values: &[i64], hash: u64) -> u64 {
        match part.reading {
            Reading::Sum => mixed(hash, self.sum(part.items, values)),
            Reading::Clause => mixed(hash, self.is_satisfied(part.items, values) as i64),
            Reading::Set => mixed(hash, self.set(part.items, values)),
            Reading::Values => self.with_values(part.items, values, hash),
        }
    }

    fn sum(&self, items: Span, values: &[i64]) -> i64 {
        let mut sum = 0i64;
        for at in items.first..items.end {
            if let Some(item) = self.items.get(at) {
                sum = sum.wrapping_add(value_of(item.x, values).wrapping_mul(item.factor));
            }
        }
        sum
    }

    fn is_satisfied(&self, items: Span, values: &[i64]) -> bool {
        for at in items.first..items.end {
            if let Some(item) = self.items.get(at) {
                if value_of(item.x, values) == item.factor {
                    return true;
                }
            }
        }
        false
    }

    /// A number for the values that doesn't depend on their order.
    fn set(&self, items: Span, values: &[i64]) -> i64 {
        let mut sum = 0u64;
        for at in items.first..items.end {
            if let Some(item) = self.items.get(at) {
                let value = value_of(item.x, values);
                // twice, since sums of single products come out the same too often
                sum = sum.wrapping_add(mixed(mixed(MIX, value), value));
            }
        }
        sum.cast_signed()
    }

    fn with_values(&self, items: Span, values: &[i64], hash: u64) -> u64 {
        let mut mix = hash;
        for at in items.first..items.end {
            if let Some(item) = self.items.get(at) {
                mix = mixed(mix, value_of(item.x, values));
            }
        }
        mix
    }
}

fn value_of(x: u16, values: &[i64]) -> i64 {
    match values.get(x as usize) {
        Some(value) => *value,
        None => 0,
    }
}

/// A number that has one more value in it: a step of a hash.
pub fn mixed(hash: u64, value: i64) -> u64 {
    (hash.rotate_left(27) ^ value.cast_unsigned()).wrapping_mul(MIX)
}

/// Where the items and parts of a scope begin.
#[derive(Clone, Copy)]
struct Begin {
    items: usize,
    parts: usize,
}

/// What was found for the scopes so far, and of the one that is gathered its first variable, where its parts begin, and which
/// variables count by their values.
#[derive(Drop)]
struct Gathering {
    found: Residues,
    by_value: Vec<bool>,
    from: usize,
    begin: Begin,
    /// The scope's last part, as one number.
    last: Option<u64>,
}

impl Gathering {
    /// The parts of a scope. None comes where they would be too many.
    fn add_scope(&mut self, levels: &Levels, level: &Level) -> Result<Option<Span>, AllocError> {
        levels.problem.known();
        self.from = level.from;
        self.last = None;
        self.begin = Begin {
            items: self.found.items.len(),
            parts: self.found.parts.len(),
        };
        for j in level.number as usize..levels.problem.scopes() {
            self.add_rules(levels.level(ScopeId(j as u8)).rules)?;
        }
        self.add_rules(levels.goal_rules)?;
        self.add_values()?;
        if self.is_full() {
            self.found.items.truncate(self.begin.items);
            self.found.parts.truncate(self.begin.parts);
            return Ok(None);
        }
        Ok(Some(Span {
            first: self.begin.parts,
            end: self.found.parts.len(),
        }))
    }

    fn is_full(&self) -> bool {
        self.found.items.len() > MOST_ITEMS
    }

    fn add_rules(&mut self, rules: &[Constraint]) -> Result<(), AllocError> {
        for rule in rules {
            if !self.is_full() {
                self.add_rule(rule)?;
            }
        }
        Ok(())
    }

    fn add_rule(&mut self, rule: &Constraint) -> Result<(), AllocError> {
        let args = arguments(rule);
        let row = meaning_of(rule.pred);
        match row.meaning {
            Meaning::SumEqual | Meaning::SumDifferent | Meaning::SumAtMost => self.add_terms(args)?,
            Meaning::Plus => self.add_plus(args)?,
            Meaning::Clause => self.add_clause(args)?,
            Meaning::AllDifferent => self.add_different(args)?,
            _ => self.all_by_value(args),
        }
        if row.reified {
            self.count_by_value(last_one(args));
        }
        Ok(())
    }

    fn add_terms(&mut self, args: &[Argument]) -> Result<(), AllocError> {
        let first = self.found.items.len();
        let factors = numbers_at(args, 0);
        for (factor, item) in factors.iter().zip(items_at(args, 1)) {
            self.add_item(*item, *factor)?;
        }
        self.add_part(Reading::Sum, first)
    }

    fn add_plus(&mut self, args: &[Argument]) -> Result<(), AllocError> {
        let first = self.found.items.len();
        self.add_item(one_at(args, 0), 1)?;
        self.add_item(one_at(args, 1), 1)?;
        self.add_item(one_at(args, 2), -1)?;
        self.add_part(Reading::Sum, first)
    }

    fn add_clause(&mut self, args: &[Argument]) -> Result<(), AllocError> {
        let first = self.found.items.len();
        for item in items_at(args, 0) {
            self.add_item(*item, 1)?;
        }
        for item in items_at(args, 1) {
            self.add_item(*item, 0)?;
        }
        self.add_part(Reading::Clause, first)
    }

    fn add_different(&mut self, args: &[Argument]) -> Result<(), AllocError> {
        let first = self.found.items.len();
        for item in items_at(args, 0) {
            self.add_item(*item, 1)?;
        }
        self.add_part(Reading::Set, first)
    }

    /// Puts the argument, where it is a variable before the scope.
    fn add_item(&mut self, arg: Arg, factor: i64) -> Result<(), AllocError> {
        if let Arg::Var(x) = arg {
            if (x.0 as usize) < self.from {
                self.found.items.push(Item { x: x.0, factor })?;
            }
        }
        Ok(())
    }

    fn all_by_value(&mut self, args: &[Argument]) {
        for argument in args {
            match argument {
                Argument::One(arg) => self.count_by_value(*arg),
                Argument::Many(items) => self.items_by_value(items.items()),
                Argument::Numbers(_) | Argument::Members(_) => {}
            }
        }
    }

    fn items_by_value(&mut self, items: &[Arg]) {
        for item in items {
            self.count_by_value(*item);
        }
    }

    fn count_by_value(&mut self, arg: Arg) {
        if let Arg::Var(x) = arg
            && (x.0 as usize) < self.from
        {
            if let Some(mark) = self.by_value.get_mut(x.0 as usize) {
                *mark = true;
            }
        }
    }

    /// The part of those variables before the scope that count by their values. No mark is left.
    fn add_values(&mut self) -> Result<(), AllocError> {
        let first = self.found.items.len();
        for x in 0..self.from.min(MOST_VARIABLES) {
            if let Some(mark) = self.by_value.get_mut(x) {
                if *mark {
                    self.found.items.push(Item {
                        x: x as u16,
                        factor: 1,
                    })?;
                }
                *mark = false;
            }
        }
        self.add_part(Reading::Values, first)
    }

    /// The part whose items begin at a place, where it has any. One that is as the part before is left out.
    fn add_part(&mut self, reading: Reading, first: usize) -> Result<(), AllocError> {
        let items = Span {
            first,
            end: self.found.items.len(),
        };
        if items.first == items.end {
            return Ok(());
        }
        let print = self.print(reading, items);
        if self.last == Some(print) {
            self.found.items.truncate(first);
            return Ok(());
        }
        self.last = Some(print);
        self.found.parts.push(Part { reading, items })?;
        Ok(())
    }

    /// One number for a part.
    fn print(&self, reading: Reading, items: Span) -> u64 {
        let mut hash = mixed(0, reading as i64);
        for at in items.first..items.end {
            if let Some(item) = self.found.items.get(at) {
                hash = mixed(mixed(hash, item.x as i64), item.factor);
            }
        }
        hash
    }
}
