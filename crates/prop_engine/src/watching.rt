//! The constraints that mention each variable.
ghost use Rattle.std.specs.Prelude.{◌≡◌, ◌<◌, ℕ, List, [], ◌∷◌, ◌++◌, length, IsTrue, OnOk, OnErr, IfOk, IsFalse, slice_get, Some, flat_map};
ghost use Rattle.std.specs.List.{list_all};
ghost use Rattle.qc_model.specs.declared.problem.Arg.{Arg};
ghost use Rattle.qc_model.specs.declared.problem.Argument.TheVariants.{Many};
ghost use Rattle.qc_model.specs.Arguments.{arg_variables, argument_variables, variables_of};
ghost use Rattle.qc_model.specs.Valid.{arg_sees, argument_sees};
ghost use Rattle.prop_engine.specs.Watching.{watchers, is_watched, HasGrown, AscendTo, IsWatchOf, has_number, IsBoundedSum, resting_end, IsHeld, AreRight};
ghost use Rattle.model_arguments.specs.Repeats.{has_repeat};
ghost use Rattle.model_arguments.specs.Written.{args_at};

use model_arguments::{arguments, is_repeated, items_at, numbers_at, one_at};
use qc_model::{Arg, Argument, ConId, Constraint, Pred, Problem, VarId};
use std::alloc::{AllocError, Global};
use std::marker::Model;

/// By which value of its variable, the last one left, a clause holds; or the end of it that a sum that is bounded from above
/// rests on.
#[derive(Clone, Copy)]
pub(crate) enum HeldBy {
    Neither,
    One,
    Zero,
    Least,
    Greatest,
}

/// A constraint that mentions a variable.
#[derive(Clone, Copy)]
pub(crate) struct Watch {
    pub(crate) c: ConId,
    pub(crate) held_by: HeldBy,
}

/// The constraints that mention one variable.
#[derive(Drop)]
pub(crate) struct Watchers {
    items: Vec<Watch>,
}

impl Model for Watchers {
    ghost use Rattle.std.specs.Prelude.{List};
    ghost use Rattle.prop_engine.specs.declared.watching.Watch.{Watch};

    ghost Value = { List Watch };

    ghost view = { λ a. a.items.items };
}

impl Watchers {
    fn new(alloc: Global) -> Watchers
        ensures { result ≡ [] }
    {
        Watchers {
            items: Vec::new(alloc),
        }
    }

    fn push(&mut self, watch: Watch) -> Result<(), AllocError>
        ensures ok { OnOk result (self.new ≡ self.old ++ watch ∷ []) }
        ensures err { OnErr result (self.new ≡ self.old) }
    {
        self.items.push(watch)?;
        Ok(())
    }

    fn items(&self) -> &[Watch]
        ensures { result.now ≡ self.now }
    {
        self.items.as_slice()
    }
}

/// The constraints that mention each variable.
#[derive(Drop)]
pub(crate) struct Watches {
    lists: Vec<Watchers>,
}

impl Model for Watches {
    ghost use Rattle.prop_engine.specs.Watching.{Watches};

    ghost Value = { Watches };

    ghost view = { λ a. a.lists.items };
}

/// By which value of a variable of the array at this place a constraint holds: the second array of a clause has its negated
/// literals.
fn held_at(rule: &Constraint, place: usize) -> HeldBy
    ensures { (xs : List Arg) → slice_get rule.now.args place ≡ Some (Many xs) → (x : ℕ) → IsTrue (has_number (flat_map arg_variables xs) x) → IsHeld result rule.now x }
{
    if let Pred::BoolClause = rule.pred {
        if place == 0 {
            return HeldBy::One;
        }
        if place == 1 {
            return HeldBy::Zero;
        }
    }
    HeldBy::Neither
}

/// Whether the constraint is a sum bounded from above by a number, in which no variable stands twice.
fn is_bounded_sum(rule: &Constraint) -> bool
    ensures sum { IsTrue result → IsBoundedSum rule.now }
    ensures apart { IsTrue result → IsFalse (has_repeat (args_at rule.now.args 1)) }
{
    if let Pred::IntLinLe = rule.pred {
        let args = arguments(rule);
        if let Arg::Num(_) = one_at(args, 2) {
            return !is_repeated(items_at(args, 1));
        }
    }
    false
}

/// The end that the term at this place rests on, by its factor.
fn end_at(factors: &[i64], at: usize) -> HeldBy
    ensures { result ≡ resting_end (slice_get factors.now at) }
{
    match factors.get(at) {
        None => HeldBy::Neither,
        Some(factor) => {
            if *factor > 0 {
                HeldBy::Least
            } else {
                HeldBy::Greatest
            }
        }
    }
}

impl Watches {
    // No constraint yet, for so many variables.
    fn new(alloc: Global, count: usize) -> Result<Watches, AllocError>
        ensures count { IfOk result (λ w. length w ≡ count) }
        ensures empty { IfOk result (λ w. (x : ℕ) → watchers w x ≡ []) }
    {
        let mut lists = Vec::with_capacity(alloc, count)?;
        for _ in 0..count {
            lists.push(Watchers::new(alloc))?;
        }
        Ok(Watches { lists })
    }

    /// The constraints that mention x, in order.
    pub(crate) fn of(&self, x: VarId) -> &[Watch]
        ensures { result.now ≡ watchers self.now x.0 }
    {
        match self.lists.get(x.0 as usize) {
            Some(list) => list.items(),
            None => &[],
        }
    }

    fn watch(
        &mut self,
        problem: &Problem,
        rule: &Constraint,
        c: ConId,
        held_by: HeldBy,
        x: VarId,
    ) -> Result<(), AllocError>
        requires x { x.0 < length self.old }
        requires rule { slice_get problem.now.constraints c.0 ≡ Some rule.now }
        requires held { IsHeld held_by rule.now x.0 }
        ensures grown { HasGrown self.old self.new }
        ensures watched { OnOk result (IsTrue (is_watched self.new c.0 x.0)) }
        ensures right { AreRight problem.now self.old → AreRight problem.now self.new }
        ensures order { AscendTo c.0 self.old → AscendTo c.0 self.new }
    {
        let _ = (problem.variables(), rule.owner);
        self.lists[x.0 as usize].push(Watch { c, held_by })
    }

    fn watch_arg(
        &mut self,
        problem: &Problem,
        rule: &Constraint,
        c: ConId,
        held_by: HeldBy,
        arg: Arg,
    ) -> Result<(), AllocError>
        requires count { length self.old ≡ length problem.now.variables }
        requires sees { IsTrue (arg_sees problem.now.variables rule.now.owner.0 arg) }
        requires rule { slice_get problem.now.constraints c.0 ≡ Some rule.now }
        requires held { (x : ℕ) → IsTrue (has_number (arg_variables arg) x) → IsHeld held_by rule.now x }
        ensures grown { HasGrown self.old self.new }
        ensures watched { OnOk result (IsTrue (list_all (is_watched self.new c.0) (arg_variables arg))) }
        ensures right { AreRight problem.now self.old → AreRight problem.now self.new }
        ensures order { AscendTo c.0 self.old → AscendTo c.0 self.new }
    {
        let _ = (problem.variables(), rule.owner);
        match arg {
            Arg::Var(x) => self.watch(problem, rule, c, held_by, x),
            Arg::Num(_) => Ok(()),
        }
    }

    fn watch_items(
        &mut self,
        problem: &Problem,
        rule: &Constraint,
        c: ConId,
        held_by: HeldBy,
        items: &[Arg],
    ) -> Result<(), AllocError>
        requires count { length self.old ≡ length problem.now.variables }
        requires sees { IsTrue (list_all (arg_sees problem.now.variables rule.now.owner.0) items.now) }
        requires rule { slice_get problem.now.constraints c.0 ≡ Some rule.now }
        requires held { (x : ℕ) → IsTrue (has_number (flat_map arg_variables items.now) x) → IsHeld held_by rule.now x }
        ensures grown { HasGrown self.old self.new }
        ensures watched { OnOk result (IsTrue (list_all (λ a. list_all (is_watched self.new c.0) (arg_variables a)) items.now)) }
        ensures right { AreRight problem.now self.old → AreRight problem.now self.new }
        ensures order { AscendTo c.0 self.old → AscendTo c.0 self.new }
    {
        for item in items {
            self.watch_arg(problem, rule, c, held_by, *item)?;
        }
        Ok(())
    }

    // Lets a sum that is bounded from above watch the ends that its terms rest on.
    fn watch_terms(
        &mut self,
        problem: &Problem,
        rule: &Constraint,
        c: ConId,
        items: &[Arg],
    ) -> Result<(), AllocError>
        requires count { length self.old ≡ length problem.now.variables }
        requires sees { IsTrue (list_all (arg_sees problem.now.variables rule.now.owner.0) items.now) }
        requires rule { slice_get problem.now.constraints c.0 ≡ Some rule.now }
        requires sum { IsBoundedSum rule.now }
        requires items { args_at rule.now.args 1 ≡ items.now }
        requires apart { IsFalse (has_repeat items.now) }
        ensures grown { HasGrown self.old self.new }
        ensures watched { OnOk result (IsTrue (list_all (λ a. list_all (is_watched self.new c.0) (arg_variables a)) items.now)) }
        ensures right { AreRight problem.now self.old → AreRight problem.now self.new }
        ensures order { AscendTo c.0 self.old → AscendTo c.0 self.new }
    {
        let factors = numbers_at(arguments(rule), 0);
        for at in 0..items.len() {
            self.watch_arg(problem, rule, c, end_at(factors, at), items[at])?;
        }
        Ok(())
    }

    // Lets the constraint c watch each variable of an array, the one at this place.
    fn watch_array(
        &mut self,
        problem: &Problem,
        rule: &Constraint,
        c: ConId,
        place: usize,
        items: &[Arg],
    ) -> Result<(), AllocError>
        requires count { length self.old ≡ length problem.now.variables }
        requires sees { IsTrue (list_all (arg_sees problem.now.variables rule.now.owner.0) items.now) }
        requires rule { slice_get problem.now.constraints c.0 ≡ Some rule.now }
        requires place { slice_get rule.now.args place ≡ Some (Many items.now) }
        ensures grown { HasGrown self.old self.new }
        ensures watched { OnOk result (IsTrue (list_all (λ a. list_all (is_watched self.new c.0) (arg_variables a)) items.now)) }
        ensures right { AreRight problem.now self.old → AreRight problem.now self.new }
        ensures order { AscendTo c.0 self.old → AscendTo c.0 self.new }
    {
        if place == 1 {
            if is_bounded_sum(rule) {
                return self.watch_terms(problem, rule, c, items);
            }
        }
        self.watch_items(problem, rule, c, held_at(rule, place), items)
    }

    fn watch_argument(
        &mut self,
        problem: &Problem,
        rule: &Constraint,
        c: ConId,
        place: usize,
        argument: &Argument,
    ) -> Result<(), AllocError>
        requires count { length self.old ≡ length problem.now.variables }
        requires sees { IsTrue (argument_sees problem.now.variables rule.now.owner.0 argument.now) }
        requires rule { slice_get problem.now.constraints c.0 ≡ Some rule.now }
        requires place { slice_get rule.now.args place ≡ Some argument.now }
        ensures grown { HasGrown self.old self.new }
        ensures watched { OnOk result (IsTrue (list_all (is_watched self.new c.0) (argument_variables argument.now))) }
        ensures right { AreRight problem.now self.old → AreRight problem.now self.new }
        ensures order { AscendTo c.0 self.old → AscendTo c.0 self.new }
    {
        match argument {
            Argument::One(arg) => self.watch_arg(problem, rule, c, HeldBy::Neither, *arg),
            Argument::Many(items) => self.watch_array(problem, rule, c, place, items.items()),
            Argument::Numbers(_) => Ok(()),
            Argument::Members(_) => Ok(()),
        }
    }

    // Lets the constraint c watch each of its variables.
    fn watch_rule(
        &mut self,
        problem: &Problem,
        rule: &Constraint,
        c: ConId,
    ) -> Result<(), AllocError>
        requires count { length self.old ≡ length problem.now.variables }
        requires sees { IsTrue (list_all (argument_sees problem.now.variables rule.now.owner.0) rule.now.args) }
        requires rule { slice_get problem.now.constraints c.0 ≡ Some rule.now }
        ensures grown { HasGrown self.old self.new }
        ensures watched { OnOk result (IsTrue (list_all (λ a. list_all (is_watched self.new c.0) (argument_variables a)) rule.now.args)) }
        ensures right { AreRight problem.now self.old → AreRight problem.now self.new }
        ensures order { AscendTo c.0 self.old → AscendTo c.0 self.new }
    {
        let args = arguments(rule);
        for place in 0..args.len() {
            self.watch_argument(problem, rule, c, place, &args[place])?;
        }
        Ok(())
    }

    /// The constraints of a problem, by its variables.
    pub(crate) fn of_problem(alloc: Global, problem: &Problem) -> Result<Watches, AllocError>
        ensures { IfOk result (λ w. IsWatchOf problem.now w) }
    {
        problem.known();
        let mut watches = Watches::new(alloc, problem.variables())?;
        let mut c: u16 = 0;
        while (c as usize) < problem.constraints() {
            watches.watch_rule(problem, problem.constraint(ConId(c)), ConId(c))?;
            c += 1;
        }
        Ok(watches)
    }
}
