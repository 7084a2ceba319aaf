//! Which variables each constraint has, and which constraints have each variable, looked up once.
ghost use Rattle.std.specs.Prelude.{◌≡◌, ◌<◌, ◌+◌, length, IsTrue, IfOk, OnOk};
ghost use Rattle.qc_model.specs.Lists.{Distinct};
ghost use Rattle.model_arguments.specs.Written.{variable_numbers};
ghost use Rattle.dense_close.specs.Index.{IsIndexTo, IsIndexOf, own, having};

use crate::having::Having;
use model_arguments::{are_distinct, arguments, own_variables};
use qc_model::{ConId, Pred, Problem, VarId};
use std::alloc::{AllocError, Global};
use std::marker::Model;

/// The variables of one constraint, in the order in which they stand, each as often as it stands, whether none stands twice, and whether it
/// is to be looked at after others, since that takes long.
#[derive(Drop)]
struct OwnList {
    items: Vec<VarId>,
    apart: bool,
    late: bool,
}

// Whether to look at a constraint of this predicate takes long.
fn takes_long(pred: Pred) -> bool {
    match pred {
        Pred::AllDifferentInt | Pred::TableInt => true,
        _ => false,
    }
}

impl Model for OwnList {
    ghost use Rattle.std.specs.Prelude.{List, IsTrue};
    ghost use Rattle.qc_model.specs.declared.problem.VarId.{VarId};
    ghost use Rattle.qc_model.specs.Lists.{Distinct};
    ghost use Rattle.model_arguments.specs.Written.{variable_numbers};

    ghost Value = { List VarId };

    ghost view = { λ a. a.items.items };

    ghost invariant = { λ a. IsTrue a.apart → Distinct (variable_numbers a.items.items) };
}

impl OwnList {
    fn new(items: Vec<VarId>, late: bool) -> OwnList
        ensures { result ≡ items.items }
    {
        let apart = are_distinct(items.as_slice());
        OwnList { items, apart, late }
    }

    fn is_apart(&self) -> bool
        ensures { IsTrue result → Distinct (variable_numbers self.now) }
    {
        self.apart
    }
}

/// The variables of each constraint, and the constraints that have each variable.
#[derive(Drop)]
pub(crate) struct Index {
    own: Vec<OwnList>,
    having: Having,
}

impl Model for Index {
    ghost use Rattle.dense_close.specs.Index.{Index};

    ghost Value = { Index };

    ghost view = { λ a. record { own = a.own.items; having = a.having } };
}

impl Index {
    // Adds the next constraint, which has the number c.
    fn add(&mut self, alloc: Global, problem: &Problem, c: ConId) -> Result<(), AllocError>
        requires c { c.0 < length problem.now.constraints }
        requires earlier { IsIndexTo c.0 problem.now self.old }
        ensures { OnOk result (IsIndexTo (c.0 + 1) problem.now self.new) }
    {
        problem.known();
        let rule = problem.constraint(c);
        let items = own_variables(alloc, arguments(rule))?;
        self.having.add_rule(c, items.as_slice())?;
        self.own.push(OwnList::new(items, takes_long(rule.pred)))?;
        Ok(())
    }

    fn add_all(&mut self, alloc: Global, problem: &Problem) -> Result<(), AllocError>
        requires { IsIndexTo 0 problem.now self.old }
        ensures { OnOk result (IsIndexTo (length problem.now.constraints) problem.now self.new) }
    {
        problem.known();
        for k in 0..problem.constraints() {
            self.add(alloc, problem, ConId(k as u16))?;
        }
        Ok(())
    }

    /// Those of a problem. It fails only where memory runs out.
    pub(crate) fn new(alloc: Global, problem: &Problem) -> Result<Index, AllocError>
        ensures { IfOk result (λ i. IsIndexOf problem.now i) }
    {
        let own = Vec::with_capacity(alloc, problem.constraints())?;
        let having = Having::new(alloc, problem.variables())?;
        let mut index = Index { own, having };
        index.add_all(alloc, problem)?;
        Ok(index)
    }

    /// The variables of constraint c.
    pub(crate) fn own(&self, c: ConId) -> &[VarId]
        ensures { result.now ≡ own self.now.own c.0 }
    {
        match self.own.get(c.0 as usize) {
            Some(list) => list.items.as_slice(),
            None => &[],
        }
    }

    /// Whether no variable stands twice in constraint c, if there is one of this number.
    pub(crate) fn is_apart(&self, c: ConId) -> bool
        ensures { IsTrue result → Distinct (variable_numbers (own self.now.own c.0)) }
    {
        match self.own.get(c.0 as usize) {
            Some(list) => list.is_apart(),
            None => false,
        }
    }

    /// Whether constraint c is to be looked at after others.
    pub(crate) fn is_late(&self, c: ConId) -> bool {
        match self.own.get(c.0 as usize) {
            Some(list) => list.late,
            None => false,
        }
    }

    /// The constraints that have x.
    pub(crate) fn having(&self, x: VarId) -> &[ConId]
        ensures { result.now ≡ having self.now.having x.0 }
    {
        self.having.of(x)
    }
}
