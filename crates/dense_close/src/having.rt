//! Which constraints have each variable.
ghost use Rattle.std.specs.Prelude.{◌≡◌, ◌<◌, length, nat_lt, IsTrue, IfOk, OnOk};
ghost use Rattle.std.specs.List.{list_all};
ghost use Rattle.model_arguments.specs.Written.{variable_numbers};
ghost use Rattle.dense_close.specs.Index.{having, has_it, HasGrown};

use qc_model::{ConId, VarId};
use std::alloc::{AllocError, Global};
use std::marker::Model;

/// The constraints that have one variable.
#[derive(Drop)]
struct RuleList {
    items: Vec<ConId>,
}

impl Model for RuleList {
    ghost use Rattle.std.specs.Prelude.{List};
    ghost use Rattle.qc_model.specs.declared.problem.ConId.{ConId};

    ghost Value = { List ConId };

    ghost view = { λ a. a.items.items };
}

/// The constraints that have each variable.
#[derive(Drop)]
pub(crate) struct Having {
    lists: Vec<RuleList>,
}

impl Model for Having {
    ghost use Rattle.dense_close.specs.Index.{Having};

    ghost Value = { Having };

    ghost view = { λ a. a.lists.items };
}

impl Having {
    /// No constraint yet, for so many variables.
    pub(crate) fn new(alloc: Global, count: usize) -> Result<Having, AllocError>
        ensures { IfOk result (λ h. length h ≡ count) }
    {
        let mut lists = Vec::with_capacity(alloc, count)?;
        for _ in 0..count {
            lists.push(RuleList {
                items: Vec::new(alloc),
            })?;
        }
        Ok(Having { lists })
    }

    /// Those that have x.
    pub(crate) fn of(&self, x: VarId) -> &[ConId]
        ensures { result.now ≡ having self.now x.0 }
    {
        match self.lists.get(x.0 as usize) {
            Some(list) => list.items.as_slice(),
            None => &[],
        }
    }

    fn add(&mut self, c: ConId, x: VarId) -> Result<(), AllocError>
        requires { x.0 < length self.old }
        ensures grown { HasGrown self.old self.new }
        ensures added { OnOk result (IsTrue (has_it self.new c.0 x.0)) }
    {
        self.lists[x.0 as usize].items.push(c)?;
        Ok(())
    }

    /// Adds the constraint c, which has these variables.
    pub(crate) fn add_rule(&mut self, c: ConId, own: &[VarId]) -> Result<(), AllocError>
        requires { IsTrue (list_all (λ x. nat_lt x (length self.old)) (variable_numbers own.now)) }
        ensures grown { HasGrown self.old self.new }
        ensures added { OnOk result (IsTrue (list_all (has_it self.new c.0) (variable_numbers own.now))) }
    {
        for x in own {
            self.add(c, *x)?;
        }
        Ok(())
    }
}
