//! Variables whose lemmas wait to be looked at, and constraints that wait, those that take long behind the others.
use qc_model::{ConId, VarId};
use std::alloc::{AllocError, Global};
use std::collections::VecDeque;

#[derive(Drop)]
pub(crate) struct Waiting {
    variables: Vec<VarId>,
    variable_waits: Vec<bool>,
    quick: VecDeque<ConId>,
    slow: VecDeque<ConId>,
    rule_waits: Vec<bool>,
    is_slow: Vec<bool>,
}

impl Waiting {
    /// Nothing waits. Which constraints take long is told for each of them.
    pub(crate) fn new(
        alloc: Global,
        variables: usize,
        is_slow: Vec<bool>,
    ) -> Result<Waiting, AllocError> {
        Ok(Waiting {
            variables: Vec::new(alloc),
            variable_waits: vec![in alloc; false; variables]?,
            quick: VecDeque::new(alloc),
            slow: VecDeque::new(alloc),
            rule_waits: vec![in alloc; false; is_slow.len()]?,
            is_slow,
        })
    }

    pub(crate) fn add_variable(&mut self, x: VarId) -> Result<(), AllocError> {
        if let Some(waits) = self.variable_waits.get_mut(x.0 as usize) {
            if *waits {
                return Ok(());
            }
            *waits = true;
            self.variables.push(x)?;
        }
        Ok(())
    }

    pub(crate) fn add_rule(&mut self, c: ConId) -> Result<(), AllocError> {
        let is_slow = self.is_slow.get(c.0 as usize).copied().unwrap_or(false);
        if let Some(waits) = self.rule_waits.get_mut(c.0 as usize) {
            if *waits {
                return Ok(());
            }
            *waits = true;
            if is_slow {
                self.slow.push_back(c)?;
            } else {
                self.quick.push_back(c)?;
            }
        }
        Ok(())
    }

    pub(crate) fn next_variable(&mut self) -> Option<VarId> {
        let x = self.variables.pop()?;
        if let Some(waits) = self.variable_waits.get_mut(x.0 as usize) {
            *waits = false;
        }
        Some(x)
    }

    /// The next constraint. It counts as one that waits until it was looked at, since its filter leaves nothing more for it to
    /// do.
    pub(crate) fn next_rule(&mut self) -> Option<ConId> {
        match self.quick.pop_front() {
            Some(c) => Some(c),
            None => self.slow.pop_front(),
        }
    }

    /// The constraint was looked at.
    pub(crate) fn finish_rule(&mut self, c: ConId) {
        if let Some(waits) = self.rule_waits.get_mut(c.0 as usize) {
            *waits = false;
        }
    }

    /// Nothing waits any more.
    pub(crate) fn clear(&mut self) {
        for _ in 0..self.variables.len() {
            let _ = self.next_variable();
        }
        for _ in 0..self.quick.len().saturating_add(self.slow.len()) {
            if let Some(c) = self.next_rule() {
                self.finish_rule(c);
            }
        }
    }
}
