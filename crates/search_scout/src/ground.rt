//! What a free search goes over, and what it changes.
use crate::chance::Chance;
use fd_store::Store;
use proof_tree::StepList;
use prop_engine::Engine;
use qc_model::{Sense, VarId};
use std::alloc::Global;

/// The variable whose best value is looked for.
#[derive(Clone, Copy)]
pub(crate) struct Wish {
    pub(crate) sense: Sense,
    pub(crate) objective: VarId,
}

/// The values left, what closes them, a place for one value of each variable, how many values may still be taken, and
/// how variables and values are chosen.
#[derive(Drop)]
pub(crate) struct Ground {
    pub(crate) alloc: Global,
    pub(crate) store: Store,
    pub(crate) engine: Engine,
    pub(crate) values: Vec<i64>,
    // Room for the steps of a closing, which nobody asks for.
    pub(crate) steps: StepList,
    pub(crate) turns: u64,
    pub(crate) varies: bool,
    pub(crate) wish: Option<Wish>,
    pub(crate) chance: Chance,
}
