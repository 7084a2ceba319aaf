//! The machine: it takes the items of a list one by one, and says at the end what the list proves.
use check_box::Remains;
use lemma_list::Lemma;
use model_levels::Levels;
use qc_model::Kind;
use std::alloc::Global;

/// Where a list is: between entries, in the head of a lemma, or in its steps. Nothing is kept of a list that is wrong.
#[derive(Clone, Copy)]
pub(crate) enum Stage {
    Between,
    Heading,
    Closing,
    Wrong,
}

/// What is known after some items of a list: the lemmas that may be named, the one that is being shown, and a store with
/// its trail in place of boxes.
#[derive(Drop)]
pub struct LemmaMachine<'p> {
    pub(crate) alloc: Global,
    pub(crate) levels: Levels<'p>,
    pub(crate) remains: Remains,
    pub(crate) known: Vec<Option<Lemma>>,
    // who loses the game by the last entry
    pub(crate) loser: Option<Kind>,
    pub(crate) stage: Stage,
    // the lemma that is being shown, its position, and the scope up to which play is known to go on
    pub(crate) lemma: Lemma,
    pub(crate) place: usize,
    pub(crate) passed: usize,
}
