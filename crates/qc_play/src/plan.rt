//! A strategy, as a value.
ghost use Rattle.std.specs.Prelude.{◌≡◌, [], ◌∷◌, ◌++◌, OnOk, OnErr};
ghost use Rattle.std.specs.List.Sorted.{IsPermutation, IsSorted};
ghost use Rattle.qc_play.specs.Shape.{entries_of};
ghost use Rattle.qc_play.specs.EntryOrder.{entry_order as entry_order_of};

use qc_model::Numbers;
use std::alloc::{AllocError, Global};
use std::cmp::Ordering;

/// What the player does: a tree of choices. Anybody may build one, of any shape; whether it is a strategy of a game,
/// and an optimal one, is another question.
#[cycle(plan)]
#[derive(Drop)]
pub enum Plan {
    /// The goal is reached.
    End,
    /// In a scope of the player: the values of its variables, in order, and how it goes on.
    Choose(Numbers, Box<Plan>),
    /// In a scope of the opponent: what is done for each tuple of his.
    Answer(PlanList),
}

/// The answers to a scope of the opponent, in order.
#[cycle(plan)]
#[derive(Drop)]
pub struct PlanList {
    items: Vec<PlanEntry>,
}

/// A tuple of the opponent, and what the player does after it.
#[cycle(plan)]
#[derive(Drop)]
pub struct PlanEntry {
    pub tuple: Numbers,
    pub plan: Plan,
}

/// The order of two answers: that of their tuples, by the first place where they differ.
fn entry_order(x: &PlanEntry, y: &PlanEntry) -> Ordering
    ensures { result ≡ entry_order_of x.now y.now }
{
    x.tuple.items().cmp(&y.tuple.items())
}

fn sort_entries(entries: &mut Vec<PlanEntry>)
    ensures same { IsPermutation entries.old.items entries.new.items }
    ensures sorted { IsSorted entry_order_of entries.new.items }
{
    entries.sort_unstable_by(|x, y| entry_order(x, y));
}

impl PlanList {
    /// No answer. It takes no memory.
    pub fn new(alloc: Global) -> PlanList
        ensures { entries_of result ≡ [] }
    {
        PlanList {
            items: Vec::new(alloc),
        }
    }

    /// Puts an answer at the end. Where memory is refused, the list is unchanged.
    pub fn push(&mut self, item: PlanEntry) -> Result<(), AllocError>
        ensures ok { OnOk result (entries_of self.new ≡ entries_of self.old ++ item ∷ []) }
        ensures err { OnErr result (entries_of self.new ≡ entries_of self.old) }
    {
        self.items.push(item)?;
        Ok(())
    }

    /// The answers, first to last.
    pub fn items(&self) -> &[PlanEntry]
        ensures { result.now ≡ entries_of self.now }
    {
        self.items.as_slice()
    }

    /// Puts the answers in the order of their tuples.
    pub(crate) fn sort(&mut self)
        ensures same { IsPermutation (entries_of self.old) (entries_of self.new) }
        ensures sorted { IsSorted entry_order_of (entries_of self.new) }
    {
        sort_entries(&mut self.items);
    }
}
