//! A counterstrategy, as a value.
ghost use Rattle.std.specs.Prelude.{◌≡◌, [], ◌∷◌, ◌++◌, OnOk, OnErr};
ghost use Rattle.qc_play.specs.Shape.{replies_of};

use qc_model::Numbers;
use std::alloc::{AllocError, Global};

/// What the opponent does: a tree of choices. Anybody may build one, of any shape; whether it is a counterstrategy of
/// a game, and one that wins, is another question.
#[cycle(counter)]
#[derive(Drop)]
pub enum Counter {
    /// The goal is reached.
    End,
    /// In a scope of the opponent: the values of its variables, in order, and how it goes on.
    Take(Numbers, Box<Counter>),
    /// In a scope of the player: what is done for each of his tuples. One without an entry is taken to be hopeless.
    Reply(CounterList),
}

/// The replies to a scope of the player, in order.
#[cycle(counter)]
#[derive(Drop)]
pub struct CounterList {
    items: Vec<CounterEntry>,
}

/// A tuple of the player, and what the opponent does after it.
#[cycle(counter)]
#[derive(Drop)]
pub struct CounterEntry {
    pub tuple: Numbers,
    pub counter: Counter,
}

impl CounterList {
    /// No reply. It takes no memory.
    pub fn new(alloc: Global) -> CounterList
        ensures { replies_of result ≡ [] }
    {
        CounterList {
            items: Vec::new(alloc),
        }
    }

    /// Puts a reply at the end. Where memory is refused, the list is unchanged.
    pub fn push(&mut self, item: CounterEntry) -> Result<(), AllocError>
        ensures ok { OnOk result (replies_of self.new ≡ replies_of self.old ++ item ∷ []) }
        ensures err { OnErr result (replies_of self.new ≡ replies_of self.old) }
    {
        self.items.push(item)?;
        Ok(())
    }

    /// The replies, first to last.
    pub fn items(&self) -> &[CounterEntry]
        ensures { result.now ≡ replies_of self.now }
    {
        self.items.as_slice()
    }
}
