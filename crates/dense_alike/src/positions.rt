//! The positions of named nodes.
ghost use Rattle.std.specs.Prelude.{◌≡◌, ◌<◌, ◌≤◌, ◌&&◌, ◌++◌, ◌∷◌, [], drop, length, slice_index_or, IfOk, OnErr, OnOk, IsTrue};
ghost use Rattle.dense_tree.specs.Alike.{look_same, reads_one_position, same_left};
ghost use Rattle.dense_alike.specs.Laid.{is_full_box};

use crate::comparer::Comparer;
use crate::kept_box::KeptBox;
use fd_store::Store;
use model_levels::Levels;
use qc_model::{ScopeId, VarId};
use std::alloc::{AllocError, Global};
use std::marker::Model;

/// The boxes of named nodes, in the order in which they were named. A contract sees the game and the boxes.
///
/// A box is kept as ranges: it takes 16 bytes for each range of values in a row, and 16 for each variable. Beside the boxes there
/// is a store with its trail, and a few bytes for each variable and constraint; comparing takes no memory.
#[derive(Drop)]
pub struct Positions<'p> {
    alloc: Global,
    comparer: Comparer<'p>,
    kept: Vec<KeptBox>,
}

impl<'p> Model for Positions<'p> {
    ghost use Rattle.std.specs.Prelude.{◌≡◌, true};
    ghost use Rattle.std.specs.List.{list_all};
    ghost use Rattle.dense_alike.specs.Kept.{Kept};
    ghost use Rattle.dense_alike.specs.Laid.{is_full_box};

    ghost Value = { Kept };

    ghost view = { λ p. record { game = p.comparer; boxes = p.kept.items } };

    ghost invariant = { λ p. list_all (is_full_box p.comparer) p.kept.items ≡ true };
}

impl<'p> Positions<'p> {
    /// No box yet. It takes what comparing needs, and fails only where memory runs out.
    pub fn new(alloc: Global, levels: &Levels<'p>) -> Result<Positions<'p>, AllocError>
        ensures { IfOk result (λ p. p ≡ record { game = levels.now.problem.now; boxes = [] }) }
    {
        Ok(Positions {
            alloc,
            comparer: Comparer::new(alloc, levels)?,
            kept: Vec::new(alloc),
        })
    }

    /// Keeps what is left to all variables, after the boxes that are kept. It takes time in the order of the number of variables,
    /// and of the values left to those that have gaps. Where memory runs out nothing is kept.
    pub fn keep(&mut self, store: &Store) -> Result<(), AllocError>
        requires { IsTrue (is_full_box self.old.game store.now.box) }
        ensures kept { OnOk result (self.new ≡ record self.old { boxes = self.old.boxes ++ store.now.box ∷ [] }) }
        ensures refused { OnErr result (self.new ≡ self.old) }
    {
        self.comparer.known();
        let kept = KeptBox::new(self.alloc, store)?;
        self.kept.push(kept)?;
        Ok(())
    }

    /// Whether each variable before scope i that is read from it on has one value left, both in the store's box and in kept box n,
    /// and both look the same from the scope on. The goal counts as the last scope. It takes no memory, and time in the order of the
    /// size of the problem.
    pub fn look_same(&mut self, i: ScopeId, n: usize, store: &Store) -> bool
        requires scope { i.0 ≤ length self.old.game.scopes }
        requires kept { n < length self.old.boxes }
        requires here { IsTrue (is_full_box self.old.game store.now.box) }
        ensures stays { self.new ≡ self.old }
        ensures same { let kept = slice_index_or self.old.boxes n [] in result ≡ (reads_one_position self.old.game i.0 store.now.box && reads_one_position self.old.game i.0 kept && look_same self.old.game i.0 store.now.box kept) }
    {
        self.comparer.look_same(i, &self.kept[n], store)
    }

    /// Whether as much is left to each variable from `first` on, in the store's box as in kept box n. It takes time in the order of
    /// their number, and of the values left to those that have gaps.
    pub fn same_left(&self, first: usize, n: usize, store: &Store) -> bool
        requires kept { n < length self.now.boxes }
        requires here { IsTrue (is_full_box self.now.game store.now.box) }
        ensures { result ≡ same_left (drop first store.now.box) (drop first (slice_index_or self.now.boxes n [])) }
    {
        self.comparer.known();
        let kept = &self.kept[n];
        for k in first..store.count() {
            if !kept.is_left(VarId(k as u16), store) {
                return false;
            }
        }
        true
    }
}
