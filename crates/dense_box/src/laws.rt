//! The law that ties demanded lists, the contract of a function that does nothing.
ghost use Rattle.std.specs.Prelude.{◌≡◌, ◌<◌, ℕ, suc, [], length, drop};
ghost use Rattle.qc_model.specs.Content.{Game};
ghost use Rattle.qc_model.specs.Demands.{demands};
ghost use Rattle.proof_tree.specs.Place.{list_after, next_scopes};

/// The list that is demanded after a scope is that of the next one, and the scopes from the next one on are those after it.
/// Nothing is demanded of the first.
pub fn lists_follow()
    ensures list { (g : Game) (i : ℕ) → i < length g.scopes → list_after g (drop i g.scopes) (demands g i) ≡ demands g (suc i) }
    ensures scopes { (g : Game) (i : ℕ) → i < length g.scopes → next_scopes (drop i g.scopes) ≡ drop (suc i) g.scopes }
    ensures first { (g : Game) → demands g 0 ≡ [] }
{}
