// The laws, each the contract of a function without parameters.
ghost use Rattle.std.specs.Prelude.{◌≡◌, ℕ, IsTrue, Option, drop};
ghost use Rattle.qc_model.specs.Content.{Game};
ghost use Rattle.qc_model.specs.Domains.{Box};
ghost use Rattle.qc_model.specs.Demands.{demands};
ghost use Rattle.proof_tree.specs.Tree.{Tree};
ghost use Rattle.proof_tree.specs.InPlace.{in_place};
ghost use Rattle.proof_alike.specs.Alike.{AreAlike};
ghost use Rattle.proof_alike.specs.Looking.{looks};
ghost use Rattle.proof_alike.specs.Same.{DoesAlike};

/// Where two boxes look the same from scope i on, a tree of a node of scope i, or of the goal, whose removals are
/// of variables that are looked at is in place in both or in neither. Where it is, it comes to the same verdict and
/// the same value of the scope's own condition in both; and it is in order, keeps its incumbents, closes its boxes
/// and sees ahead in both or in neither. This is so of any game, and of any horizon in force.
pub fn trees_do_alike()
    ensures placed { (g : Game) (t : Tree) (i : ℕ) (a b : Box) (h : Option ℕ) → AreAlike g i a b → IsTrue (looks g i t) → in_place g t (drop i g.scopes) i (demands g i) a h ≡ in_place g t (drop i g.scopes) i (demands g i) b h }
    ensures node { (g : Game) (t : Tree) (i : ℕ) (a b : Box) (h : Option ℕ) → AreAlike g i a b → IsTrue (looks g i t) → IsTrue (in_place g t (drop i g.scopes) i (demands g i) a h) → DoesAlike g t (drop i g.scopes) i (demands g i) a b h }
{}
