// What a certificate asks of a horizon, as the contracts of functions without parameters.
ghost use Rattle.std.specs.Prelude.{◌≡◌, ◌+◌, ℕ, suc, Option, Some, List, length, IsTrue, IsFalse};
ghost use Rattle.qc_model.specs.declared.problem.Scope.{Scope};
ghost use Rattle.qc_model.specs.Content.{Game};
ghost use Rattle.qc_model.specs.Domains.{Box};
ghost use Rattle.proof_tree.specs.declared.tree.Horizon.{Horizon};
ghost use Rattle.proof_tree.specs.declared.tree.Step.{Step};
ghost use Rattle.proof_tree.specs.Diligent.{is_by, SeesAhead};
ghost use Rattle.proof_tree.specs.InPlace.{horizon_in_place, is_nearer};
ghost use Rattle.proof_tree.specs.Place.{is_goal};
ghost use Rattle.qc_cascade.specs.Ahead.{IsHorizon, IsOpen};

/// A horizon that is found at a scope stands in place at its node, where it is nearer than the one in force.
pub fn horizons_stand_in_place()
    ensures { (g : Game) (later : List Scope) (i : ℕ) (box : Box) (h : Option ℕ) (z : Horizon) → i + length later ≡ length g.scopes → IsFalse (is_goal later) → IsTrue (is_nearer z.scope.0 h) → IsHorizon g i z.scope.0 box z.steps → IsTrue (horizon_in_place g (Some z) later i box h) }
{}

/// A node sees ahead as a diligent certificate has to: where none is found up to the goal, whichever is in force; where
/// none is found before some number, or one is found there, with one in force that is at most as far.
pub fn nothing_ahead_is_missed()
    ensures open { (g : Game) (later : List Scope) (i : ℕ) (box : Box) (h : Option ℕ) (steps : List Step) → i + length later ≡ length g.scopes → IsOpen g i (suc (length g.scopes)) box steps → SeesAhead g later i box h }
    ensures under { (g : Game) (later : List Scope) (i stop : ℕ) (box : Box) (h : Option ℕ) (steps : List Step) → IsTrue (is_by stop h) → IsOpen g i stop box steps → SeesAhead g later i box h }
    ensures horizon { (g : Game) (later : List Scope) (i k : ℕ) (box : Box) (h : Option ℕ) (steps : List Step) → IsTrue (is_by k h) → IsHorizon g i k box steps → SeesAhead g later i box h }
{}
