//! Why the game with opposing scopes has the answer of the old one.
ghost use Rattle.std.specs.Prelude.{◌≤◌, ℕ, Bool, length};
ghost use Rattle.qc_model.specs.Content.{Game};
ghost use Rattle.qc_model.specs.Valid.{IsValid};
ghost use Rattle.qc_pessimist.specs.Opposed.{with_opposing, opposed_game};
ghost use Rattle.qc_pessimist.specs.Laws.{ReadsAtWorst, NoBetterAtWorst};

/// With a scope after each chosen one whose owner wishes the opposite, a game has the optimal strategies
/// of the old one where the chosen owners meet the worst ties, each with an empty choice put in after
/// their choices, and no other. Both are won or neither is, and the optimum of the new game is the
/// pessimistic optimum of the old one. The new game is valid where the old one is, unless it has too many
/// scopes. What the first owner comes to where it alone meets the worst ties is never better than its
/// optimum.
pub fn opposing_scopes_tell_the_worst()
    ensures reads { (q : ℕ → Bool) (g : Game) → ReadsAtWorst q g (opposed_game q g) }
    ensures valid { (q : ℕ → Bool) (g : Game) → IsValid g → length (with_opposing q 0 g.scopes) ≤ 64 → IsValid (opposed_game q g) }
    ensures law { (q : ℕ → Bool) (g : Game) → NoBetterAtWorst q g }
{}
