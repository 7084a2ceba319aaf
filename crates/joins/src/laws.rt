//! The laws, each the contract of a function that does nothing.
//!
//! Whoever hands leaves to joins owes that vectors are as long as their list, and numbers small beside one another. What
//! a game comes to is so anyhow: a vector has a value for each entry of its scope's list, and its numbers are no larger
//! than those of the leaves together. So it is enough to count: a position and a number in place of an aggregate over no
//! branch are values of variables, at most 10^9, and a game in which so many leaves and bounds are seen that they reach
//! 2^62 isn't gone through.
ghost use Rattle.std.specs.Prelude.{◌≡◌, ◌≤◌, ◌<◌, ◌+◌, ℕ, suc, Bool, List, [], ◌∷◌, ◌++◌, length, drop, ℤ, unsigned_abs, IsTrue, IsFalse, IsPermutation};
ghost use Rattle.qc_model.specs.declared.problem.Condition.{Condition};
ghost use Rattle.qc_model.specs.declared.problem.Scope.{Scope};
ghost use Rattle.qc_model.specs.Content.{Game};
ghost use Rattle.qc_model.specs.Valid.{IsValid};
ghost use Rattle.qc_model.specs.Demands.{demands};
ghost use Rattle.qc_model.specs.Verdict.{Verdict, unknown, Seen, seen_barred, seen_skipped, seen_bound, seen_node};
ghost use Rattle.qc_model.specs.ExistsVerdict.{some_open};
ghost use Rattle.qc_model.specs.ForallVerdict.{goal_verdict};
ghost use Rattle.joins.specs.Columns.{IsSmall};
ghost use Rattle.joins.specs.Verdicts.{scope_verdict, verdict_at, stuck_of, scope_settled, scope_wishes, wishes_at};
ghost use Rattle.joins.specs.Joins.{IsLong, LeafFits, StandsAt, game_of};
ghost use Rattle.joins.specs.declared.joins.Joins.{Joins};
ghost use Rattle.joins.specs.Sizes.{AreLong, IsSized, HasSizes, AreNumbers};
ghost use Rattle.joins.specs.Ends.{HasEnds, IsOfEnds, HasPart};

/// What a scope or the goal comes to has a value for each entry of its own list, where the leaves' have for the list
/// after the scope.
pub fn verdicts_are_long()
    ensures scope { (g : Game) (i : ℕ) (a : List ℤ) (xs : List Seen) → i < length g.scopes → AreLong g i xs → IsLong g i (verdict_at g i a xs) }
    ensures stuck { (g : Game) (i : ℕ) (a : List ℤ) → IsLong g i (stuck_of (drop i g.scopes) g (demands g i) a) }
    ensures goal { (g : Game) (holds : Bool) (a : List ℤ) → IsLong g (length g.scopes) (goal_verdict g holds (demands g (length g.scopes)) a) }
{}

/// What a scope of a valid game comes to has numbers no larger than those of its leaves and bounds together, or than a
/// value of a variable; so has a scope that nobody passes, and the goal.
pub fn verdicts_are_sized()
    ensures scope { (g : Game) (i : ℕ) (a : List ℤ) (xs : List Seen) (n : ℕ) → IsValid g → AreNumbers a → HasSizes n xs → 1 ≤ n → IsSized n (verdict_at g i a xs) }
    ensures stuck { (g : Game) (i : ℕ) (a : List ℤ) → IsValid g → AreNumbers a → IsSized 1 (stuck_of (drop i g.scopes) g (demands g i) a) }
    ensures goal { (g : Game) (holds : Bool) (a : List ℤ) → IsValid g → AreNumbers a → IsSized 1 (goal_verdict g holds (demands g (length g.scopes)) a) }
{}

/// Leaves and bounds put after others are as long as both.
pub fn lengths_join()
    ensures none { (g : Game) (i : ℕ) → AreLong g i [] }
    ensures join { (g : Game) (i : ℕ) (xs ys : List Seen) → AreLong g i xs → AreLong g i ys → AreLong g i (xs ++ ys) }
    ensures node { (g : Game) (i : ℕ) (xs : List Seen) (v : Verdict) → AreLong g i xs → IsLong g (suc i) v → AreLong g i (xs ++ seen_node v ∷ []) }
{}

/// Leaves and bounds put after others are as large as both together.
pub fn sizes_join()
    ensures none { HasSizes 0 [] }
    ensures more { (m n : ℕ) (xs : List Seen) → HasSizes m xs → m ≤ n → HasSizes n xs }
    ensures join { (m n : ℕ) (xs ys : List Seen) → HasSizes m xs → HasSizes n ys → HasSizes (m + n) (xs ++ ys) }
    ensures barred { (n : ℕ) (xs : List Seen) → HasSizes n xs → HasSizes n (xs ++ seen_barred ∷ []) }
    ensures skipped { (n : ℕ) (xs : List Seen) → HasSizes n xs → HasSizes n (xs ++ seen_skipped ∷ []) }
    ensures bound { (n : ℕ) (xs : List Seen) (m : ℤ) → HasSizes n xs → unsigned_abs m ≤ 1000000000 → HasSizes (n + 1) (xs ++ seen_bound m ∷ []) }
    ensures node { (m n : ℕ) (xs : List Seen) (v : Verdict) → HasSizes m xs → IsSized n v → HasSizes (m + n) (xs ++ seen_node v ∷ []) }
{}

/// A join takes a leaf that is as long as its list, where the leaves and bounds with it are no larger than 2^32 values
/// of variables.
pub fn leaves_fit()
    ensures small { (n : ℕ) (xs : List Seen) → HasSizes n xs → n ≤ 4294967296 → IsSmall xs }
    ensures fit { (g : Game) (i m n : ℕ) (xs : List Seen) (v : Verdict) → IsLong g (suc i) v → HasSizes m xs → IsSized n v → m + n ≤ 4294967296 → LeafFits g i xs v }
{}

/// What a scope of a valid game comes to is as large as the ends make it that its leaves come from, where some part of its own
/// tree has ended.
pub fn numbers_come_from_ends()
    ensures verdict { (g : Game) (i : ℕ) (a : List ℤ) (xs : List Seen) (n : ℕ) → IsValid g → AreNumbers a → HasEnds n xs → HasPart n xs → IsOfEnds n (verdict_at g i a xs) }
    ensures node { (n : ℕ) (v : Verdict) → IsOfEnds n v → HasEnds n (seen_node v ∷ []) }
    ensures join { (m n : ℕ) (xs ys : List Seen) → HasEnds m xs → HasEnds n ys → HasEnds (m + n) (xs ++ ys) }
    ensures sizes { (n : ℕ) (xs : List Seen) → HasEnds n xs → HasSizes (n + 1) xs }
{}

/// Where nothing is demanded after a scope of the player, and in each scope of the opponent, whatever his list, what the scope comes
/// to doesn't depend on the order of its leaves and bounds; nor does what its join stands for.
pub fn order_changes_nothing()
    ensures verdict { (g : Game) (later : List Scope) (d : List Condition) (a : List ℤ) (xs ys : List Seen) → scope_wishes later g d ≡ [] → IsPermutation xs ys → scope_verdict later g d a ys ≡ scope_verdict later g d a xs }
    ensures stands { (joins : Joins) (i : ℕ) (xs ys : List Seen) → wishes_at (game_of joins) i ≡ [] → IsPermutation xs ys → StandsAt joins i xs → StandsAt joins i ys }
{}

/// Where nothing is demanded before and after a scope, nothing is known of it while a leaf is open and it isn't settled, whatever else
/// was seen.
pub fn open_scopes_are_unknown()
    ensures { (g : Game) (later : List Scope) (a : List ℤ) (xs : List Seen) → scope_wishes later g [] ≡ [] → IsTrue (some_open xs) → IsFalse (scope_settled later g [] xs) → scope_verdict later g [] a xs ≡ unknown }
{}
