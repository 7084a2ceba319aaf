//! The laws, each the contract of a function without parameters.
ghost use Rattle.std.specs.Prelude.{◌≡◌, ◌≤◌, ◌<◌, ◌+◌, ◌++◌, ◌∷◌, [], None, ℕ, ℤ, Bool, false, Option, List, length, IsTrue, IsFalse};
ghost use Rattle.qc_model.specs.declared.problem.Condition.{Condition};
ghost use Rattle.qc_model.specs.declared.problem.Scope.{Scope};
ghost use Rattle.qc_model.specs.Content.{Game};
ghost use Rattle.qc_model.specs.Domains.{Box, Values, values_left};
ghost use Rattle.qc_model.specs.Verdict.{Seen};
ghost use Rattle.proof_tree.specs.declared.tree.Step.{Step};
ghost use Rattle.proof_tree.specs.Counts.{ending_turns, ending_opens};
ghost use Rattle.proof_tree.specs.Cover.{box_to};
ghost use Rattle.proof_tree.specs.Place.{is_goal, list_after};
ghost use Rattle.proof_tree.specs.Tree.{Ending, Branches, piece, go};
ghost use Rattle.joins.specs.Verdicts.{scope_verdict, scope_wishes};
ghost use Rattle.search_parts.specs.Beaten.{seen_bounds};
ghost use Rattle.search_parts.specs.Bounded.{Outdoes};
ghost use Rattle.search_parts.specs.Made.{PartMade, CasesMade};
ghost use Rattle.search_parts.specs.Settled.{beats_none, is_ended, is_settled, is_vague_verdict};

/// Where no further leaf of a scope counts, it is known what the scope comes to: it is lost, exact, or comes to a bound that the
/// scope right above beats.
pub fn ended_scopes_are_known()
    ensures { (above : ℤ → Bool) (g : Game) (later : List Scope) (d : List Condition) (a : List ℤ) (xs : List Seen) → IsFalse (is_goal later) → Outdoes g later d above → IsTrue (is_ended above later (list_after g later d) xs) → IsFalse (is_vague_verdict above (scope_verdict later g d a xs)) }
{}

/// Where it is sure what a scope comes to, the marks of bounds that were given up first change nothing of it.
pub fn marks_change_nothing()
    ensures { (g : Game) (later : List Scope) (d : List Condition) (a : List ℤ) (ms : List ℤ) (xs : List Seen) → IsFalse (is_vague_verdict beats_none (scope_verdict later g d a (seen_bounds ms ++ xs))) → scope_verdict later g d a xs ≡ scope_verdict later g d a (seen_bounds ms ++ xs) }
{}

/// Where bounds speak of nothing, a part of a scope's own tree may stand after others than it was made after, if with it they end the
/// scope wherever those do: so after more, and without what ends nothing.
pub fn parts_stand_elsewhere()
    ensures { (cuts : Bool) (above : ℤ → Bool) (g : Game) (later : List Scope) (i : ℕ) (d : List Condition) (box : Box) (h : Option ℕ) (before others : List Seen) (ms : List ℤ) (seen : List Seen) (had left : ℕ) (steps : List Step) (e : Ending) → scope_wishes later g d ≡ [] → (IsTrue (is_ended above later (list_after g later d) (before ++ seen)) → IsTrue (is_ended above later (list_after g later d) (others ++ seen))) → PartMade cuts above g later i d box h before ms seen had left steps e → PartMade cuts above g later i d box h others ms seen had left steps e }
{}

/// There a search that cuts may go into a case of a branch before it goes into those that stand before it, in which `seen` was seen:
/// with the cases behind it it makes the cases from it on, whatever turns were its own, where none of its cases is open.
pub fn cases_stand_behind()
    ensures { (cuts : Bool) (above : ℤ → Bool) (g : Game) (later : List Scope) (i : ℕ) (d : List Condition) (box : Box) (h : Option ℕ) (x : ℕ) (v : ℤ) (vs : Values) (before seen : List Seen) (ms : List ℤ) (aside rest : List Seen) (begun stopped had left last : ℕ) (steps : List Step) (e : Ending) (bs : Branches) → IsTrue cuts → scope_wishes later g d ≡ [] → 1 < length (values_left box x) → ending_opens e ≡ 0 → ending_turns e + left ≤ had → PartMade cuts above g later i d (box_to box x (v ∷ [])) h before ms aside begun stopped steps e → CasesMade cuts above g later i d box h x vs (is_settled later (list_after g later d) aside) ((before ++ seen) ++ aside) rest left last bs → CasesMade cuts above g later i d box h x (v ∷ vs) false (before ++ seen) (aside ++ rest) (1 + had) last (piece None (go steps e) bs) }
{}
