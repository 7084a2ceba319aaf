// The laws, each the contract of a function without parameters.
ghost use Rattle.std.specs.Prelude.{◌≡◌, ◌≤◌, ℕ, suc, Bool, IsTrue, Option, true, false, List, [], ◌∷◌, ◌++◌, length, ℤ};
ghost use Rattle.qc_model.specs.Content.{Game};
ghost use Rattle.qc_model.specs.declared.problem.Scope.{Scope};
ghost use Rattle.qc_model.specs.Lists.{Among, Distinct};
ghost use Rattle.qc_model.specs.Domains.{Box, InBox, Values, declared_box, values_left, is_none_left, has_empty};
ghost use Rattle.qc_model.specs.Game.{allows, is_of_scope, IsMove};
ghost use Rattle.qc_model.specs.Valid.{IsValid};
ghost use Rattle.proof_tree.specs.declared.tree.Horizon.{Horizon};
ghost use Rattle.proof_tree.specs.declared.tree.Outcome.{Outcome};
ghost use Rattle.proof_tree.specs.declared.tree.Step.{Step};
ghost use Rattle.proof_tree.specs.Tree.{Tree};
ghost use Rattle.proof_tree.specs.Cover.{box_to};
ghost use Rattle.proof_tree.specs.Place.{position, is_fixed};
ghost use Rattle.proof_tree.specs.Steps.{after_step};
ghost use Rattle.proof_tree.specs.InPlace.{root_in_place, horizon_in_place, horizon_below};
ghost use Rattle.proof_tree.specs.Read.{root_finding};
ghost use Rattle.proof_tree.specs.Proves.{proves};
ghost use Rattle.proof_tree.specs.Good.{IsBlocked};
ghost use Rattle.proof_tree.specs.Fair.{Taken, IsBoxAt, IsFairBox, IsFairWithin, bounded_within, bounded_after};
ghost use Rattle.proof_tree.specs.Meaning.{OutcomeMeans, VerdictMeans};
ghost use Rattle.proof_meaning.specs.Answered.{Answered};
ghost use Rattle.proof_meaning.specs.Nodes.{node_in_place, NodeMeans, IsScope, is_legal_at};
ghost use Rattle.std.specs.Prelude.{drop};

/// What a certificate that proves its outcome says of a valid game is so: where it states True, the
/// game is won and the strategy read from the tree is optimal; where it states an optimum too, that
/// is the value of the first scope's condition under every optimal strategy; where it states False,
/// the game isn't won and the counterstrategy read from the tree wins, with one reply for each tuple
/// that it answers.
pub fn outcomes_are_true()
    ensures { (g : Game) (outcome : Outcome) (optimum : Option ℤ) (t : Tree) → IsValid g → IsTrue (proves g outcome optimum t) → OutcomeMeans outcome optimum g t }
{}

/// In a valid game the verdict of the root of a tree in place means what it says.
pub fn root_means_its_verdict()
    ensures { (g : Game) (t : Tree) → IsValid g → IsTrue (root_in_place g t) → VerdictMeans (root_finding g t).verdict g g.scopes 0 [] [] (declared_box g) (root_finding g t) false }
{}

/// In a valid game the verdict of each node means what it says: of a node of scope i, or of the goal,
/// with the values a before it, a fair box, and a horizon in force that blocks the box, where the tree is
/// in place there. An exact verdict has a strategy that is optimal at a and lies in the box, and no
/// optimal one in the box does better; an upper bound is one for all optimal strategies in the box; where
/// it is lost, no optimal strategy lies in the box, and where no bound of the block stands above, the
/// counterstrategy wins at a. Strategy and counterstrategy are those that the node shows.
pub fn nodes_mean_their_verdicts()
    ensures { (g : Game) (t : Tree) (i : ℕ) (a : List ℤ) (box : Box) (is_bounded : Bool) (h : Option ℕ) → IsValid g → i ≤ length g.scopes → IsFairBox g is_bounded i a box → IsBlocked g i a box h → IsTrue (node_in_place g t i box h) → NodeMeans g t i a box is_bounded }
{}

/// In a valid game fair boxes are handed on, at scopes of either kind: the root has one; from a node it
/// goes into the scope's own tree; each legal step, a removal or a bound, that empties no domain keeps
/// it; each case of a branch keeps it, with the values that it covers; and each leaf that goes on hands
/// it to the next node. After a bound, and until the block ends, only its weaker form is kept.
pub fn fair_boxes_are_handed_on()
    ensures root { (g : Game) → IsValid g → IsFairBox g false 0 [] (declared_box g) }
    ensures node { (g : Game) (s : Scope) (i : ℕ) (a : List ℤ) (box : Box) (is_bounded : Bool) → IsValid g → IsScope g i s → IsFairBox g is_bounded i a box → IsFairWithin g (bounded_within s.kind is_bounded) i [] a box }
    ensures step { (g : Game) (s : Scope) (i : ℕ) (taken : List Taken) (a : List ℤ) (box : Box) (is_bounded : Bool) (step : Step) → IsValid g → IsScope g i s → IsFairWithin g is_bounded i taken a box → IsTrue (is_legal_at g i step box) → has_empty (after_step step box) ≡ false → IsFairWithin g (bounded_after step is_bounded) i taken a (after_step step box) }
    ensures case { (g : Game) (s : Scope) (i : ℕ) (taken : List Taken) (a : List ℤ) (box : Box) (is_bounded : Bool) (x : ℕ) (vs : Values) → IsValid g → IsScope g i s → IsFairWithin g is_bounded i taken a box → IsTrue (is_of_scope g i x) → is_none_left vs ≡ false → Distinct vs → ((v : ℤ) → Among v vs → Among v (values_left box x)) → IsFairWithin g is_bounded i (record { variable = x; values = vs } ∷ taken) a (box_to box x vs) }
    ensures leaf { (g : Game) (s : Scope) (i : ℕ) (taken : List Taken) (a : List ℤ) (box : Box) (is_bounded : Bool) → IsValid g → IsScope g i s → IsFairWithin g is_bounded i taken a box → IsTrue (is_fixed g i box) → IsTrue (allows g i (position g (suc i) box)) → IsFairBox g is_bounded (suc i) (position g (suc i) box) box }
{}

/// Where a horizon K is in force at a node of scope i, no values in the box make the restrictions of the
/// scopes from i to K hold, or the goal's where K is the goal: of a valid game, a horizon that is in place
/// shows this where it stands; it stays so in each smaller box, and at the next node after each move.
pub fn horizons_block()
    ensures stands { (g : Game) (z : Option Horizon) (i : ℕ) (a : List ℤ) (box : Box) (h : Option ℕ) → IsValid g → IsBoxAt g i a box → IsTrue (horizon_in_place g z (drop i g.scopes) i box h) → IsBlocked g i a box h → IsBlocked g i a box (horizon_below z h) }
    ensures within { (g : Game) (i : ℕ) (a : List ℤ) (box small : Box) (h : Option ℕ) → ((w : List ℤ) → InBox w small → InBox w box) → IsBlocked g i a box h → IsBlocked g i a small h }
    ensures next { (g : Game) (i : ℕ) (a t : List ℤ) (box : Box) (h : Option ℕ) → IsMove g i a t → IsBlocked g i a box h → IsBlocked g (suc i) (a ++ t) box h }
{}

/// In a valid game, a tree in place answers each allowed tuple: where the opponent chooses and every leaf
/// is exact, the leaves go on with each of his allowed tuples, once, and with no other.
pub fn trees_answer_all_tuples()
    ensures { (g : Game) (t : Tree) → IsValid g → IsTrue (root_in_place g t) → Answered g t g.scopes 0 [] (declared_box g) }
{}
