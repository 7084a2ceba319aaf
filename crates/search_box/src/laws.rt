//! Laws of boxes that are led on, for whoever goes through a game with them.
ghost use Rattle.std.specs.Prelude.{◌≡◌, ℕ, suc, Option, Some, List, [], ◌∷◌, ◌++◌, IsTrue, IsFalse};
ghost use Rattle.qc_model.specs.declared.problem.Condition.{Condition};
ghost use Rattle.qc_model.specs.declared.problem.Kind.TheVariants.{Exists};
ghost use Rattle.qc_model.specs.declared.problem.Scope.{Scope};
ghost use Rattle.qc_model.specs.declared.problem.VarId.{VarId};
ghost use Rattle.qc_model.specs.Content.{Game};
ghost use Rattle.qc_model.specs.Domains.{Box, Values, has_empty, is_sub_box};
ghost use Rattle.qc_model.specs.Game.{before};
ghost use Rattle.model_arguments.specs.Asked.{is_box_of};
ghost use Rattle.model_levels.specs.Spans.{kind_at};
ghost use Rattle.fd_store.specs.Held.{Follows};
ghost use Rattle.proof_tree.specs.declared.tree.Step.{Step};
ghost use Rattle.proof_tree.specs.Cover.{box_to};
ghost use Rattle.proof_tree.specs.InPlace.{steps_in_place};
ghost use Rattle.proof_tree.specs.Place.{Tracked};
ghost use Rattle.proof_tree.specs.Steps.{after_steps, step_marks};
ghost use Rattle.search_box.specs.Boxed.{Boxed, KeepsValues, IsMarked, LeadsOn};
ghost use Rattle.search_box.specs.Closes.{IsClosedAt, WasClosed};
ghost use Rattle.search_box.specs.Entered.{IsEntered, IsWithin};

/// What is led on is led on further; it stays entered, with the same position, unless a domain has become empty; and its
/// marks stay. A box that is entered stands at the scope's first variable.
pub fn boxes_lead_on()
    ensures further { (b c d : Boxed) → LeadsOn b c → LeadsOn c d → LeadsOn b d }
    ensures entered { (g : Game) (i : ℕ) (b c : Boxed) → IsEntered g i b → LeadsOn b c → IsFalse (has_empty c.store.box) → IsEntered g i c }
    ensures marked { (n : ℕ) (b c : Boxed) → IsMarked n b → LeadsOn b c → IsMarked n c }
    ensures begins { (g : Game) (i x : ℕ) (b : Boxed) → IsEntered g i b → x ≡ before g i → IsWithin g i x b }
{}

/// A box is entered at each scope before the one where it is; and again, once the values left are what they were, where the
/// places of the variables before the scope were kept. Then its marks are what they were, too, and
/// undoing leads back as it did.
pub fn boxes_come_back()
    ensures before { (g : Game) (i : ℕ) (b : Boxed) → IsEntered g (suc i) b → IsEntered g i b }
    ensures kept { (g : Game) (i : ℕ) (b c : Boxed) → KeepsValues g (suc i) b c → KeepsValues g i b c }
    ensures entered { (g : Game) (i : ℕ) (b c : Boxed) → IsEntered g i b → c.game ≡ b.game → c.store.box ≡ b.store.box → KeepsValues g i b c → IsEntered g i c }
    ensures marked { (n : ℕ) (b c : Boxed) → IsMarked n b → c.game ≡ b.game → c.store.box ≡ b.store.box → c.store.past ≡ b.store.past → IsMarked n c }
    ensures follows { (b c d : Boxed) → Follows b.store c.store → d.store.box ≡ c.store.box → d.store.past ≡ c.store.past → Follows b.store d.store }
{}

/// A box that is closed has no empty domain, and one of declared values was closed with nothing changed since; with each variable
/// that loses values one more has changed. Where two existential scopes follow each other, a box that is closed at the first is closed at the second.
pub fn closed_boxes_change()
    ensures full { (g : Game) (i : ℕ) (box : Box) → IsClosedAt g i box → IsFalse (has_empty box) }
    ensures none { (g : Game) (i : ℕ) (box : Box) → IsTrue (is_box_of g box) → IsClosedAt g i box → WasClosed g i [] box }
    ensures one_more { (g : Game) (i : ℕ) (box : Box) (x : VarId) (changed : List VarId) (vs : Values) → IsTrue (is_sub_box (box_to box x.0 vs) box) → WasClosed g i changed box → WasClosed g i (x ∷ changed) (box_to box x.0 vs) }
    ensures in_block { (g : Game) (i : ℕ) (box : Box) → kind_at g i ≡ Some Exists → kind_at g (suc i) ≡ Some Exists → IsClosedAt g i box → IsClosedAt g (suc i) box }
{}

/// Steps, and more steps after them, are steps together.
pub fn steps_go_together()
    ensures placed { (g : Game) (later : List Scope) (i : ℕ) (d : List Condition) (steps more : List Step) (box : Box) → IsTrue (steps_in_place g later i d steps box) → IsTrue (steps_in_place g later i d more (after_steps steps box)) → IsTrue (steps_in_place g later i d (steps ++ more) box) }
    ensures marked { (t : Option Tracked) (steps more : List Step) (box : Box) → step_marks t (steps ++ more) box ≡ step_marks t steps box ++ step_marks t more (after_steps steps box) }
    ensures reached { (steps more : List Step) (box : Box) → after_steps (steps ++ more) box ≡ after_steps more (after_steps steps box) }
{}
