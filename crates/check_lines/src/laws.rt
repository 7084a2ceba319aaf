//! What the machine's answers mean.
ghost use Rattle.std.specs.Prelude.{◌≡◌, ◌≤◌, true, List, Some, Option as Maybe};
ghost use Rattle.qc_model.specs.Content.{Game};
ghost use Rattle.proof_tree.specs.Tree.{Tree};
ghost use Rattle.proof_tree.specs.Counts.{depth_of};
ghost use Rattle.proof_tree.specs.InPlace.{root_in_place};
ghost use Rattle.proof_tree.specs.Lines.{tree_lines};
ghost use Rattle.proof_tree.specs.declared.line.Line.{Line as OneLine};
ghost use Rattle.check_lines.specs.declared.answer.Answer.{Answer as Told};
ghost use Rattle.check_lines.specs.LedgerHeld.{first_ledger, goes_through};
ghost use Rattle.check_lines.specs.Found.{Answers, IsAnswer};

/// In every game: a tree that has each line in place and nests at most 1,000 deep gets its answer; and an answer is given
/// only for the lines of a tree that has each in place, and is that tree's, whichever has these lines.
pub fn answers_are_right()
    ensures trees { (g : Game) (t : Tree) (o : Maybe Told) → Answers o (goes_through g (Some (first_ledger g)) (tree_lines t)) → depth_of t ≤ 1000 → root_in_place g t ≡ true → (f : Told) × (o ≡ Some f) × IsAnswer g t f }
    ensures own { (g : Game) (t : Tree) (f : Told) → Answers (Some f) (goes_through g (Some (first_ledger g)) (tree_lines t)) → IsAnswer g t f }
    ensures others { (g : Game) (ls : List OneLine) (f : Told) → Answers (Some f) (goes_through g (Some (first_ledger g)) ls) → (t : Tree) × (ls ≡ tree_lines t) × IsAnswer g t f }
{}
