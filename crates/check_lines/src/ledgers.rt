//! Of every game: a ledger that keeps all that was seen says what the definitions say of the tree.
ghost use Rattle.std.specs.Prelude.{◌≡◌, ◌≤◌, ◌+◌, ℕ, suc, true, List, length, Some, Option as Maybe};
ghost use Rattle.qc_model.specs.Content.{Game};
ghost use Rattle.qc_model.specs.Valid.{IsValid};
ghost use Rattle.proof_tree.specs.Tree.{Tree};
ghost use Rattle.proof_tree.specs.Counts.{depth_of};
ghost use Rattle.proof_tree.specs.InPlace.{root_in_place};
ghost use Rattle.proof_tree.specs.Lines.{tree_lines};
ghost use Rattle.proof_tree.specs.declared.line.Line.{Line as OneLine};
ghost use Rattle.check_lines.specs.Awaited.{none_awaited};
ghost use Rattle.check_lines.specs.Ledger.{Ledger as Kept, goes};
ghost use Rattle.check_lines.specs.LedgerHeld.{first_ledger, goes_through, TellsTree};
ghost use Rattle.check_lines.specs.LedgerSizes.{KeepsSizes, KeepsSizesAt};
ghost use Rattle.check_lines.specs.EndSizes.{ends_after, EndsSoFar, EndsAt};

/// In every game, with conditions and aggregates too: the lines of a tree that has each in place and nests at most 1,000
/// deep lead to a ledger that tells the tree's verdict, and the value of the first scope's own condition; and only such
/// lines lead to one that waits for no line.
pub fn ledgers_are_right()
    ensures trees { (g : Game) (t : Tree) → depth_of t ≤ 1000 → root_in_place g t ≡ true → (d : Kept) × (goes_through g (Some (first_ledger g)) (tree_lines t) ≡ Some d) × TellsTree g t d }
    ensures others { (g : Game) (ls : List OneLine) (d : Kept) → goes_through g (Some (first_ledger g)) ls ≡ Some d → d.awaited ≡ none_awaited → (t : Tree) × (ls ≡ tree_lines t) × TellsTree g t d }
{}

/// After each line of a valid game's certificate the ledger's numbers are long and small enough: what was seen in open
/// scopes sums to at most 10^9 for each line so far.
pub fn ledgers_keep_sizes()
    ensures first { (g : Game) → IsValid g → KeepsSizes g 0 (first_ledger g) }
    ensures lines { (g : Game) → IsValid g → (n : ℕ) (d : Kept) (l : OneLine) → KeepsSizes g n d → KeepsSizesAt g (suc n) (goes g (Some d) l) }
{}

/// By the ends so far, and not by all lines: in a valid game each brings a value of a variable at most. So what a ledger keeps
/// is as small as that many values make it, and one more for each open scope.
pub fn ledgers_keep_ends()
    ensures first { (g : Game) → EndsSoFar g 0 (first_ledger g) }
    ensures lines { (g : Game) → IsValid g → (n e : ℕ) (p : Maybe Kept) (l : OneLine) → KeepsSizesAt g n p → EndsAt g e p → EndsAt g (ends_after e l) (goes g p l) }
    ensures sizes { (g : Game) (n e m : ℕ) (p : Maybe Kept) → e + length g.scopes ≤ m → KeepsSizesAt g n p → EndsAt g e p → KeepsSizesAt g m p }
{}
