// The laws, each the contract of a function without parameters.
ghost use Rattle.std.specs.Prelude.{IsTrue};
ghost use Rattle.std.specs.List.{list_all};
ghost use Rattle.proof_tree.specs.declared.tree.Version.{Version};
ghost use Rattle.proof_tree.specs.Lines.{tree_lines};
ghost use Rattle.proof_tree.specs.Text.{tree_fits};
ghost use Rattle.proof_tree.specs.Tree.{Tree};
ghost use Rattle.proof_text.specs.LineRanges.{line_fits};

/// The lines of a tree that has a text fit it, so that an arena of them can be written: what is written is the
/// certificate's one text.
pub fn lines_fit()
    ensures { (version : Version) (t : Tree) → IsTrue (tree_fits version t) → IsTrue (list_all line_fits (tree_lines t)) }
{}
