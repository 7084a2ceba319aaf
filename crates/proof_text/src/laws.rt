// Laws of the texts, each the contract of a function without parameters.
ghost use Rattle.std.specs.Prelude.{◌≡◌, ◌++◌, [], IsTrue, Option, List, ℤ, ℕ};
ghost use Rattle.proof_tree.specs.declared.tree.Version.{Version};
ghost use Rattle.proof_tree.specs.declared.tree.Outcome.{Outcome};
ghost use Rattle.proof_tree.specs.Tree.{Tree};
ghost use Rattle.proof_tree.specs.Text.{certificate_text, has_text};
ghost use Rattle.proof_text.specs.Laws.{IsOneAnswer, IsOneCertificate, IsOneFault, IsTextOrFault, NeverBoth, StaysStopped};

/// No certificate's text is a proper front of another's, and so a reader knows where a text ends.
pub fn no_text_begins_another()
    ensures { (x y : Version) (o p : Outcome) (v w : Option ℤ) (t u : Tree) (rest : List ℕ) → IsTrue (has_text x o v t) → IsTrue (has_text y p w u) → certificate_text x o v t ++ rest ≡ certificate_text y p w u → rest ≡ [] }
{}

/// Each text is one certificate's.
pub fn each_text_is_of_one_certificate()
    ensures { (x y : Version) (o p : Outcome) (v w : Option ℤ) (t u : Tree) → IsTrue (has_text x o v t) → IsTrue (has_text y p w u) → certificate_text x o v t ≡ certificate_text y p w u → (x ≡ y) × (o ≡ p) × (v ≡ w) × (t ≡ u) }
{}

/// Any bytes are the text of one certificate that is nested at most 1,000 deep, or they have one fault,
/// of one kind at one place. So what `read_cert` answers, but for want of memory, is the one answer.
pub fn bytes_are_one_text_or_have_one_fault()
    ensures either { IsTextOrFault }
    ensures not_both { NeverBoth }
    ensures certificate { IsOneCertificate }
    ensures fault { IsOneFault }
{}

/// A byte has one answer, by the bytes before it and what was told of them, and after `TooDeep` or
/// `Bad` that is the same again. So what `LineReader` answers is the one answer.
pub fn each_byte_has_one_answer()
    ensures one { IsOneAnswer }
    ensures stays { StaysStopped }
{}
