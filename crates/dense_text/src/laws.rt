// Laws of the texts, each the contract of a function without parameters.
ghost use Rattle.std.specs.Prelude.{◌≡◌, ◌++◌, [], flat_map, IsTrue, Option, List, ℕ, ℤ};
ghost use Rattle.std.specs.List.{list_all};
ghost use Rattle.proof_tree.specs.declared.tree.Outcome.{Outcome};
ghost use Rattle.dense_tree.specs.Tree.{Certificate};
ghost use Rattle.dense_tree.specs.Text.{certificate_text, has_text};
ghost use Rattle.dense_text.specs.declared.piece.Piece.{Piece};
ghost use Rattle.dense_text.specs.Pieces.{piece_text, piece_fits, certificate_pieces};
ghost use Rattle.dense_text.specs.Places.{IsTextOrFault, NeverBoth, IsOneCertificate, IsOneFault};
ghost use Rattle.dense_text.specs.Grammar.{Place, at_start, allows, IsWhole};
ghost use Rattle.dense_text.specs.Standing.{standing};
ghost use Rattle.dense_text.specs.Telling.{Tells};

/// The pieces of a certificate, one after the other, are its text.
pub fn pieces_spell_certificates()
    ensures { (outcome : Outcome) (optimum : Option ℤ) (c : Certificate) → flat_map piece_text (certificate_pieces outcome optimum c) ≡ certificate_text outcome optimum c }
{}

/// Where a certificate has a text, each of its pieces may come where it comes, the text ends with the last, and their numbers
/// fit. Any such pieces are those of a certificate that has a text, and of one alone.
pub fn pieces_are_of_one_certificate()
    ensures come { (outcome : Outcome) (optimum : Option ℤ) (c : Certificate) → IsTrue (has_text outcome optimum c) → IsWhole at_start 0 (certificate_pieces outcome optimum c) × IsTrue (list_all piece_fits (certificate_pieces outcome optimum c)) }
    ensures are { (is : List Piece) → IsWhole at_start 0 is → IsTrue (list_all piece_fits is) → (outcome : Outcome) × (optimum : Option ℤ) × (c : Certificate) × IsTrue (has_text outcome optimum c) × (is ≡ certificate_pieces outcome optimum c) }
    ensures one { (p q : Outcome) (v w : Option ℤ) (c d : Certificate) → IsTrue (has_text p v c) → IsTrue (has_text q w d) → certificate_pieces p v c ≡ certificate_pieces q w d → (p ≡ q) × (v ≡ w) × (c ≡ d) }
{}

/// Each text is one certificate's.
pub fn each_text_is_of_one_certificate()
    ensures { (p q : Outcome) (v w : Option ℤ) (c d : Certificate) → IsTrue (has_text p v c) → IsTrue (has_text q w d) → certificate_text p v c ≡ certificate_text q w d → (p ≡ q) × (v ≡ w) × (c ≡ d) }
{}

/// No text begins another.
pub fn no_text_begins_another()
    ensures { (p q : Outcome) (v w : Option ℤ) (c d : Certificate) (rest : List ℕ) → IsTrue (has_text p v c) → IsTrue (has_text q w d) → certificate_text p v c ++ rest ≡ certificate_text q w d → rest ≡ [] }
{}

/// Any bytes are the text of one certificate, or they have one fault, at one place.
pub fn bytes_are_one_certificate_or_have_one_fault()
    ensures either { IsTextOrFault }
    ensures not_both { NeverBoth }
    ensures certificate { IsOneCertificate }
    ensures fault { IsOneFault }
{}

/// Of two pieces that may stand at one place no text begins the other's.
pub fn no_piece_begins_another()
    ensures { (p : Place) (i j : Piece) (rest : List ℕ) → IsTrue (allows p i) → IsTrue (allows p j) → IsTrue (piece_fits i) → IsTrue (piece_fits j) → piece_text i ++ rest ≡ piece_text j → (i ≡ j) × (rest ≡ []) }
{}

/// What any bytes say of the texts of certificates, byte by byte: while they begin a text, which pieces they have spelled, how many
/// branches are open, what is read of another piece, and whether they are a text; and else that they have a fault.
pub fn each_standing_is_right()
    ensures { (bytes : List ℕ) → Tells (standing bytes) bytes }
{}
