//! What the game of a formula means, and that each text gets one answer.
ghost use Rattle.qdimacs.specs.Laws.{WonWhereTrue, OneFile, EachText, NeverBoth, OneRefusal};

/// The player wins the game of a formula exactly where the formula is true.
pub fn formulas_are_games()
    ensures { WonWhereTrue }
{}

/// Each text states one formula, or is refused for one kind at one place, and never both.
pub fn texts_get_one_answer()
    ensures one_file { OneFile }
    ensures each { EachText }
    ensures never_both { NeverBoth }
    ensures one_refusal { OneRefusal }
{}
