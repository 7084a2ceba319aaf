// The laws, each the contract of a function without parameters.
ghost use Rattle.lemma_laws.specs.Claims.{LemmasAreTrue, TrueIsWon, FalseIsLost};

/// In a valid game a lemma that is in place after lemmas that are true is true: its side loses at each
/// position where its literals and sums hold.
pub fn lemmas_are_true()
    ensures { LemmasAreTrue }
{}

/// For every valid game: a list of lemmas that proves true, that the opponent loses, shows that the game is
/// won, and one that proves false, that the player loses, that it isn't.
pub fn lists_are_true()
    ensures won { TrueIsWon }
    ensures lost { FalseIsLost }
{}
