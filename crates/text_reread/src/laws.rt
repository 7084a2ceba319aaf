//! The laws, each the contract of a function that does nothing.

ghost use Rattle.text_reread.specs.Again.{IsReadAgain};
ghost use Rattle.text_reread.specs.Cut.{ChunksAreCut};
ghost use Rattle.text_reread.specs.GameLaws.{SameGame, NotRefused, NoRefusal};

/// The canonical text of a problem is read as that problem, and so as no other and without a refusal.
pub fn printed_text_is_read_again()
    ensures { IsReadAgain }
{}

/// A text that is put together from words, numbers, signs and blanks is cut into just these, where no
/// two words or numbers touch.
pub fn chunks_are_cut()
    ensures { ChunksAreCut }
{}

/// Items that say, in order, what a valid problem consists of make that problem.
pub fn items_make_the_problem()
    ensures { SameGame }
{}

/// Such items are refused for nothing: no name stands twice or for nothing, each predicate has the
/// arguments that it takes, domains have values and aren't too wide, nothing is too much, and each
/// scope sees what it names. Whether a number is out of range is for the tokens to tell.
pub fn items_are_not_refused()
    ensures each { NotRefused }
    ensures first { NoRefusal }
{}
