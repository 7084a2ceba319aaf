//! The laws, each the contract of a function that does nothing.

ghost use Rattle.text_valid.specs.Laws.{NamesAreNames, UnrefusedIsValid};

/// A name that a text declares is a word of letters, digits and underscores, and no word of the
/// language.
pub fn names_are_names()
    ensures { NamesAreNames }
{}

/// The items of a text that meet no refusal make a valid problem: `build` takes it.
pub fn unrefused_is_valid()
    ensures { UnrefusedIsValid }
{}
