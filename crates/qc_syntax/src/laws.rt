//! The laws of reading, the contract of a function that does nothing.

ghost use Rattle.qc_syntax.specs.Laws.{NeverBoth, ReadsOne, ReadsOrRefuses, ReadsValid, RefusesOne};

/// Any bytes say one thing: they are the text of one problem, which is valid, or they are refused for
/// one kind at one place.
pub fn texts_say_one_thing()
    ensures either { ReadsOrRefuses }
    ensures not_both { NeverBoth }
    ensures problem { ReadsOne }
    ensures refusal { RefusesOne }
    ensures valid { ReadsValid }
{}
