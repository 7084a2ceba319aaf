//! What is said of bytes, and of no others.
ghost use Rattle.best_judge.specs.Laws.{NeverBoth};

use lemma_text::bytes_are_one_list_or_have_one_fault;

/// Bytes that are the text of a value and of two lists have no place at which they stop being one. So of what `judge_best` says
/// of bytes one thing alone is so.
pub fn texts_have_no_fault()
    ensures { NeverBoth }
{
    bytes_are_one_list_or_have_one_fault();
}
