//! The bytes of a name.
ghost use Rattle.std.specs.Prelude.{◌≡◌};
ghost use Rattle.text_resolve.specs.Owned.{word_bytes};

use text_grammar::Word;

/// The bytes of the word, as far as they lie in the text.
#[tactic(auto, using(std::proofs::lemmas::List::drop_min, std::proofs::lemmas::List::take_min))]
pub(crate) fn bytes_of(text: &[u8], word: Word) -> &[u8]
    ensures { result.now ≡ word_bytes text.now word }
{
    let rest = &text[(word.start as usize).min(text.len())..];
    let length = word.end.saturating_sub(word.start) as usize;
    &rest[..length.min(rest.len())]
}
