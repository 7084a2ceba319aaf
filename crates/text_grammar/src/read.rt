//! The parts of a whole text.
ghost use Rattle.std.specs.Prelude.{◌^◌, ◌<◌, length, IfOk, IfErr};
ghost use Rattle.std.specs.List.{All};
ghost use Rattle.qc_tokens.specs.Tokens.{IsTokenOf};
ghost use Rattle.text_grammar.specs.Grammar.{IsProblem};
ghost use Rattle.text_grammar.specs.Lexemes.{lexemes_of};
ghost use Rattle.text_grammar.specs.Outcomes.{Explains};

use crate::fault::GrammarFault;
use crate::reader::{Reader, Reception};
use crate::tree::Item;
use crate::words::lexeme;
use qc_tokens::Token;
use std::alloc::Global;

/// The parts of the text that these tokens are of, in order, with their places.
///
/// It takes memory for the parts alone.
///
/// # Errors
///
/// `Syntax` where the tokens are those of no problem text: with the place of the first token that
/// can't stand there, whatever might follow it, or with the end of the text where more tokens could
/// make it one. `Memory` where memory was refused.
pub fn read_items(alloc: Global, text: &[u8], tokens: &[Token]) -> Result<Vec<Item>, GrammarFault>
    requires length { length text.now < 2 ^ 32 }
    requires places { All (IsTokenOf text.now) tokens.now }
    ensures ok { IfOk result (λ items. IsProblem items.items (lexemes_of text.now tokens.now)) }
    ensures stops { IfErr result (λ e. Explains text.now tokens.now e) }
{
    let mut reader = Reader::new(alloc);
    for token in tokens {
        match reader.take(alloc, lexeme(text, *token))? {
            Reception::Taken => {}
            Reception::Refused => return Err(GrammarFault::Syntax { at: token.start }),
        }
    }
    if reader.has_ended() {
        Ok(reader.into_items())
    } else {
        Err(GrammarFault::Syntax {
            at: text.len() as u32,
        })
    }
}
