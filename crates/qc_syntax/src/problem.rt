//! The problem of a text.
ghost use Rattle.std.specs.Prelude.{◌≡◌, ◌<◌, ◌^◌, length, IfOk, IfErr, Some, None};
ghost use Rattle.qc_tokens.specs.Tokens.{tokens_of, IsTokenOf};
ghost use Rattle.std.specs.List.{All};
ghost use Rattle.qc_syntax.specs.Reads.{IsClean, HasItems, Reads, Explains};

use crate::fault::ReadFault;
use qc_model::{Problem, build};
use qc_tokens::{Token, tokens};
use std::alloc::Global;
use text_grammar::{Item, read_items};
use text_resolve::resolve;
use text_valid::{names_are_names, unrefused_is_valid};

/// The problem that a text says, or the first kind of refusal that it meets, with its place.
///
/// It takes time linear in the text, but for sorting and looking up names, and memory for the tokens,
/// the items and the problem.
pub fn read_problem(alloc: Global, text: &[u8]) -> Result<Problem, ReadFault>
    requires { length text.now < 2 ^ 32 }
    ensures reads { IfOk result (λ p. Reads text.now p) }
    ensures refuses { IfErr result (λ e. Explains text.now e) }
{
    let tokens = tokens(alloc, text)?;
    let items = read_items(alloc, text, &tokens)?;
    make(alloc, text, &tokens, &items)
}

// The problem that the items make.
fn make(alloc: Global, text: &[u8], tokens: &[Token], items: &[Item]) -> Result<Problem, ReadFault>
    requires length { length text.now < 2 ^ 32 }
    requires tokens { tokens.now ≡ tokens_of text.now }
    requires places { All (IsTokenOf text.now) tokens.now }
    requires written { HasItems text.now items.now }
    ensures reads { IfOk result (λ p. Reads text.now p) }
    ensures refuses { IfErr result (λ e. Explains text.now e) }
{
    names_are_names();
    unrefused_is_valid();
    let draft = resolve(alloc, text, tokens, items)?;
    Ok(build(draft).unwrap())
}
