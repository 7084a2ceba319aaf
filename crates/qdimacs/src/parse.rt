//! The parts of a whole text.
ghost use Rattle.std.specs.Prelude.{◌^◌, ◌<◌, IfOk, IfErr};
ghost use Rattle.qdimacs.specs.Grammar.{IsFile};
ghost use Rattle.qdimacs.specs.Refusals.{IsSyntaxFault};

use crate::fault::{QdimacsFault, QdimacsKind};
use crate::reader::{Advance, Reader};
use crate::token::Token;
use crate::tree::FileText;
use std::alloc::Global;

/// The parts of a text of this size that has these tokens; or the place at which they stop being those
/// of a formula.
pub(crate) fn parse(alloc: Global, size: u32, tokens: &[Token]) -> Result<FileText, QdimacsFault>
    ensures ok { IfOk result (λ file. IsFile file tokens.now) }
    ensures stops { IfErr result (λ e. IsSyntaxFault size tokens.now e) }
{
    let mut reader = Reader::new(alloc);
    for token in tokens {
        match reader.take(alloc, *token)? {
            Advance::Taken => {}
            Advance::Refused => {
                return Err(QdimacsFault::Refused {
                    kind: QdimacsKind::Syntax,
                    at: token.at,
                });
            }
        }
    }
    if reader.is_whole() {
        Ok(reader.into_file())
    } else {
        Err(QdimacsFault::Refused {
            kind: QdimacsKind::Syntax,
            at: size,
        })
    }
}
