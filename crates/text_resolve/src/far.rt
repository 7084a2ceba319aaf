//! Numbers that are too far from 0.
ghost use Rattle.std.specs.Prelude.{◌≡◌};
ghost use Rattle.qc_model.specs.Valid.{is_number as is_number_of};
ghost use Rattle.text_resolve.specs.Numbers.{far_number as far_number_of, first_far as first_far_of};

use qc_model::limits;
use qc_tokens::{Sort, Token};

fn is_near(n: i64) -> bool
    ensures { result ≡ is_number_of n }
{
    n.unsigned_abs() <= limits::NUMBER
}

fn far_number(token: &Token) -> Option<u32>
    ensures { result ≡ far_number_of token.now }
{
    match token.sort {
        Sort::Word => None,
        Sort::Number(n) => { if is_near(n) { None } else { Some(token.start) } }
        Sort::Sign(_) => None,
    }
}

/// The place of the first number outside -1,000,000,000 to 1,000,000,000.
pub(crate) fn first_far(tokens: &[Token]) -> Option<u32>
    ensures { result ≡ first_far_of tokens.now }
{
    for token in tokens {
        if let Some(at) = far_number(token) {
            return Some(at);
        }
    }
    None
}
