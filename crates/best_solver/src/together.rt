//! Two lists put under one head.
ghost use Rattle.std.specs.Prelude.{◌≤◌, length, IfOk, IfSome};

use crate::bisection::Nearest;
use itoa::Buffer;
use std::alloc::{AllocError, Global};

/// The most bytes of a text.
const TEXT_LIMIT: usize = 1_073_741_824;

/// The text of a value and of its two lists. None where it is longer than a text may be. Nothing is promised of its bytes: whoever
/// wants to rely on them has them judged.
pub(crate) fn together(alloc: Global, found: &Nearest) -> Result<Option<Vec<u8>>, AllocError>
    ensures { IfOk result (λ text. IfSome text (λ bytes. length bytes.items ≤ 1073741824)) }
{
    let mut number = Buffer::new();
    let mut text = Vec::from_slice(alloc, b"qcert 3\nbest ")?;
    text.extend_from_slice(number.format(found.value).as_bytes())?;
    text.extend_from_slice(b" ")?;
    text.extend_from_slice(number.format(found.had.len()).as_bytes())?;
    text.extend_from_slice(b"\n")?;
    text.extend_from_slice(found.had.as_slice())?;
    text.extend_from_slice(found.not_had.as_slice())?;
    if text.len() > TEXT_LIMIT {
        return Ok(None);
    }
    Ok(Some(text))
}
