//! The values of numbers.
ghost use Rattle.std.specs.Prelude.{◌≡◌, IsTrue};
ghost use Rattle.qc_tokens.specs.Inner.{is_numeral, value_of_run};

use std::str;

/// The value of a run that begins with a digit, or with a minus and a digit; none where anything but
/// digits follows, or the value is past 64 bits.
pub(crate) fn value_of(run: &[u8]) -> Option<i64>
    requires { IsTrue (is_numeral run.now) }
    ensures { result ≡ value_of_run run.now }
{
    let Ok(text) = str::from_utf8(run) else {
        return None;
    };
    match text.parse::<i64>() {
        Ok(value) => Some(value),
        Err(_) => None,
    }
}
