//! The lines of tuples.
ghost use Rattle.std.specs.Prelude.{◌≡◌, ◌++◌, OnOk, codes, flat_map};
ghost use Rattle.std.specs.Fmt.{signed_decimal};
ghost use Rattle.tell_moves.specs.Lines.{parted, tuple_line};

use itoa::Buffer;
use std::alloc::AllocError;

fn put_value(out: &mut Vec<u8>, value: i64) -> Result<(), AllocError>
    ensures { OnOk result (out.new.items ≡ out.old.items ++ signed_decimal value) }
{
    let mut buffer = Buffer::new();
    out.extend_from_slice(buffer.format(value).as_bytes())
}

// Each value after a blank.
fn put_after(out: &mut Vec<u8>, values: &[i64]) -> Result<(), AllocError>
    ensures { OnOk result (out.new.items ≡ out.old.items ++ flat_map (λ u. codes " " ++ signed_decimal u) values.now) }
{
    for value in values {
        out.extend_from_slice(b" ")?;
        put_value(out, *value)?;
    }
    Ok(())
}

/// Puts the values to the end of a text, parted by blanks.
pub fn put_values(out: &mut Vec<u8>, values: &[i64]) -> Result<(), AllocError>
    ensures { OnOk result (out.new.items ≡ out.old.items ++ parted values.now) }
{
    match values {
        [] => Ok(()),
        [first, rest @ ..] => {
            put_value(out, *first)?;
            put_after(out, rest)
        }
    }
}

/// Puts the line of a tuple to the end of a text.
pub(crate) fn put_line(out: &mut Vec<u8>, tuple: &[i64]) -> Result<(), AllocError>
    ensures { OnOk result (out.new.items ≡ out.old.items ++ tuple_line tuple.now) }
{
    put_values(out, tuple)?;
    out.extend_from_slice(b"\n")
}
