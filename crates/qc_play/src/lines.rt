//! The lines of a play's text.
ghost use Rattle.std.specs.Prelude.{◌≡◌, ◌<◌, ◌^◌, ◌++◌, OnOk, codes, flat_map};
ghost use Rattle.std.specs.Fmt.{decimal, signed_decimal};
ghost use Rattle.proof_tree.specs.Text.{place_text};
ghost use Rattle.qc_play.specs.Play.{at_goal, stuck_at, hopeless_at};
ghost use Rattle.qc_play.specs.PlayText.{kind_text, values_text, turn_line, ending_line, unused_line};

use itoa::Buffer;
use qc_model::Kind;
use std::alloc::AllocError;

fn put_value(out: &mut Vec<u8>, value: i64) -> Result<(), AllocError>
    ensures { OnOk result (out.new.items ≡ out.old.items ++ signed_decimal value) }
{
    let mut buffer = Buffer::new();
    out.extend_from_slice(buffer.format(value).as_bytes())
}

fn put_count(out: &mut Vec<u8>, count: usize) -> Result<(), AllocError>
    ensures { OnOk result (out.new.items ≡ out.old.items ++ decimal count) }
{
    let mut buffer = Buffer::new();
    out.extend_from_slice(buffer.format(count).as_bytes())
}

/// A scope's number, which counts from 1 in the text.
fn put_place(out: &mut Vec<u8>, i: usize) -> Result<(), AllocError>
    requires { i < 2 ^ 32 }
    ensures { OnOk result (out.new.items ≡ out.old.items ++ place_text i) }
{
    put_count(out, i + 1)
}

fn put_kind(out: &mut Vec<u8>, kind: Kind) -> Result<(), AllocError>
    ensures { OnOk result (out.new.items ≡ out.old.items ++ kind_text kind) }
{
    match kind {
        Kind::Exists => out.extend_from_slice(b" exists"),
        Kind::Forall => out.extend_from_slice(b" forall"),
    }
}

/// Each value after a space.
fn put_values(out: &mut Vec<u8>, values: &[i64]) -> Result<(), AllocError>
    ensures { OnOk result (out.new.items ≡ out.old.items ++ values_text values.now) }
{
    for value in values {
        out.extend_from_slice(b" ")?;
        put_value(out, *value)?;
    }
    Ok(())
}

/// The line of a scope that was played.
pub(crate) fn put_turn(
    out: &mut Vec<u8>,
    i: usize,
    kind: Kind,
    tuple: &[i64],
) -> Result<(), AllocError>
    requires { i < 2 ^ 32 }
    ensures { OnOk result (out.new.items ≡ out.old.items ++ turn_line i kind tuple.now) }
{
    put_place(out, i)?;
    put_kind(out, kind)?;
    put_values(out, tuple)?;
    out.extend_from_slice(b"\n")?;
    Ok(())
}

/// How many moves weren't read.
fn put_unused(out: &mut Vec<u8>, count: usize) -> Result<(), AllocError>
    ensures { OnOk result (out.new.items ≡ out.old.items ++ unused_line count) }
{
    out.extend_from_slice(b"unused ")?;
    put_count(out, count)?;
    out.extend_from_slice(b"\n")?;
    Ok(())
}

/// The end of a play that reaches the goal, with so many moves left.
pub(crate) fn put_goal(out: &mut Vec<u8>, holds: bool, left: usize) -> Result<(), AllocError>
    ensures { OnOk result (out.new.items ≡ out.old.items ++ (ending_line (at_goal holds) ++ unused_line left)) }
{
    if holds {
        out.extend_from_slice(b"goal true\n")?;
    } else {
        out.extend_from_slice(b"goal false\n")?;
    }
    put_unused(out, left)
}

/// The end of a play at a scope that the tree has no entry for.
pub(crate) fn put_stuck(out: &mut Vec<u8>, i: usize, left: usize) -> Result<(), AllocError>
    requires { i < 2 ^ 32 }
    ensures { OnOk result (out.new.items ≡ out.old.items ++ (ending_line (stuck_at i) ++ unused_line left)) }
{
    out.extend_from_slice(b"stuck ")?;
    put_place(out, i)?;
    out.extend_from_slice(b"\n")?;
    put_unused(out, left)
}

/// The end of a play at a tuple that the tree has no entry for.
pub(crate) fn put_hopeless(out: &mut Vec<u8>, i: usize, left: usize) -> Result<(), AllocError>
    requires { i < 2 ^ 32 }
    ensures { OnOk result (out.new.items ≡ out.old.items ++ (ending_line (hopeless_at i) ++ unused_line left)) }
{
    out.extend_from_slice(b"hopeless ")?;
    put_place(out, i)?;
    out.extend_from_slice(b"\n")?;
    put_unused(out, left)
}
