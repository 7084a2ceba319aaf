//! The text of a line and of a head, with no memory.
ghost use Rattle.std.specs.Prelude.{◌≡◌, ◌≤◌, ◌<◌, ◌+◌, ◌^◌, [], ◌++◌, length, codes, decimal, Option, Some, None};
ghost use Rattle.std.specs.Fmt.{signed_decimal};
ghost use Rattle.proof_tree.specs.Text.{line_text, outcome_text, place_text, range_text};

use arrayvec::ArrayString;
use itoa::{Buffer, Integer};
use proof_tree::{Line, Outcome};

// Room for a line: four numbers, of up to 40 bytes each, and what stands between them.
const ROOM: usize = 168;

/// A line's text, on the stack.
pub(crate) type Text = ArrayString<ROOM>;

// Appends a line's text.
pub(crate) fn spell_line(text: &mut Text, line: Line)
    requires { text.old.bytes ≡ [] }
    ensures { text.new.bytes ≡ line_text line }
{
    match line {
        Line::Horizon { k } => {
            text.push_str("h ");
            push_number(text, k);
            text.push_str("\n");
        }
        Line::Prune { x, lo, hi, c } => {
            text.push_str("p ");
            push_place(text, x.0 as u32);
            text.push_str(" ");
            push_range(text, lo, hi);
            text.push_str(" ");
            push_place(text, c.0 as u32);
            text.push_str("\n");
        }
        Line::Bound { x, lo, hi } => {
            text.push_str("b ");
            push_place(text, x.0 as u32);
            text.push_str(" ");
            push_range(text, lo, hi);
            text.push_str("\n");
        }
        Line::Dot => text.push_str(".\n"),
        Line::Stuck => text.push_str("t\n"),
        Line::Goal => text.push_str("g\n"),
        Line::Empty => text.push_str("e\n"),
        Line::Barred => text.push_str("x\n"),
        Line::Next => text.push_str("n\n"),
        Line::Branch { x } => {
            text.push_str("v ");
            push_place(text, x.0 as u32);
            text.push_str("\n");
        }
        Line::Skip => text.push_str("s\n"),
        Line::Open => text.push_str("o\n"),
        Line::Range { hi } => {
            text.push_str("r ");
            push_number(text, hi);
            text.push_str("\n");
        }
    }
}

// Appends an outcome's text.
pub(crate) fn spell_outcome(text: &mut Text, outcome: Outcome, optimum: Option<i64>)
    requires { text.old.bytes ≡ [] }
    ensures { text.new.bytes ≡ outcome_text outcome optimum }
{
    match outcome {
        Outcome::True => spell_optimum(text, optimum),
        Outcome::False => text.push_str("false\n"),
        Outcome::Open(turns) => {
            text.push_str("open ");
            push_number(text, turns);
            text.push_str("\n");
        }
    }
}

fn spell_optimum(text: &mut Text, optimum: Option<i64>)
    requires { text.old.bytes ≡ [] }
    ensures { text.new.bytes ≡ outcome_text Outcome.True optimum }
{
    match optimum {
        None => text.push_str("true\n"),
        Some(value) => {
            text.push_str("true ");
            push_number(text, value);
            text.push_str("\n");
        }
    }
}

fn push_range(text: &mut Text, lo: i64, hi: i64)
    requires room { length text.old.bytes + 81 ≤ 168 }
    ensures bytes { text.new.bytes ≡ text.old.bytes ++ range_text lo hi }
    ensures short { length text.new.bytes ≤ length text.old.bytes + 81 }
{
    push_number(text, lo);
    text.push_str(" ");
    push_number(text, hi);
}

// A number that the text counts from 1.
fn push_place(text: &mut Text, k: u32)
    requires small { k < 2 ^ 31 }
    requires room { length text.old.bytes + 40 ≤ 168 }
    ensures bytes { text.new.bytes ≡ text.old.bytes ++ place_text k }
    ensures short { length text.new.bytes ≤ length text.old.bytes + 40 }
{
    push_number(text, k + 1);
}

fn push_number<I: Integer>(text: &mut Text, number: I)
    requires room { length text.old.bytes + 40 ≤ 168 }
    ensures bytes { text.new.bytes ≡ text.old.bytes ++ I.text number }
    ensures short { length text.new.bytes ≤ length text.old.bytes + 40 }
{
    let mut buffer = Buffer::new();
    text.push_str(buffer.format(number));
}
