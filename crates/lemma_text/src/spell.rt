//! The text of a piece, with no memory.
ghost use Rattle.std.specs.Prelude.{◌≡◌, ◌≤◌, ◌+◌, ◌++◌, [], ◌∷◌, length, codes, cond};
ghost use Rattle.std.specs.Fmt.{decimal, signed_decimal};
ghost use Rattle.proof_tree.specs.Text.{place_text, range_text};
ghost use Rattle.lemma_list.specs.declared.lemma.Ending.TheVariants.{Lost as LostEnding};
ghost use Rattle.lemma_text.specs.Text.{head_text, loser_text, step_text, ending_text};
ghost use Rattle.lemma_text.specs.Items.{item_text, end_text};

use crate::item::Item;
use arrayvec::ArrayString;
use itoa::{Buffer, Integer};
use lemma_list::{Reason, Step};
use qc_model::Kind;

/// Room for the text of a piece: four numbers, of up to 40 bytes each, and what stands between them.
pub const ROOM: usize = 168;

/// Writes the text of a piece in place of what was there.
pub fn spell_item(text: &mut ArrayString<ROOM>, item: Item)
    ensures { text.new.bytes ≡ item_text item }
{
    text.clear();
    match item {
        Item::Head { loser } => text.push_str(head(loser)),
        Item::Lemma { loser, bare } => {
            text.push_str(letter(loser));
            text.push_str(end(bare));
        }
        Item::Literal { literal, last } => {
            push_place(text, u64::from(literal.x.0));
            text.push_str(" ");
            push_range(text, literal.lo, literal.hi);
            text.push_str(end(last));
        }
        Item::Sum(sum) => {
            text.push_str("u ");
            push_place(text, u64::from(sum.c.0));
            text.push_str(" ");
            push_range(text, sum.lo, sum.hi);
            text.push_str("\n");
        }
        Item::Step(step) => push_step(text, step),
        Item::Lost(by) => push_lost(text, by),
        Item::Goal => text.push_str("g\n"),
        Item::Forget(lemma) => {
            text.push_str("d ");
            push_place(text, u64::from(lemma.0));
            text.push_str("\n");
        }
    }
}

fn head(loser: Kind) -> &'static str
    ensures { result.now ≡ head_text loser }
{
    match loser {
        Kind::Exists => "qcert 3\nfalse\n",
        Kind::Forall => "qcert 3\ntrue\n",
    }
}

fn letter(loser: Kind) -> &'static str
    ensures { result.now ≡ loser_text loser }
{
    match loser {
        Kind::Exists => "l",
        Kind::Forall => "w",
    }
}

fn end(last: bool) -> &'static str
    ensures { result.now ≡ end_text last }
{
    if last { "\n" } else { " " }
}

fn push_step(text: &mut ArrayString<ROOM>, step: Step)
    requires { text.old.bytes ≡ [] }
    ensures { text.new.bytes ≡ step_text step }
{
    match step {
        Step::Cut {
            x,
            lo,
            hi,
            by: Reason::Constraint(c),
        } => {
            text.push_str("p ");
            push_place(text, u64::from(x.0));
            text.push_str(" ");
            push_range(text, lo, hi);
            text.push_str(" ");
            push_place(text, u64::from(c.0));
            text.push_str("\n");
        }
        Step::Cut {
            x,
            lo,
            hi,
            by: Reason::Lemma(lemma),
        } => {
            text.push_str("q ");
            push_place(text, u64::from(x.0));
            text.push_str(" ");
            push_range(text, lo, hi);
            text.push_str(" ");
            push_place(text, u64::from(lemma.0));
            text.push_str("\n");
        }
        Step::Choose { x, v } => {
            text.push_str("c ");
            push_place(text, u64::from(x.0));
            text.push_str(" ");
            push_number(text, v);
            text.push_str("\n");
        }
    }
}

fn push_lost(text: &mut ArrayString<ROOM>, by: Reason)
    requires { text.old.bytes ≡ [] }
    ensures { text.new.bytes ≡ ending_text (LostEnding by) }
{
    match by {
        Reason::Constraint(c) => {
            text.push_str("f ");
            push_place(text, u64::from(c.0));
            text.push_str("\n");
        }
        Reason::Lemma(lemma) => {
            text.push_str("a ");
            push_place(text, u64::from(lemma.0));
            text.push_str("\n");
        }
    }
}

fn push_range(text: &mut ArrayString<ROOM>, lo: i64, hi: i64)
    requires room { length text.old.bytes + 81 ≤ 168 }
    ensures bytes { text.new.bytes ≡ text.old.bytes ++ range_text lo hi }
    ensures short { length text.new.bytes ≤ length text.old.bytes + 81 }
{
    push_number(text, lo);
    text.push_str(" ");
    push_number(text, hi);
}

// A number that the text counts from 1.
fn push_place(text: &mut ArrayString<ROOM>, k: u64)
    requires small { k ≤ 4294967295 }
    requires room { length text.old.bytes + 40 ≤ 168 }
    ensures bytes { text.new.bytes ≡ text.old.bytes ++ place_text k }
    ensures short { length text.new.bytes ≤ length text.old.bytes + 40 }
{
    push_number(text, k + 1);
}

fn push_number<I: Integer>(text: &mut ArrayString<ROOM>, number: I)
    requires room { length text.old.bytes + 40 ≤ 168 }
    ensures bytes { text.new.bytes ≡ text.old.bytes ++ I.text number }
    ensures short { length text.new.bytes ≤ length text.old.bytes + 40 }
{
    let mut buffer = Buffer::new();
    text.push_str(buffer.format(number));
}
