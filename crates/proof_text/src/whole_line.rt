// Lines of a tree whose bytes are all there, read from the bytes at once.
//
// A line takes some ten nanoseconds, a fraction of what it takes byte by byte. What is called here and
// returns much is inlined, since a result of several words goes through memory at a call.
ghost use Rattle.std.specs.Prelude.{◌≡◌, ◌≤◌, ◌∷◌, ◌++◌, IfSome, IfNone, MatchOption};
ghost use Rattle.proof_tree.specs.Text.{line_text};
ghost use Rattle.proof_text.specs.PartLines.{FitsPart, ReadsPart};
ghost use Rattle.proof_text.specs.Readings.{GoesOnLine};
ghost use Rattle.proof_text.specs.Walks.{reading_of};
ghost use Rattle.proof_text.specs.declared.part_line.Kind.TheVariants.{Horizon as HorizonKind, Branch as BranchKind, Range as RangeKind, Prune as PruneKind, Bound as BoundKind};
ghost use Rattle.proof_text.specs.declared.part_line.PartLine.TheVariants.{Short as ShortPart, Letter as LetterPart};
ghost use Rattle.proof_text.specs.declared.walk.At.TheVariants.{Letter as LetterAt};

use crate::letters::{Opened, Place};
use crate::lines::removed;
use crate::part_line::{Kind, PartLine};
use crate::ranges;
use crate::scan::{after, number, place, signed};
use crate::walk::{Nested, go_in, open_letter};
use proof_tree::Line;
use qc_model::{ConId, VarId, limits};

// The functions up to `rest_of` read the rest of a line after its letter: the line, and the bytes
// after it.

fn horizon(text: &[u8]) -> Option<(Line, &[u8])>
    ensures { IfSome result (λ r. ReadsPart (LetterPart HorizonKind) text.now r.0 r.1.now) }
{
    let Some(rest) = after(text, b' ') else {
        return None;
    };
    let Ok((k, rest)) = number(rest, ranges::SCOPES, b'\n') else {
        return None;
    };
    Some((Line::Horizon { k: k as u8 }, rest))
}

#[inline(always)]
fn branch(text: &[u8]) -> Option<(Line, &[u8])>
    ensures { IfSome result (λ r. ReadsPart (LetterPart BranchKind) text.now r.0 r.1.now) }
{
    // no shorter text has a whole line; tested once, its first bytes need no test each
    if text.len() < 3 {
        return None;
    }
    let Some(rest) = after(text, b' ') else {
        return None;
    };
    let Ok((x, rest)) = place(rest, ranges::VARIABLES, b'\n') else {
        return None;
    };
    Some((Line::Branch { x: VarId(x) }, rest))
}

fn range(text: &[u8]) -> Option<(Line, &[u8])>
    ensures { IfSome result (λ r. ReadsPart (LetterPart RangeKind) text.now r.0 r.1.now) }
{
    let Some(rest) = after(text, b' ') else {
        return None;
    };
    let Ok((hi, rest)) = signed(rest, limits::NUMBER, b'\n') else {
        return None;
    };
    Some((Line::Range { hi }, rest))
}

#[inline(always)]
fn prune(text: &[u8]) -> Option<(Line, &[u8])>
    ensures { IfSome result (λ r. ReadsPart (LetterPart PruneKind) text.now r.0 r.1.now) }
{
    // as in a branch
    if text.len() < 9 {
        return None;
    }
    let Ok(((x, lo, hi), rest)) = removed(text, b' ') else {
        return None;
    };
    let Ok((c, rest)) = place(rest, ranges::CONSTRAINTS, b'\n') else {
        return None;
    };
    let c = ConId(c);
    Some((Line::Prune { x, lo, hi, c }, rest))
}

fn bound(text: &[u8]) -> Option<(Line, &[u8])>
    ensures { IfSome result (λ r. ReadsPart (LetterPart BoundKind) text.now r.0 r.1.now) }
{
    let Ok(((x, lo, hi), rest)) = removed(text, b'\n') else {
        return None;
    };
    Some((Line::Bound { x, lo, hi }, rest))
}

#[inline(always)]
fn with_numbers(kind: Kind, text: &[u8]) -> Option<(Line, &[u8])>
    ensures { IfSome result (λ r. ReadsPart (LetterPart kind) text.now r.0 r.1.now) }
{
    match kind {
        Kind::Horizon => horizon(text),
        Kind::Branch => branch(text),
        Kind::Range => range(text),
        Kind::Prune => prune(text),
        Kind::Bound => bound(text),
    }
}

#[inline(always)]
fn short(letter: u8, line: Line, text: &[u8]) -> Option<(Line, &[u8])>
    requires { FitsPart (ShortPart letter line) }
    ensures { IfSome result (λ r. ReadsPart (ShortPart letter line) text.now r.0 r.1.now) }
{
    let _ = letter;
    match after(text, b'\n') {
        Some(rest) => Some((line, rest)),
        None => None,
    }
}

#[inline(always)]
fn rest_of(part: PartLine, text: &[u8]) -> Option<(Line, &[u8])>
    requires { FitsPart part }
    ensures { IfSome result (λ r. ReadsPart part text.now r.0 r.1.now) }
{
    match part {
        PartLine::Short { letter, line } => short(letter, line, text),
        PartLine::Letter(kind) => with_numbers(kind, text),
        // no letter leaves a line there
        _ => None,
    }
}

// The line with this letter: itself, where the tree stands after it, and the bytes after it. Where
// there is none, the nesting may have changed, and nothing else.
#[inline(always)]
fn line_of<'a>(
    tree: &mut Nested,
    place: Place,
    letter: u8,
    text: &'a [u8],
) -> Option<(Line, Place, &'a [u8])>
    requires nesting { tree.old.nesting ≤ 1000 }
    ensures reads { IfSome result (λ r. (letter ∷ text.now ≡ line_text r.0 ++ r.2.now) × GoesOnLine (reading_of tree.old (LetterAt place)) r.0 (reading_of tree.new (LetterAt r.1))) }
    ensures kept { IfNone result ((tree.new.version ≡ tree.old.version) × (tree.new.levels ≡ tree.old.levels)) }
    ensures nesting { tree.new.nesting ≤ 1000 }
{
    match open_letter(tree, place, letter) {
        Opened::Line { part, place } => {
            let Some((line, rest)) = rest_of(part, text) else {
                return None;
            };
            Some((line, place, rest))
        }
        Opened::Next => {
            let Some(rest) = after(text, b'\n') else {
                return None;
            };
            go_in(tree, false);
            Some((Line::Next, Place::Node, rest))
        }
        Opened::Branch => {
            let Some((line, rest)) = branch(text) else {
                return None;
            };
            go_in(tree, true);
            Some((line, Place::Closed, rest))
        }
        Opened::TooDeep => None,
        Opened::Wrong => None,
    }
}

// The line that the bytes begin with: itself, where the tree stands after it, and the bytes after
// it. Where they don't begin with a whole line that may stand here, nothing has changed.
#[inline(always)]
pub(crate) fn whole_line<'a>(
    tree: &mut Nested,
    place: Place,
    bytes: &'a [u8],
) -> Option<(Line, Place, &'a [u8])>
    requires nesting { tree.old.nesting ≤ 1000 }
    ensures reads { MatchOption result (tree.new ≡ tree.old) (λ r. (bytes.now ≡ line_text r.0 ++ r.2.now) × GoesOnLine (reading_of tree.old (LetterAt place)) r.0 (reading_of tree.new (LetterAt r.1))) }
    ensures nesting { tree.new.nesting ≤ 1000 }
{
    let nesting = tree.nesting;
    let Some((letter, text)) = bytes.split_first() else {
        return None;
    };
    match line_of(tree, place, *letter, text) {
        Some(found) => Some(found),
        None => {
            tree.nesting = nesting;
            None
        }
    }
}
