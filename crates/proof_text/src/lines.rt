// The head and the lines of steps.
ghost use Rattle.std.specs.Prelude.{◌≡◌, ◌<◌, ◌∷◌, [], ◌++◌, true, false, codes, IsTrue, IfOk, IfErr, Some, MatchOption};
ghost use Rattle.std.specs.Fmt.{signed_decimal};
ghost use Rattle.std.specs.List.{list_all};
ghost use Rattle.qc_model.specs.Valid.{is_number};
ghost use Rattle.proof_tree.specs.declared.tree.Outcome.TheVariants.{True as True_outcome};
ghost use Rattle.proof_tree.specs.Steps.{is_prune};
ghost use Rattle.proof_tree.specs.Text.{version_text, outcome_text, outcome_fits, place_text, is_place, step_fits};
ghost use Rattle.proof_text.specs.Parts.{step_text, steps_text};
ghost use Rattle.proof_text.specs.Symbols.{certificate as a_certificate, outcome as an_outcome, optimum as an_optimum, removed_part, prune_line, bound_line, prunes as some_prunes};
ghost use Rattle.proof_text.specs.Reading.{Passes, PassesVersion, Fails, PassesSteps, GoesOn, FailsSteps};

use crate::part_fault::PartFault;
use crate::ranges;
use crate::scan::{after, byte, literal, number, place, signed};
use proof_tree::{Outcome, Step, StepList, Version};
use qc_model::{ConId, VarId, limits};
use std::alloc::Global;

// The version of a text, and the rest of its line.
pub(crate) fn version(text: &[u8]) -> Result<(Version, &[u8]), PartFault>
    ensures ok { IfOk result (λ r. (codes "qcert " ++ text.now ≡ version_text r.0 ++ r.1.now) × PassesVersion r.0 text.now r.1.now) }
    ensures err { IfErr result (λ fault. Fails (a_certificate ∷ []) text.now fault) }
{
    match text.split_first() {
        Some((b'1', rest)) => Ok((Version::One, byte(rest, b'\n')?)),
        Some((b'2', rest)) => Ok((Version::Two, byte(rest, b'\n')?)),
        _ => Err(PartFault::Wrong { left: text.len() }),
    }
}

pub(crate) fn outcome(text: &[u8]) -> Result<((Outcome, Option<i64>), &[u8]), PartFault>
    ensures ok { IfOk result (λ r. (text.now ≡ outcome_text r.0.0 r.0.1 ++ r.1.now) × IsTrue (outcome_fits r.0.0 r.0.1) × Passes (an_outcome ∷ []) text.now r.1.now) }
    ensures err { IfErr result (λ fault. Fails (an_outcome ∷ []) text.now fault) }
{
    match text.split_first() {
        Some((b't', rest)) => {
            let rest = literal(rest, b"rue")?;
            let (value, rest) = optimum(rest)?;
            Ok(((Outcome::True, value), rest))
        }
        Some((b'f', rest)) => {
            let rest = literal(rest, b"alse\n")?;
            Ok(((Outcome::False, None), rest))
        }
        Some((b'o', rest)) => {
            let rest = literal(rest, b"pen ")?;
            let (turns, rest) = number(rest, ranges::TURNS, b'\n')?;
            Ok(((Outcome::Open(turns), None), rest))
        }
        _ => Err(PartFault::Wrong { left: text.len() }),
    }
}

// What stands after `true`.
fn optimum(text: &[u8]) -> Result<(Option<i64>, &[u8]), PartFault>
    ensures ok { IfOk result (λ r. (codes "true" ++ text.now ≡ outcome_text True_outcome r.0 ++ r.1.now) × IsTrue (outcome_fits True_outcome r.0) × Passes (an_optimum ∷ []) text.now r.1.now) }
    ensures err { IfErr result (λ fault. Fails (an_optimum ∷ []) text.now fault) }
{
    match text.split_first() {
        Some((b'\n', rest)) => Ok((None, rest)),
        Some((b' ', rest)) => {
            let (value, rest) = signed(rest, ranges::OPTIMUM, b'\n')?;
            Ok((Some(value), rest))
        }
        _ => Err(PartFault::Wrong { left: text.len() }),
    }
}

// A variable and a range of its values.
#[inline(always)]
pub(crate) fn removed(text: &[u8], end: u8) -> Result<((VarId, i64, i64), &[u8]), PartFault>
    requires { end < 48 }
    ensures ok { IfOk result (λ r. (text.now ≡ 32 ∷ (place_text r.0.0.0 ++ 32 ∷ (signed_decimal r.0.1 ++ 32 ∷ (signed_decimal r.0.2 ++ end ∷ r.1.now))))
        × IsTrue (is_place 500 r.0.0.0) × IsTrue (is_number r.0.1) × IsTrue (is_number r.0.2) × Passes (removed_part end) text.now r.1.now) }
    ensures err { IfErr result (λ fault. Fails (removed_part end) text.now fault) }
{
    let rest = byte(text, b' ')?;
    let (x, rest) = place(rest, ranges::VARIABLES, b' ')?;
    let (lo, rest) = signed(rest, limits::NUMBER, b' ')?;
    let (hi, rest) = signed(rest, limits::NUMBER, end)?;
    Ok(((VarId(x), lo, hi), rest))
}

// The line of a removal of refuted values, after its letter.
fn prune(text: &[u8]) -> Result<(Step, &[u8]), PartFault>
    ensures ok { IfOk result (λ r. (112 ∷ text.now ≡ step_text r.0 ++ r.1.now) × IsTrue (step_fits r.0) × IsTrue (is_prune r.0) × Passes prune_line text.now r.1.now) }
    ensures err { IfErr result (λ fault. Fails prune_line text.now fault) }
{
    let ((x, lo, hi), rest) = removed(text, b' ')?;
    let (c, rest) = place(rest, ranges::CONSTRAINTS, b'\n')?;
    let c = ConId(c);
    Ok((Step::Prune { x, lo, hi, c }, rest))
}

// The line of a removal of values that aren't better, after its letter.
fn bound(text: &[u8]) -> Result<(Step, &[u8]), PartFault>
    ensures ok { IfOk result (λ r. (98 ∷ text.now ≡ step_text r.0 ++ r.1.now) × IsTrue (step_fits r.0) × Passes bound_line text.now r.1.now) }
    ensures err { IfErr result (λ fault. Fails bound_line text.now fault) }
{
    let ((x, lo, hi), rest) = removed(text, b'\n')?;
    Ok((Step::Bound { x, lo, hi }, rest))
}

// The steps of a horizon, and its last line.
pub(crate) fn prunes(alloc: Global, text: &[u8]) -> Result<(StepList, &[u8]), PartFault>
    ensures ok { IfOk result (λ r. (text.now ≡ steps_text r.0 ++ 46 ∷ 10 ∷ r.1.now) × IsTrue (list_all step_fits r.0) × IsTrue (list_all is_prune r.0) × Passes (some_prunes ∷ []) text.now r.1.now) }
    ensures err { IfErr result (λ fault. Fails (some_prunes ∷ []) text.now fault) }
{
    let mut steps = StepList::new(alloc);
    let mut rest = text;
    while let Some(line) = after(rest, b'p') {
        let (step, next) = prune(line)?;
        steps.push(step)?;
        rest = next;
    }
    let rest = literal(rest, b".\n")?;
    Ok((steps, rest))
}

// The steps of a scope. The text goes on with another line.
pub(crate) fn steps(alloc: Global, text: &[u8]) -> Result<(StepList, &[u8]), PartFault>
    ensures ok { IfOk result (λ r. (text.now ≡ steps_text r.0 ++ r.1.now) × IsTrue (list_all step_fits r.0) × PassesSteps text.now r.1.now) }
    ensures err { IfErr result (λ fault. FailsSteps text.now fault) }
{
    let mut steps = StepList::new(alloc);
    let mut rest = text;
    while let Some((found, next)) = step(rest)? {
        steps.push(found)?;
        rest = next;
    }
    Ok((steps, rest))
}

// The line of a step, where the text begins with one.
fn step(text: &[u8]) -> Result<Option<(Step, &[u8])>, PartFault>
    ensures ok { IfOk result (λ found. MatchOption found (PassesSteps text.now text.now)
        (λ r. (text.now ≡ step_text r.0 ++ r.1.now) × IsTrue (step_fits r.0) × GoesOn text.now r.1.now)) }
    ensures err { IfErr result (λ fault. FailsSteps text.now fault) }
{
    if let Some(line) = after(text, b'p') {
        let found = prune(line)?;
        return Ok(Some(found));
    }
    if let Some(line) = after(text, b'b') {
        let found = bound(line)?;
        return Ok(Some(found));
    }
    Ok(None)
}
