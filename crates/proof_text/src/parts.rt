// The parts of a certificate's tree. Each call reads one part from the front of the text.
ghost use Rattle.std.specs.Prelude.{◌≡◌, ◌≤◌, ◌<◌, ◌+◌, ◌∷◌, [], ◌++◌, length, ◌&&◌, IsTrue, IfOk, IfErr, MatchOption};
ghost use Rattle.proof_tree.specs.Counts.{depth_of, body_depth, ending_depth, branch_depth, case_depth};
ghost use Rattle.proof_tree.specs.Shape.{tree_of, body_of, ending_of, branches_of, pieces_of, case_of};
ghost use Rattle.proof_tree.specs.Text.{horizon_fits, tree_fits, body_fits, ending_fits, branches_fit, upto_fits, case_fits, step_fits};
ghost use Rattle.proof_text.specs.Parts.{horizon_text, tree_text, body_text, ending_text, branches_text, upto_text, case_text, steps_text};
ghost use Rattle.std.specs.List.{list_all};
ghost use Rattle.proof_tree.specs.declared.tree.Version.TheVariants.{Two as Two_version};
ghost use Rattle.proof_text.specs.Symbols.{node as a_node, body as a_body, cases as some_cases, ending as an_ending, case as a_case, branches as some_branches};
ghost use Rattle.proof_text.specs.Reading.{Passes, Fails, PassesHorizon, FailsHorizon, PassesRange, FailsRange, PassesCase, EndsCases, Spells};

use crate::lines::{prunes, steps};
use crate::part_fault::PartFault;
use crate::ranges;
use crate::scan::{after, byte, literal, place, signed};
use proof_tree::{Body, Case, CaseList, Cases, End, Horizon, Node, Piece, Version};
use qc_model::{ScopeId, VarId, limits};
use std::alloc::Global;

const DEEPEST: u32 = ranges::DEEPEST as u32;

#[cycle(read)]
pub(crate) fn node(
    alloc: Global,
    text: &[u8],
    version: Version,
    nesting: u32,
) -> Result<(Node, &[u8]), PartFault>
    requires { nesting ≤ 1000 }
    ensures ok { IfOk result (λ r. Spells (tree_text (tree_of r.0)) (tree_fits version (tree_of r.0)) (nesting + depth_of (tree_of r.0)) text.now r.1.now × Passes (a_node version nesting ∷ []) text.now r.1.now) }
    ensures err { IfErr result (λ fault. Fails (a_node version nesting ∷ []) text.now fault) }
{
    let (horizon, rest) = horizon(alloc, text)?;
    let (body, rest) = body(alloc, rest, version, nesting)?;
    Ok((Node { horizon, body }, rest))
}

fn horizon(alloc: Global, text: &[u8]) -> Result<(Option<Horizon>, &[u8]), PartFault>
    ensures ok { IfOk result (λ r. (text.now ≡ horizon_text r.0 ++ r.1.now) × IsTrue (horizon_fits r.0) × (length r.1.now ≤ length text.now) × PassesHorizon text.now r.1.now) }
    ensures err { IfErr result (λ fault. FailsHorizon text.now fault) }
{
    let Some(line) = after(text, b'h') else {
        return Ok((None, text));
    };
    let rest = byte(line, b' ')?;
    let (scope, rest) = place(rest, ranges::SCOPES, b'\n')?;
    let (steps, rest) = prunes(alloc, rest)?;
    let scope = ScopeId(scope as u8);
    Ok((Some(Horizon { scope, steps }), rest))
}

#[cycle(read)]
fn body(
    alloc: Global,
    text: &[u8],
    version: Version,
    nesting: u32,
) -> Result<(Body, &[u8]), PartFault>
    requires { nesting ≤ 1000 }
    ensures ok { IfOk result (λ r. Spells (body_text (body_of r.0)) (body_fits version (body_of r.0)) (nesting + body_depth (body_of r.0)) text.now r.1.now × Passes (a_body version nesting ∷ []) text.now r.1.now) }
    ensures err { IfErr result (λ fault. Fails (a_body version nesting ∷ []) text.now fault) }
{
    if let Some(line) = after(text, b't') {
        let rest = byte(line, b'\n')?;
        return Ok((Body::Stuck, rest));
    }
    if let Some(line) = after(text, b'g') {
        let rest = byte(line, b'\n')?;
        return Ok((Body::Goal, rest));
    }
    let (cases, rest) = cases(alloc, text, version, nesting)?;
    Ok((Body::Tree(cases), rest))
}

#[cycle(read)]
fn cases(
    alloc: Global,
    text: &[u8],
    version: Version,
    nesting: u32,
) -> Result<(Cases, &[u8]), PartFault>
    requires { nesting ≤ 1000 }
    ensures ok { IfOk result (λ r. (text.now ≡ steps_text r.0.steps ++ (ending_text (ending_of r.0.end) ++ r.1.now)) × IsTrue (list_all step_fits r.0.steps) × IsTrue (ending_fits version (ending_of r.0.end))
        × (nesting + ending_depth (ending_of r.0.end) ≤ 1000) × (length r.1.now ≤ length text.now) × Passes (some_cases version nesting ∷ []) text.now r.1.now) }
    ensures err { IfErr result (λ fault. Fails (some_cases version nesting ∷ []) text.now fault) }
{
    let (steps, rest) = steps(alloc, text)?;
    let (end, rest) = ending(alloc, rest, version, nesting)?;
    Ok((Cases { steps, end }, rest))
}

#[cycle(read)]
fn ending(
    alloc: Global,
    text: &[u8],
    version: Version,
    nesting: u32,
) -> Result<(End, &[u8]), PartFault>
    requires { nesting ≤ 1000 }
    ensures ok { IfOk result (λ r. Spells (ending_text (ending_of r.0)) (ending_fits version (ending_of r.0)) (nesting + ending_depth (ending_of r.0)) text.now r.1.now × Passes (an_ending version nesting ∷ []) text.now r.1.now) }
    ensures err { IfErr result (λ fault. Fails (an_ending version nesting ∷ []) text.now fault) }
{
    match text.split_first() {
        Some((b'e', line)) => {
            let rest = byte(line, b'\n')?;
            Ok((End::Empty, rest))
        }
        Some((b'x', line)) => {
            let rest = byte(line, b'\n')?;
            Ok((End::Barred, rest))
        }
        Some((b'n', line)) => next(alloc, line, version, nesting),
        Some((b'v', line)) => branch(alloc, line, version, nesting),
        _ => Err(PartFault::Wrong { left: text.len() }),
    }
}

// The next node, after the letter.
#[cycle(read)]
fn next(
    alloc: Global,
    line: &[u8],
    version: Version,
    nesting: u32,
) -> Result<(End, &[u8]), PartFault>
    requires { nesting ≤ 1000 }
    ensures ok { IfOk result (λ r. Spells (ending_text (ending_of r.0)) (ending_fits version (ending_of r.0)) (nesting + ending_depth (ending_of r.0)) (110 ∷ line.now) r.1.now × Passes (an_ending version nesting ∷ []) (110 ∷ line.now) r.1.now) }
    ensures err { IfErr result (λ fault. Fails (an_ending version nesting ∷ []) (110 ∷ line.now) fault) }
{
    if nesting == DEEPEST {
        return Err(PartFault::Deep {
            left: line.len() + 1,
        });
    }
    let rest = byte(line, b'\n')?;
    let (node, rest) = node(alloc, rest, version, nesting + 1)?;
    Ok((End::Next(Box::new(alloc, node)?), rest))
}

// A branch, after the letter.
#[cycle(read)]
fn branch(
    alloc: Global,
    line: &[u8],
    version: Version,
    nesting: u32,
) -> Result<(End, &[u8]), PartFault>
    requires { nesting ≤ 1000 }
    ensures ok { IfOk result (λ r. Spells (ending_text (ending_of r.0)) (ending_fits version (ending_of r.0)) (nesting + ending_depth (ending_of r.0)) (118 ∷ line.now) r.1.now × Passes (an_ending version nesting ∷ []) (118 ∷ line.now) r.1.now) }
    ensures err { IfErr result (λ fault. Fails (an_ending version nesting ∷ []) (118 ∷ line.now) fault) }
{
    if nesting == DEEPEST {
        return Err(PartFault::Deep {
            left: line.len() + 1,
        });
    }
    let rest = byte(line, b' ')?;
    let (x, rest) = place(rest, ranges::VARIABLES, b'\n')?;
    let (cases, rest) = branches(alloc, rest, version, nesting + 1)?;
    let x = VarId(x);
    Ok((End::Branch { x, cases }, rest))
}

// The cases of a branch, and its last line.
#[cycle(read)]
fn branches(
    alloc: Global,
    text: &[u8],
    version: Version,
    nesting: u32,
) -> Result<(CaseList, &[u8]), PartFault>
    requires { nesting ≤ 1000 }
    ensures ok { IfOk result (λ r. (text.now ≡ branches_text (branches_of (pieces_of r.0)) ++ 46 ∷ 10 ∷ r.1.now) × IsTrue (branches_fit version (branches_of (pieces_of r.0)))
        × (nesting + branch_depth (branches_of (pieces_of r.0)) ≤ 1000) × (length r.1.now ≤ length text.now) × Passes (some_branches version nesting ∷ []) text.now r.1.now) }
    ensures err { IfErr result (λ fault. Fails (some_branches version nesting ∷ []) text.now fault) }
{
    let mut list = CaseList::new(alloc);
    let mut rest = text;
    while let Some((found, next)) = piece(alloc, rest, version, nesting)? {
        list.push(found)?;
        rest = next;
    }
    let rest = literal(rest, b".\n")?;
    Ok((list, rest))
}

// The next case of a branch, where the branch doesn't end.
#[cycle(read)]
fn piece(
    alloc: Global,
    text: &[u8],
    version: Version,
    nesting: u32,
) -> Result<Option<(Piece, &[u8])>, PartFault>
    requires { nesting ≤ 1000 }
    ensures ok { IfOk result (λ found. MatchOption found (EndsCases version nesting text.now)
        (λ r. Spells (upto_text r.0.upto ++ case_text (case_of r.0.case)) (upto_fits version r.0.upto && case_fits version (case_of r.0.case)) (nesting + case_depth (case_of r.0.case)) text.now r.1.now × (length r.1.now < length text.now) × PassesCase version nesting text.now r.1.now)) }
    ensures err { IfErr result (λ fault. Fails (some_branches version nesting ∷ []) text.now fault) }
{
    if after(text, b'.').is_some() {
        return Ok(None);
    }
    let (upto, rest) = range(text, version)?;
    let (case, rest) = case(alloc, rest, version, nesting)?;
    Ok(Some((Piece { upto, case }, rest)))
}

// The value that a case goes up to, where a line says one.
fn range(text: &[u8], version: Version) -> Result<(Option<i64>, &[u8]), PartFault>
    ensures ok { IfOk result (λ r. (text.now ≡ upto_text r.0 ++ r.1.now) × IsTrue (upto_fits version r.0) × (length r.1.now ≤ length text.now) × PassesRange version text.now r.1.now) }
    ensures err { IfErr result (λ fault. FailsRange version text.now fault) }
{
    match version {
        Version::One => Ok((None, text)),
        Version::Two => range_line(text),
    }
}

fn range_line(text: &[u8]) -> Result<(Option<i64>, &[u8]), PartFault>
    ensures ok { IfOk result (λ r. (text.now ≡ upto_text r.0 ++ r.1.now) × IsTrue (upto_fits Two_version r.0) × (length r.1.now ≤ length text.now) × PassesRange Two_version text.now r.1.now) }
    ensures err { IfErr result (λ fault. FailsRange Two_version text.now fault) }
{
    let Some(line) = after(text, b'r') else {
        return Ok((None, text));
    };
    let rest = byte(line, b' ')?;
    let (high, rest) = signed(rest, limits::NUMBER, b'\n')?;
    Ok((Some(high), rest))
}

// A case, after the line of its range.
#[cycle(read)]
fn case(
    alloc: Global,
    text: &[u8],
    version: Version,
    nesting: u32,
) -> Result<(Case, &[u8]), PartFault>
    requires { nesting ≤ 1000 }
    ensures ok { IfOk result (λ r. Spells (case_text (case_of r.0)) (case_fits version (case_of r.0)) (nesting + case_depth (case_of r.0)) text.now r.1.now × (length r.1.now < length text.now) × Passes (a_case version nesting ∷ []) text.now r.1.now) }
    ensures err { IfErr result (λ fault. Fails (a_case version nesting ∷ []) text.now fault) }
{
    if let Some(line) = after(text, b's') {
        let rest = byte(line, b'\n')?;
        return Ok((Case::Skip, rest));
    }
    if let Some(line) = after(text, b'o') {
        let rest = byte(line, b'\n')?;
        return Ok((Case::Open, rest));
    }
    let (inner, rest) = cases(alloc, text, version, nesting)?;
    Ok((Case::Go(inner), rest))
}
