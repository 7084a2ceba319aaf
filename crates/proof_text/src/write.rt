//! Writing a certificate, in one pass over its tree.
ghost use Rattle.std.specs.Prelude.{◌≡◌, ◌+◌, ◌++◌, ◌^◌, ◌<◌, IfOk, OnOk, IsTrue, codes, ℕ, Option, Some, None, decimal};
ghost use Rattle.std.specs.Fmt.{signed_decimal};
ghost use Rattle.std.specs.Option.{option_map};
ghost use Rattle.proof_tree.specs.Shape.{tree_of, body_of, ending_of, branches_of, case_of};
ghost use Rattle.proof_tree.specs.Tree.{cases as cases_body};
ghost use Rattle.proof_tree.specs.Text.{place_text, version_text, outcome_text, certificate_text, has_text};
ghost use Rattle.proof_text.specs.Parts.{step_text, steps_text, horizon_text, tree_text, body_text, ending_text, branches_text, upto_text, case_text};

use itoa::{Buffer, Integer};
use proof_tree::{
    Body, Case, Cases, Certificate, End, Horizon, Node, Outcome, Piece, Step, Version,
};
use std::alloc::{AllocError, Global};

/// The one text of a certificate. It asks that the optimum stands beside True alone, and that all
/// numbers lie in the ranges that a text can have.
pub fn write_cert(alloc: Global, cert: &Certificate) -> Result<Vec<u8>, AllocError>
    requires { IsTrue (has_text cert.now.version cert.now.outcome cert.now.optimum (tree_of cert.now.root)) }
    ensures { IfOk result (λ v. v.items ≡ certificate_text cert.now.version cert.now.outcome cert.now.optimum (tree_of cert.now.root)) }
{
    let mut out = Vec::new(alloc);
    put_version(&mut out, cert.version)?;
    put_outcome(&mut out, cert.outcome, cert.optimum)?;
    put_node(&mut out, &cert.root)?;
    Ok(out)
}

fn put_version(out: &mut Vec<u8>, version: Version) -> Result<(), AllocError>
    ensures { OnOk result (out.new.items ≡ out.old.items ++ version_text version) }
{
    match version {
        Version::One => out.extend_from_slice(b"qcert 1\n"),
        Version::Two => out.extend_from_slice(b"qcert 2\n"),
    }
}

fn put_outcome(out: &mut Vec<u8>, outcome: Outcome, optimum: Option<i64>) -> Result<(), AllocError>
    ensures { OnOk result (out.new.items ≡ out.old.items ++ outcome_text outcome optimum) }
{
    match outcome {
        Outcome::True => put_optimum(out, optimum),
        Outcome::False => out.extend_from_slice(b"false\n"),
        Outcome::Open(turns) => {
            out.extend_from_slice(b"open ")?;
            put_number(out, turns)?;
            out.extend_from_slice(b"\n")
        }
    }
}

fn put_optimum(out: &mut Vec<u8>, optimum: Option<i64>) -> Result<(), AllocError>
    ensures { OnOk result (out.new.items ≡ out.old.items ++ outcome_text Outcome.True optimum) }
{
    match optimum {
        None => out.extend_from_slice(b"true\n"),
        Some(value) => {
            out.extend_from_slice(b"true ")?;
            put_number(out, value)?;
            out.extend_from_slice(b"\n")
        }
    }
}

#[cycle(put)]
fn put_node(out: &mut Vec<u8>, node: &Node) -> Result<(), AllocError>
    ensures { OnOk result (out.new.items ≡ out.old.items ++ tree_text (tree_of node.now)) }
{
    put_horizon(out, &node.horizon)?;
    match &node.body {
        Body::Stuck => out.extend_from_slice(b"t\n"),
        Body::Goal => out.extend_from_slice(b"g\n"),
        Body::Tree(cases) => put_cases(out, cases),
    }
}

#[cycle(put)]
fn put_cases(out: &mut Vec<u8>, cases: &Cases) -> Result<(), AllocError>
    ensures { OnOk result (out.new.items ≡ out.old.items ++ (steps_text cases.now.steps ++ ending_text (ending_of cases.now.end))) }
{
    put_steps(out, cases.steps.items())?;
    put_end(out, &cases.end)
}

#[cycle(put)]
fn put_end(out: &mut Vec<u8>, end: &End) -> Result<(), AllocError>
    ensures { OnOk result (out.new.items ≡ out.old.items ++ ending_text (ending_of end.now)) }
{
    match end {
        End::Empty => out.extend_from_slice(b"e\n"),
        End::Barred => out.extend_from_slice(b"x\n"),
        End::Next(node) => {
            out.extend_from_slice(b"n\n")?;
            put_node(out, node)
        }
        End::Branch { x, cases } => {
            out.extend_from_slice(b"v ")?;
            put_place(out, x.0 as u32)?;
            out.extend_from_slice(b"\n")?;
            put_case_list(out, cases.items())?;
            out.extend_from_slice(b".\n")?;
            Ok(())
        }
    }
}

#[cycle(put)]
fn put_case_list(out: &mut Vec<u8>, cases: &[Piece]) -> Result<(), AllocError>
    ensures { OnOk result (out.new.items ≡ out.old.items ++ branches_text (branches_of cases.now)) }
{
    for piece in cases {
        put_upto(out, piece.upto)?;
        put_case(out, &piece.case)?;
    }
    Ok(())
}

#[cycle(put)]
fn put_case(out: &mut Vec<u8>, case: &Case) -> Result<(), AllocError>
    ensures { OnOk result (out.new.items ≡ out.old.items ++ case_text (case_of case.now)) }
{
    match case {
        Case::Skip => out.extend_from_slice(b"s\n"),
        Case::Open => out.extend_from_slice(b"o\n"),
        Case::Go(inner) => put_cases(out, inner),
    }
}

// The line of a case of several values.
fn put_upto(out: &mut Vec<u8>, upto: Option<i64>) -> Result<(), AllocError>
    ensures { OnOk result (out.new.items ≡ out.old.items ++ upto_text upto) }
{
    match upto {
        None => Ok(()),
        Some(high) => {
            out.extend_from_slice(b"r ")?;
            put_number(out, high)?;
            out.extend_from_slice(b"\n")
        }
    }
}

fn put_horizon(out: &mut Vec<u8>, horizon: &Option<Horizon>) -> Result<(), AllocError>
    ensures { OnOk result (out.new.items ≡ out.old.items ++ horizon_text horizon.now) }
{
    match horizon {
        None => Ok(()),
        Some(horizon) => {
            out.extend_from_slice(b"h ")?;
            put_place(out, horizon.scope.0 as u32)?;
            out.extend_from_slice(b"\n")?;
            put_steps(out, horizon.steps.items())?;
            out.extend_from_slice(b".\n")
        }
    }
}

fn put_steps(out: &mut Vec<u8>, steps: &[Step]) -> Result<(), AllocError>
    ensures { OnOk result (out.new.items ≡ out.old.items ++ steps_text steps.now) }
{
    for step in steps {
        put_step(out, *step)?;
    }
    Ok(())
}

fn put_step(out: &mut Vec<u8>, step: Step) -> Result<(), AllocError>
    ensures { OnOk result (out.new.items ≡ out.old.items ++ step_text step) }
{
    match step {
        Step::Prune { x, lo, hi, c } => {
            out.extend_from_slice(b"p ")?;
            put_place(out, x.0 as u32)?;
            put_range(out, lo, hi)?;
            out.extend_from_slice(b" ")?;
            put_place(out, c.0 as u32)?;
            out.extend_from_slice(b"\n")?;
            Ok(())
        }
        Step::Bound { x, lo, hi } => {
            out.extend_from_slice(b"b ")?;
            put_place(out, x.0 as u32)?;
            put_range(out, lo, hi)?;
            out.extend_from_slice(b"\n")
        }
    }
}

// The ends of a range, each with a blank before it.
fn put_range(out: &mut Vec<u8>, lo: i64, hi: i64) -> Result<(), AllocError>
    ensures { OnOk result (out.new.items ≡ out.old.items ++ (codes " " ++ signed_decimal lo ++ codes " " ++ signed_decimal hi)) }
{
    out.extend_from_slice(b" ")?;
    put_number(out, lo)?;
    out.extend_from_slice(b" ")?;
    put_number(out, hi)
}

// A number that the text counts from 1.
fn put_place(out: &mut Vec<u8>, k: u32) -> Result<(), AllocError>
    requires { k < 2 ^ 31 }
    ensures { OnOk result (out.new.items ≡ out.old.items ++ place_text k) }
{
    put_number(out, k + 1)
}

fn put_number<I: Integer>(out: &mut Vec<u8>, number: I) -> Result<(), AllocError>
    ensures { OnOk result (out.new.items ≡ out.old.items ++ I.text number) }
{
    let mut buffer = Buffer::new();
    out.extend_from_slice(buffer.format(number).as_bytes())
}
