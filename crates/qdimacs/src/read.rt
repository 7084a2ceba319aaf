//! Texts to problems.
ghost use Rattle.std.specs.Prelude.{◌≡◌, ◌≤◌, ◌++◌, map, length, None, IsTrue, IfOk, IfErr};
ghost use Rattle.qc_model.specs.declared.problem.Kind.TheVariants.{Exists};
ghost use Rattle.qdimacs.specs.Content.{game_of};
ghost use Rattle.qdimacs.specs.Refusals.{free_blocks, free_variables, block_of, first_refusal, formula_of, has_positives, Explains};
ghost use Rattle.qdimacs.specs.Read.{IsProblemOf};

use crate::draft::make_draft;
use crate::fault::QdimacsFault;
use crate::parse::parse;
use crate::refuse::check;
use crate::scan::tokens;
use crate::tree::{FileText, SetText};
use qc_model::{Draft, Problem, build};
use std::alloc::{AllocError, Global};

/// The sets, after this one where it has variables.
fn with_free(mut sets: Vec<SetText>, free: SetText) -> Result<Vec<SetText>, AllocError>
    requires { (block_of free).kind ≡ Exists }
    ensures { IfOk result (λ blocks. map block_of blocks.items ≡ free_blocks (block_of free).variables ++ map block_of sets.items) }
{
    if !free.variables.items().is_empty() {
        sets.insert(0, free)?;
    }
    Ok(sets)
}

/// The draft of a text that isn't refused.
fn draft_of(alloc: Global, file: FileText, free: SetText) -> Result<Draft, AllocError>
    requires good { first_refusal file ≡ None }
    requires numbers { IsTrue (has_positives file) }
    requires free { block_of free ≡ record { kind = Exists; variables = free_variables file } }
    ensures { IfOk result (λ draft. draft ≡ game_of (formula_of file)) }
{
    let FileText {
        variables,
        clauses: _,
        sets,
        body,
    } = file;
    let blocks = with_free(sets, free)?;
    make_draft(alloc, variables.value, blocks.as_slice(), body.as_slice())
}

/// The problem that a text of at most 4,194,304 bytes states. The player wins it exactly where the
/// text's formula is true: with the variables that stand in no set first, existential, and then those of
/// the sets in order.
///
/// It takes time and memory in proportion to the text.
///
/// # Errors
///
/// `Refused` with the first kind of `QdimacsKind` that the text meets, and the first place where it meets
/// it. `Memory` where memory was refused.
pub fn read_qdimacs(alloc: Global, text: &[u8]) -> Result<Problem, QdimacsFault>
    requires { length text.now ≤ 4194304 }
    ensures made { IfOk result (λ problem. IsProblemOf text.now problem) }
    ensures refused { IfErr result (λ e. Explains text.now e) }
{
    let tokens = tokens(alloc, text)?;
    let file = parse(alloc, text.len() as u32, tokens.as_slice())?;
    let free = check(alloc, &file)?;
    match build(draft_of(alloc, file, free)?) {
        Some(problem) => Ok(problem),
        // Such a draft is valid.
        None => unreachable!(),
    }
}
