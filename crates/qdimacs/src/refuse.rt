//! What a whole text is refused for.
ghost use Rattle.std.specs.Prelude.{◌≡◌, ◌≤◌, None, IfOk, IfErr, OnOk};
ghost use Rattle.qc_model.specs.declared.problem.Kind.TheVariants.{Exists};
ghost use Rattle.qdimacs.specs.Refusals.{none_known, is_known, known_after_sets, repeated_in_sets, wrong_count as wrong_count_of, out_of_range as out_of_range_of, great_count as great_count_of, first_refusal, free_variables, block_of, IsRefusedFor, IsRefusal};

use crate::excess::{great_count, great_part};
use crate::fault::{QdimacsFault, QdimacsKind};
use crate::free::free_set;
use crate::range::out_of_range;
use crate::repeated::add_sets;
use crate::seen::Seen;
use crate::tree::{FileText, SetText};
use std::alloc::Global;

/// Refuses the text for this, where it has a place.
fn refuse(kind: QdimacsKind, place: Option<u32>) -> Result<(), QdimacsFault>
    ensures none { OnOk result (place ≡ None) }
    ensures refused { IfErr result (λ e. IsRefusedFor kind place e) }
{
    match place {
        Some(at) => Err(QdimacsFault::Refused { kind, at }),
        None => Ok(()),
    }
}

/// The second count, where there are more or fewer clauses.
fn wrong_count(file: &FileText) -> Option<u32>
    ensures { result ≡ wrong_count_of file.now }
{
    if file.body.len() == file.clauses.value as usize {
        None
    } else {
        Some(file.clauses.at)
    }
}

/// The variables that stand in sets, where the text isn't refused for variables or counts.
fn variables_in_sets(alloc: Global, file: &FileText) -> Result<Seen, QdimacsFault>
    ensures known { IfOk result (λ seen. is_known seen ≡ known_after_sets none_known file.now.sets) }
    ensures range { OnOk result (out_of_range_of file.now ≡ None) }
    ensures once { OnOk result (repeated_in_sets none_known file.now.sets ≡ None) }
    ensures count { OnOk result (wrong_count_of file.now ≡ None) }
    ensures few { OnOk result (great_count_of file.now ≡ None) }
    ensures refused { IfErr result (λ e. IsRefusal (first_refusal file.now) e) }
{
    refuse(QdimacsKind::OutOfRange, out_of_range(file))?;
    let mut seen = Seen::new(alloc);
    refuse(
        QdimacsKind::Repeated,
        add_sets(&mut seen, file.sets.as_slice())?,
    )?;
    refuse(QdimacsKind::WrongCount, wrong_count(file))?;
    refuse(QdimacsKind::TooMany, great_count(file))?;
    Ok(seen)
}

/// A set of the variables that stand in no set, where the text isn't refused.
pub(crate) fn check(alloc: Global, file: &FileText) -> Result<SetText, QdimacsFault>
    ensures free { IfOk result (λ set. block_of set ≡ record { kind = Exists; variables = free_variables file.now }) }
    ensures none { OnOk result (first_refusal file.now ≡ None) }
    ensures refused { IfErr result (λ e. IsRefusal (first_refusal file.now) e) }
{
    let seen = variables_in_sets(alloc, file)?;
    let free = free_set(alloc, &seen, file.variables.value)?;
    match great_part(file, free.variables.items()) {
        Some(at) => Err(QdimacsFault::Refused {
            kind: QdimacsKind::TooMany,
            at,
        }),
        None => Ok(free),
    }
}
