//! The variables that stand in no set.
ghost use Rattle.std.specs.Prelude.{◌≡◌, ◌≤◌, ◌∷◌, ◌++◌, [], map, filter, not, cond, IfOk, OnOk};
ghost use Rattle.qdimacs.specs.Refusals.{is_known, count_up, block_of};
ghost use Rattle.qc_model.specs.declared.problem.Kind.TheVariants.{Exists};

use crate::seen::Seen;
use crate::tree::{NumberList, NumberText, SetText};
use qc_model::Kind;
use std::alloc::{AllocError, Global};

fn push_if(numbers: &mut NumberList, is_wanted: bool, value: u32) -> Result<(), AllocError>
    ensures { OnOk result (numbers.new ≡ numbers.old ++ cond is_wanted (record { at = 0; value = value } ∷ []) []) }
{
    if is_wanted {
        numbers.push(NumberText { at: 0, value })?;
    }
    Ok(())
}

fn unseen(alloc: Global, seen: &Seen, most: u32) -> Result<NumberList, AllocError>
    requires { most ≤ 500 }
    ensures { IfOk result (λ numbers. map (λ n. n.value) numbers ≡ filter (λ x. not (is_known seen.now x)) (count_up 1 most)) }
{
    let mut numbers = NumberList::new(alloc);
    for i in 0..most {
        push_if(&mut numbers, !seen.has(i + 1), i + 1)?;
    }
    Ok(numbers)
}

/// An existential set of the variables up to this one that aren't in the other sets, ascending.
pub(crate) fn free_set(alloc: Global, seen: &Seen, most: u32) -> Result<SetText, AllocError>
    requires { most ≤ 500 }
    ensures { IfOk result (λ set. block_of set ≡ record { kind = Exists; variables = filter (λ x. not (is_known seen.now x)) (count_up 1 most) }) }
{
    Ok(SetText {
        at: 0,
        kind: Kind::Exists,
        variables: unseen(alloc, seen, most)?,
        end: 0,
    })
}
