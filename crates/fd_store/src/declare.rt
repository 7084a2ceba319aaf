//! The table of a problem's variables before any removal.
ghost use Rattle.std.specs.Prelude.{◌≡◌, ◌≤◌, true, [], length, map, sum_by, IfOk};
ghost use Rattle.std.specs.List.{list_all};
ghost use Rattle.qc_model.specs.Domains.{domain_values};
ghost use Rattle.qc_model.specs.Valid.{is_domain, domain_width};
ghost use Rattle.fd_store.specs.Takes.{IsSoundTable, box_in};

use crate::build::add_domain;
use crate::table::Table;
use paged_stack::PagedStack;
use qc_model::Variable;
use std::alloc::{AllocError, Global};

pub(crate) fn declared(alloc: Global, variables: &[Variable]) -> Result<Table, AllocError>
    requires domains { list_all (λ x. is_domain x.domain) variables.now ≡ true }
    requires widths { sum_by (λ x. domain_width x.domain) variables.now ≤ 4194304 }
    requires few { length variables.now ≤ 500 }
    ensures { IfOk result (λ t. IsSoundTable t × (box_in t ≡ map (λ x. domain_values x.domain) variables.now) × (t.trail.items ≡ []) × (t.trail.spare ≡ 0)) }
{
    let mut words = Vec::new(alloc);
    let mut cells = Vec::new(alloc);
    for variable in variables {
        let cell = add_domain(&mut words, &variable.domain)?;
        cells.push(cell)?;
    }
    Ok(Table {
        words,
        cells,
        trail: PagedStack::new(alloc),
    })
}
