//! What goes next, of predicates of which it is known what each variable may keep.
ghost use Rattle.prop_element.specs.Forms.{IsOfForm};

use crate::choices::choice_cut;
use crate::elements::element_cut;
use crate::forms::Form;
use crate::greatest::maximum_cut;
use crate::least::minimum_cut;
use crate::members::member_cut;
use crate::tables::table_cut;
use crate::told_members::told_member_cut;
use fd_store::Store;
use prop_base::{Cut, Cutter};
use qc_model::{Constraint, Problem};

impl Cutter for Form {
    ghost serves = { IsOfForm };

    fn next_cut(&self, problem: &Problem, rule: &Constraint, store: &Store) -> Option<Cut> {
        match *self {
            Form::Member => member_cut(problem, rule, store),
            Form::ToldMember => told_member_cut(problem, rule, store),
            Form::Least => minimum_cut(problem, rule, store),
            Form::Greatest => maximum_cut(problem, rule, store),
            Form::Element => element_cut(problem, rule, store),
            Form::Row => table_cut(problem, rule, store),
            Form::Choice => choice_cut(problem, rule, store),
        }
    }
}
