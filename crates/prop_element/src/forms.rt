//! The predicates that are filtered by what each variable may keep.
ghost use Rattle.std.specs.Prelude.{◌≡◌, ◌⊎◌, IfSome};
ghost use Rattle.qc_model.specs.declared.problem.Pred.TheVariants.{ArrayIntElement, ArrayBoolElement, ArrayVarIntElement, ArrayVarBoolElement, TableInt};
ghost use Rattle.prop_element.specs.Forms.{IsOfForm};

use crate::choices::is_tangled;
use crate::elements::is_own_place;
use model_arguments::{arguments, is_repeated, items_at};
use qc_model::{Constraint, Pred};

/// What such a constraint is about.
#[derive(Clone, Copy)]
pub enum Form {
    Member,
    ToldMember,
    Least,
    Greatest,
    Element,
    Row,
    Choice,
}

fn element_form(rule: &Constraint) -> Option<Form>
    requires { (rule.now.pred ≡ ArrayIntElement) ⊎ (rule.now.pred ≡ ArrayBoolElement) }
    ensures { IfSome result (λ form. IsOfForm form rule.now) }
{
    if is_own_place(rule) {
        return None;
    }
    Some(Form::Element)
}

fn choice_form(rule: &Constraint) -> Option<Form>
    requires { (rule.now.pred ≡ ArrayVarIntElement) ⊎ (rule.now.pred ≡ ArrayVarBoolElement) }
    ensures { IfSome result (λ form. IsOfForm form rule.now) }
{
    if is_tangled(rule) {
        return None;
    }
    Some(Form::Choice)
}

fn table_form(rule: &Constraint) -> Option<Form>
    requires { rule.now.pred ≡ TableInt }
    ensures { IfSome result (λ form. IsOfForm form rule.now) }
{
    if is_repeated(items_at(arguments(rule), 0)) {
        return None;
    }
    Some(Form::Row)
}

/// The form of a constraint that is filtered so.
pub(crate) fn form_of(rule: &Constraint) -> Option<Form>
    ensures { IfSome result (λ form. IsOfForm form rule.now) }
{
    match rule.pred {
        Pred::SetIn => Some(Form::Member),
        Pred::SetInReif => Some(Form::ToldMember),
        Pred::ArrayIntMinimum => Some(Form::Least),
        Pred::ArrayIntMaximum => Some(Form::Greatest),
        Pred::ArrayIntElement => element_form(rule),
        Pred::ArrayBoolElement => element_form(rule),
        Pred::ArrayVarIntElement => choice_form(rule),
        Pred::ArrayVarBoolElement => choice_form(rule),
        Pred::TableInt => table_form(rule),
        _ => None,
    }
}
