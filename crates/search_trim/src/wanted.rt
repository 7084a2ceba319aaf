//! Marks at the variables that are wanted. A variable without a place among the marks always is.
ghost use Rattle.std.specs.Prelude.{◌≡◌, flat_map};
ghost use Rattle.qc_model.specs.Arguments.{arg_variables, argument_variables, variables_of};
ghost use Rattle.search_trim.specs.Slice.{is_wanted as is_wanted_of, wanting, wanting_all};

use qc_model::{Arg, Argument, VarId};

/// Whether the variable is wanted.
pub fn is_wanted(marks: &[bool], x: VarId) -> bool
    ensures { result ≡ is_wanted_of marks.now x.0 }
{
    match marks.get(x.0 as usize) {
        Some(mark) => *mark,
        None => true,
    }
}

/// The variable is wanted too.
#[tactic(auto, using(std::proofs::lemmas::List::set_past))]
pub fn want(marks: &mut [bool], x: VarId)
    ensures { marks.new ≡ wanting marks.old x.0 }
{
    if (x.0 as usize) < marks.len() {
        marks[x.0 as usize] = true;
    }
}

fn want_arg(marks: &mut [bool], arg: &Arg)
    ensures { marks.new ≡ wanting_all marks.old (arg_variables arg.now) }
{
    if let Arg::Var(x) = arg {
        want(marks, *x);
    }
}

#[tactic(auto, using(crate::proofs::Marks::wanting_more))]
fn want_items(marks: &mut [bool], items: &[Arg])
    ensures { marks.new ≡ wanting_all marks.old (flat_map arg_variables items.now) }
{
    for item in items {
        want_arg(marks, item);
    }
}

fn want_argument(marks: &mut [bool], argument: &Argument)
    ensures { marks.new ≡ wanting_all marks.old (argument_variables argument.now) }
{
    match argument {
        Argument::One(arg) => want_arg(marks, arg),
        Argument::Many(items) => want_items(marks, items.items()),
        Argument::Numbers(_) | Argument::Members(_) => {}
    }
}

/// All variables of the arguments are wanted too.
pub fn want_all(marks: &mut [bool], args: &[Argument])
    ensures { marks.new ≡ wanting_all marks.old (variables_of args.now) }
{
    for argument in args {
        want_argument(marks, argument);
    }
}
