//! Items that are the same variable.
ghost use Rattle.std.specs.Prelude.{◌≡◌, ◌||◌, ℕ, IsTrue, length, get_or, false};
ghost use Rattle.std.specs.List.{list_any};
ghost use Rattle.qc_model.specs.declared.problem.Arg.TheVariants.{Var};
ghost use Rattle.model_arguments.specs.Repeats.{same_variable, has_repeat, has_place, is_marked};

use qc_model::Arg;

/// As many variables as a problem can have.
const MOST_VARIABLES: usize = 500;

/// Whether both are the same variable.
pub fn is_same(a: Arg, b: Arg) -> bool
    ensures { result ≡ same_variable a b }
{
    match a {
        Arg::Num(_) => false,
        Arg::Var(x) => match b {
            Arg::Num(_) => false,
            Arg::Var(y) => y.0 == x.0,
        },
    }
}

/// Whether one of the items is the same variable.
pub fn is_among(a: Arg, items: &[Arg]) -> bool
    ensures { result ≡ list_any (same_variable a) items.now }
{
    for item in items {
        if is_same(a, *item) {
            return true;
        }
    }
    false
}

// Each item beside those after it, which takes long.
fn stands_twice(items: &[Arg]) -> bool
    ensures { result ≡ has_repeat items.now }
{
    let mut rest = items;
    while let [first, others @ ..] = rest {
        if is_among(*first, others) {
            return true;
        }
        rest = others;
    }
    false
}

// Whether the item is no variable, or one that has a mark.
fn has_mark(item: Arg) -> bool
    ensures { result ≡ has_place 500 item }
{
    match item {
        Arg::Num(_) => true,
        Arg::Var(x) => (x.0 as usize) < MOST_VARIABLES,
    }
}

// Whether the item is a variable that is marked. It is marked then.
fn mark(marks: &mut [bool], item: Arg) -> bool
    requires { IsTrue (has_place (length marks.old) item) }
    ensures length { length marks.new ≡ length marks.old }
    ensures was { result ≡ is_marked marks.old item }
    ensures marked { (y : ℕ) → get_or marks.new y false ≡ (get_or marks.old y false || same_variable (Var (record { 0 = y })) item) }
{
    match item {
        Arg::Num(_) => false,
        Arg::Var(x) => {
            let was = marks[x.0 as usize];
            marks[x.0 as usize] = true;
            was
        }
    }
}

/// Whether a variable stands twice: in one walk, where all are numbered as a problem numbers its own.
pub fn is_repeated(items: &[Arg]) -> bool
    ensures { result ≡ has_repeat items.now }
{
    let mut marks = [false; MOST_VARIABLES];
    let mut k = items.len();
    while k > 0 {
        k -= 1;
        if !has_mark(items[k]) {
            return stands_twice(items);
        }
        if mark(&mut marks, items[k]) {
            return true;
        }
    }
    false
}
