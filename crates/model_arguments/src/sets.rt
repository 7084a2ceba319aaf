//! Members of sets.
ghost use Rattle.std.specs.Prelude.{◌≡◌, IsTrue};
ghost use Rattle.std.specs.List.{list_any};
ghost use Rattle.std.specs.Ordering.{int_eq};
ghost use Rattle.qc_model.specs.Domains.{set_has, is_ascending};
ghost use Rattle.qc_model.specs.Valid.{is_set};

use qc_model::Set;

fn is_listed(numbers: &[i64], number: i64) -> bool
    requires { IsTrue (is_ascending numbers.now) }
    ensures { result ≡ list_any (int_eq number) numbers.now }
{
    numbers.binary_search(&number).is_ok()
}

/// Whether a set of a problem has the number, in time of the order of the logarithm of its size.
pub fn contains(set: &Set, number: i64) -> bool
    requires { IsTrue (is_set set.now) }
    ensures { result ≡ set_has set.now number }
{
    match set {
        Set::Range(low, high) => *low <= number && number <= *high,
        Set::Listed(numbers) => is_listed(numbers.items(), number),
    }
}
