//! The order of vectors.
ghost use Rattle.std.specs.Prelude.{◌≡◌, length};
ghost use Rattle.std.specs.declared.cmp.Ordering.TheVariants.{Equal};
ghost use Rattle.joins.specs.Order.{number_order, vector_order};

use qc_model::{Condition, Sense};
use std::cmp::Ordering;

fn compare_numbers(sense: Sense, x: i64, y: i64) -> Ordering
    ensures { result ≡ number_order sense x y }
{
    match sense {
        Sense::Min => x.cmp(&y),
        Sense::Max => y.cmp(&x),
    }
}

/// Less where v is better than w, Greater where w is better, Equal otherwise. Better means: at the
/// first place where they differ, smaller under `Min` and greater under `Max`.
pub fn compare(list: &[Condition], v: &[i64], w: &[i64]) -> Ordering
    ensures order { result ≡ vector_order list.now v.now w.now }
    ensures same { length v.now ≡ length list.now → length w.now ≡ length list.now → result ≡ Equal → v.now ≡ w.now }
{
    let count = list.len().min(v.len()).min(w.len());
    for k in 0..count {
        let order = compare_numbers(list[k].sense, v[k], w[k]);
        if order != Ordering::Equal {
            return order;
        }
    }
    Ordering::Equal
}
