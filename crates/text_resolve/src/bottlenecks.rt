//! Where a text asks for more after an aggregate by least or greatest.
ghost use Rattle.std.specs.Prelude.{◌≡◌, ◌≤◌, length};
ghost use Rattle.text_resolve.specs.Bottlenecks.{aggregate_at as aggregate_place, bottleneck_at as bottleneck_place};

use qc_model::{Draft, first_bottleneck};
use text_grammar::Item;

/// The place of the aggregate with this number.
fn aggregate_at(items: &[Item], number: usize) -> u32
    ensures { result ≡ aggregate_place items.now number }
{
    let mut left = number;
    for item in items {
        if let Item::Aggregate { at, .. } = item {
            if left == 0 {
                return *at;
            }
            left -= 1;
        }
    }
    0
}

/// The place of the first aggregate by least or greatest that the list of a universal scope of the
/// draft names before a different one, where the draft is made of the items.
pub(crate) fn bottleneck_at(draft: &Draft, items: &[Item]) -> Option<u32>
    requires { length draft.now.scopes ≤ 64 }
    ensures { result ≡ bottleneck_place draft.now items.now }
{
    match first_bottleneck(draft) {
        Some(q) => Some(aggregate_at(items, q.0 as usize)),
        None => None,
    }
}
