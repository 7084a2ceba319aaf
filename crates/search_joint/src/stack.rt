//! Boxes on the way, one within the other.
ghost use Rattle.std.specs.Prelude.{◌≡◌, ◌<◌, length, IsTrue};
ghost use Rattle.search_joint.specs.Stacked.{IsFront, last_entry};

use crate::entry::Entry;
use fd_store::Mark;
use qc_model::ScopeId;

// Whether the last entry is of scope i or a later one.
fn ends_from(entries: &[Entry], i: ScopeId) -> bool
    ensures { IsTrue result → 0 < length entries.now }
{
    match entries.last() {
        None => false,
        Some(entry) => i.0 <= entry.from.0,
    }
}

/// Gives up the entries of scope i and later ones.
pub(crate) fn pop_from(entries: &mut Vec<Entry>, i: ScopeId)
    ensures { IsFront entries.new.items entries.old.items }
{
    while ends_from(entries.as_slice(), i) {
        entries.pop();
    }
}

/// The last entry; without one that of the declared box, which is closed for no constraint.
pub(crate) fn last_of(entries: &[Entry]) -> Entry
    ensures { result ≡ last_entry entries.now }
{
    match entries.last() {
        None => Entry {
            mark: Mark { at: 0 },
            from: ScopeId(0),
            stop: 0,
        },
        Some(entry) => *entry,
    }
}
