//! What a node of a certificate's tree comes to, as a value.
use crate::counter::Counter;
use crate::plan::Plan;
use joins::Found;

/// What a node comes to, and the trees of choices that show it: the strategy where it is exact, the counterstrategy where
/// it is lost. Elsewhere the trees may be any. The vector of an exact node is handed out beside it.
#[derive(Drop)]
pub(crate) struct Shown {
    pub(crate) found: Found,
    pub(crate) plan: Plan,
    pub(crate) counter: Counter,
}
