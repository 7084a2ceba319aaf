//! What is known of a box on the way.
use fd_store::Mark;
use qc_model::ScopeId;

/// The box at the mark is closed for the constraints of the scopes from `from` to the one before `stop`, where the goal has
/// the number of scopes.
#[derive(Clone, Copy)]
pub(crate) struct Entry {
    pub(crate) mark: Mark,
    pub(crate) from: ScopeId,
    pub(crate) stop: usize,
}
