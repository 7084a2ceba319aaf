//! What is found ahead of a scope.
use proof_tree::StepList;
use qc_model::ScopeId;

/// What is found ahead of a scope.
#[derive(Drop)]
pub struct Entered {
    /// The least scope that isn't passed, whose joint store is empty. The goal has the number of scopes.
    pub horizon: Option<ScopeId>,
    /// Removals that empty this store, from the box at entry on. Without a horizon there are none.
    pub steps: StepList,
}
