//! A certificate by the lines of its tree.
use proof_tree::{Line, Outcome};

/// What a certificate states, and the lines of its tree from the first to the last, as `read_lines` gives them: 24 bytes a
/// line, and no tree.
#[derive(Drop)]
pub struct CertificateLines {
    pub outcome: Outcome,
    pub optimum: Option<i64>,
    pub lines: Vec<Line>,
}
