//! What one closing goes by.
ghost use Rattle.model_levels.specs.Spans.{IsSpanOf};
ghost use Rattle.dense_close.specs.Index.{IsIndexOf};

use crate::index::Index;
use dense_quiet::Taking;
use model_arguments::Span;
use qc_model::Problem;

/// The constraints that a box is to be closed for, which are those of the scopes from one to the one before another, and what they
/// may take.
#[derive(Clone, Copy)]
pub(crate) struct Task<'a> {
    pub(crate) problem: &'a Problem,
    pub(crate) index: &'a Index,
    pub(crate) taking: Taking,
    pub(crate) from: usize,
    pub(crate) stop: usize,
    pub(crate) span: Span,
    pub(crate) ghost index_is: { IsIndexOf problem.now index.now },
    pub(crate) ghost span_is: { IsSpanOf problem.now from stop span.first span.end },
}
