//! A lemma that is to be shown.
ghost use Rattle.std.specs.Prelude.{◌≡◌, ◌≤◌, length};
ghost use Rattle.lemma_list.specs.Places.{place as place_in};
ghost use Rattle.lemma_list.specs.Sums.{last_scope as last_scope_in};

use crate::places::place_of;
use lemma_list::Lemma;
use qc_model::Problem;

/// A lemma of a problem that is to be shown, with its place, which is looked up once.
#[derive(Clone, Copy)]
pub struct Aim<'a> {
    pub problem: &'a Problem,
    pub lemma: &'a Lemma,
    pub place: usize,
    pub ghost has_place: { place ≡ place_in problem.now lemma.now },
    pub ghost within: { place ≤ length problem.now.scopes },
}

impl<'a> Aim<'a> {
    /// The lemma with its place. It takes time in the order of the lemma's literals.
    pub fn new(problem: &'a Problem, lemma: &'a Lemma) -> Aim<'a>
        ensures problem { result.problem.now ≡ problem.now }
        ensures lemma { result.lemma.now ≡ lemma.now }
    {
        Aim {
            problem,
            lemma,
            place: place_of(problem, lemma),
        }
    }
    /// The scope right before the lemma's position, the last that it speaks of, or 0.
    pub fn last_scope(&self) -> usize
        ensures { result ≡ last_scope_in self.now.problem.now self.now.lemma.now }
    {
        self.place.saturating_sub(1)
    }
}
