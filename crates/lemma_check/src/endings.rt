//! What the machine does where an entry ends.
ghost use Rattle.std.specs.Prelude.{◌≡◌, ◌<◌, ◌++◌, ◌∷◌, [], Some, OnOk, OnErr, IsTrue, is_some, length};
ghost use Rattle.lemma_list.specs.Reasons.{lemma_at as lemma_at_in};
ghost use Rattle.lemma_list.specs.declared.lemma.Ending.TheVariants as ending_as;
ghost use Rattle.lemma_list.specs.InPlace.{ends};
ghost use Rattle.lemma_check.specs.Books.{wrong, between, ended, settled, forgotten, game_loser as game_loser_of, is_loser as is_loser_in, past_head};
ghost use Rattle.lemma_check.specs.Machine.{game_of, book_of, IsReady};
ghost use Rattle.lemma_check.specs.declared.machine.Stage.TheVariants as stage_as;

use crate::machine::{LemmaMachine, Stage};
use crate::showing::Showing;
use lemma_list::{Ending, Lemma, LemmaId};
use lemma_reasons::{Aim, is_kind, lemma_at};
use qc_model::Kind;
use std::alloc::AllocError;
use std::mem;

/// The side that loses the game by a lemma, where it has no literals and sums.
pub(crate) fn game_loser(lemma: &Lemma) -> Option<Kind>
    ensures { result ≡ game_loser_of lemma.now }
{
    if lemma.literals().is_empty() && lemma.sums().is_empty() {
        Some(lemma.loser())
    } else {
        None
    }
}

/// Whether it is this side.
pub(crate) fn is_loser(k: Kind, loser: Option<Kind>) -> bool
    ensures { result ≡ is_loser_in k loser }
{
    match loser {
        None => false,
        Some(l) => is_kind(k, l),
    }
}

/// Whether the lemma may be named.
fn is_known(known: &[Option<Lemma>], n: LemmaId) -> bool
    ensures known { result ≡ is_some (lemma_at_in known.now n.0) }
    ensures within { IsTrue result → n.0 < length known.now }
{
    match lemma_at(known, n) {
        None => false,
        Some(_lemma) => true,
    }
}

impl<'p> LemmaMachine<'p> {
    /// Whether the lemma ends so.
    fn ends_by(&self, end: Ending) -> bool
        requires ready { IsReady self.now }
        requires closing { self.now.stage ≡ stage_as.Closing }
        ensures { result ≡ ends (game_of self.now) self.now.known.items self.now.lemma end self.now.passed self.now.remains.box }
    {
        let showing = Showing {
            aim: Aim {
                problem: self.levels.problem,
                lemma: &self.lemma,
                place: self.place,
            },
            levels: &self.levels,
            known: self.known.as_slice(),
            passed: self.passed,
        };
        showing.may_end(&self.remains, end)
    }

    /// The lemma is shown.
    fn keep_lemma(&mut self) -> Result<(), AllocError>
        requires ready { IsReady self.old }
        ensures ok { OnOk result (book_of self.new ≡ between (self.old.known.items ++ Some self.old.lemma ∷ []) (game_loser_of self.old.lemma)) }
        ensures err { OnErr result (book_of self.new ≡ wrong) }
        ensures ready { IsReady self.new }
        ensures same { game_of self.new ≡ game_of self.old }
    {
        let lemma = mem::replace(&mut self.lemma, Lemma::new(self.alloc, Kind::Exists));
        self.loser = game_loser(&lemma);
        self.stage = Stage::Wrong;
        self.known.push(Some(lemma))?;
        self.stage = Stage::Between;
        Ok(())
    }

    /// The lemma ends, if it may end so. Where memory is refused, nothing is believed any more.
    pub(crate) fn end_lemma(&mut self, end: Ending) -> Result<(), AllocError>
        requires { IsReady self.old }
        ensures ok { OnOk result (book_of self.new ≡ ended (game_of self.old) end (book_of self.old)) }
        ensures err { OnErr result (book_of self.new ≡ wrong) }
        ensures ready { IsReady self.new }
        ensures same { game_of self.new ≡ game_of self.old }
    {
        match self.stage {
            Stage::Closing => {
                if self.ends_by(end) {
                    return self.keep_lemma();
                }
                self.refuse();
            }
            Stage::Between => self.refuse(),
            Stage::Heading => self.refuse(),
            Stage::Wrong => self.refuse(),
        }
        Ok(())
    }

    /// A lemma that is open ends without a line for it.
    fn settle_open(&mut self) -> Result<(), AllocError>
        requires { IsReady self.old }
        ensures ok { OnOk result (book_of self.new ≡ ended (game_of self.old) ending_as.Emptied (past_head (game_of self.old) (book_of self.old))) }
        ensures err { OnErr result (book_of self.new ≡ wrong) }
        ensures ready { IsReady self.new }
        ensures same { game_of self.new ≡ game_of self.old }
    {
        self.pass_head();
        self.end_lemma(Ending::Emptied)
    }

    /// Another entry comes.
    pub(crate) fn settle(&mut self) -> Result<(), AllocError>
        requires { IsReady self.old }
        ensures ok { OnOk result (book_of self.new ≡ settled (game_of self.old) (book_of self.old)) }
        ensures err { OnErr result (book_of self.new ≡ wrong) }
        ensures ready { IsReady self.new }
        ensures same { game_of self.new ≡ game_of self.old }
    {
        match self.stage {
            Stage::Between => Ok(()),
            Stage::Heading => self.settle_open(),
            Stage::Closing => self.settle_open(),
            Stage::Wrong => Ok(()),
        }
    }

    fn forget_known(&mut self, n: LemmaId)
        requires ready { IsReady self.old }
        requires between { self.old.stage ≡ stage_as.Between }
        ensures book { book_of self.new ≡ forgotten n (between self.old.known.items self.old.loser) }
        ensures ready { IsReady self.new }
        ensures same { game_of self.new ≡ game_of self.old }
    {
        if !is_known(self.known.as_slice(), n) {
            self.refuse();
            return;
        }
        self.known[n.0 as usize] = None;
        self.loser = None;
    }

    /// The lemma that is named isn't named any more.
    pub(crate) fn forget(&mut self, n: LemmaId)
        requires { IsReady self.old }
        ensures book { book_of self.new ≡ forgotten n (book_of self.old) }
        ensures ready { IsReady self.new }
        ensures same { game_of self.new ≡ game_of self.old }
    {
        match self.stage {
            Stage::Between => self.forget_known(n),
            Stage::Heading => self.refuse(),
            Stage::Closing => self.refuse(),
            Stage::Wrong => self.refuse(),
        }
    }
}
