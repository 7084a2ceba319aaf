//! The machine before the first item, at each item, and after the last.
ghost use Rattle.std.specs.Prelude.{◌≡◌, OnOk, OnErr, IfOk};
ghost use Rattle.lemma_check.specs.Books.{first_book, wrong, is_wrong as is_wrong_in, goes, says};
ghost use Rattle.lemma_check.specs.Claims.{AnswersLists};
ghost use Rattle.lemma_check.specs.Machine.{game_of, book_of, IsReady};

use crate::endings::{game_loser, is_loser};
use crate::machine::{LemmaMachine, Stage};
use check_box::Remains;
use lemma_list::{Ending, Lemma};
use lemma_text::Item;
use model_levels::Levels;
use qc_model::{Kind, Problem};
use std::alloc::{AllocError, Global};

impl<'p> LemmaMachine<'p> {
    /// The machine of a problem before the first item. It takes the memory of the store and its trail, and fails only where
    /// that runs out.
    pub fn new(alloc: Global, problem: &'p Problem) -> Result<LemmaMachine<'p>, AllocError>
        ensures book { IfOk result (λ m. book_of m ≡ first_book) }
        ensures ready { IfOk result (λ m. IsReady m) }
        ensures same { IfOk result (λ m. game_of m ≡ problem.now) }
    {
        problem.known();
        let levels = Levels::new(alloc, problem)?;
        let remains = Remains::new(alloc, problem)?;
        Ok(LemmaMachine {
            alloc,
            levels,
            remains,
            known: Vec::new(alloc),
            loser: None,
            stage: Stage::Between,
            lemma: Lemma::new(alloc, Kind::Exists),
            place: 0,
            passed: 0,
        })
    }

    /// Takes an item. Memory is taken for literals, sums and lemmas alone; where it is refused, nothing is believed any
    /// more: what follows is wrong.
    pub fn item(&mut self, item: Item) -> Result<(), AllocError>
        requires { IsReady self.old }
        ensures ok { OnOk result (book_of self.new ≡ goes (game_of self.old) (book_of self.old) item) }
        ensures err { OnErr result (book_of self.new ≡ wrong) }
        ensures ready { IsReady self.new }
        ensures same { game_of self.new ≡ game_of self.old }
    {
        match item {
            Item::Head { .. } => Ok(()),
            Item::Lemma { loser, .. } => {
                self.settle()?;
                self.begin_lemma(loser);
                Ok(())
            }
            Item::Literal { literal, .. } => self.literal(literal),
            Item::Sum(sum) => self.sum(sum),
            Item::Step(step) => {
                self.pass_head();
                self.step(step);
                Ok(())
            }
            Item::Lost(by) => {
                self.pass_head();
                self.end_lemma(Ending::Lost(by))
            }
            Item::Goal => {
                self.pass_head();
                self.end_lemma(Ending::Goal)
            }
            Item::Forget(n) => {
                self.settle()?;
                self.forget(n);
                Ok(())
            }
        }
    }

    /// Whether by the items so far this side loses the game.
    fn tells(&mut self, loser: Kind) -> bool
        requires { IsReady self.old }
        ensures says { result ≡ says (game_of self.old) loser (book_of self.old) }
        ensures ready { IsReady self.new }
        ensures same { game_of self.new ≡ game_of self.old }
    {
        self.pass_head();
        match self.stage {
            Stage::Between => is_loser(loser, self.loser),
            Stage::Closing => self.remains.is_empty() && is_loser(loser, game_loser(&self.lemma)),
            Stage::Heading => false,
            Stage::Wrong => false,
        }
    }

    /// Whether a list whose items were taken, all of them from the first on, proves that this side loses the game.
    pub fn finish(&mut self, loser: Kind) -> bool
        requires { IsReady self.old }
        ensures says { result ≡ says (game_of self.old) loser (book_of self.old) }
        ensures proves { AnswersLists (game_of self.old) (book_of self.old) loser result }
        ensures ready { IsReady self.new }
        ensures same { game_of self.new ≡ game_of self.old }
    {
        self.tells(loser)
    }

    /// Whether something was out of place. It stays so, and no list that begins like this proves anything.
    pub fn is_wrong(&self) -> bool
        ensures { result ≡ is_wrong_in (book_of self.now) }
    {
        match self.stage {
            Stage::Wrong => true,
            Stage::Between => false,
            Stage::Heading => false,
            Stage::Closing => false,
        }
    }
}
