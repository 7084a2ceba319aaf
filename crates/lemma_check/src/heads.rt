//! What the machine does with the heads of lemmas.
ghost use Rattle.std.specs.Prelude.{◌≡◌, OnOk, OnErr};
ghost use Rattle.lemma_check.specs.Books.{heading, wrong, past_head, headed, with_literal, with_sum};
ghost use Rattle.lemma_check.specs.Machine.{game_of, book_of, IsReady};

use crate::cuts::begin_box;
use crate::machine::{LemmaMachine, Stage};
use lemma_list::{Lemma, Literal, SumLiteral};
use lemma_reasons::{Aim, is_lemma};
use qc_model::Kind;
use std::alloc::AllocError;

impl<'p> LemmaMachine<'p> {
    /// Something was out of place.
    pub(crate) fn refuse(&mut self)
        requires { IsReady self.old }
        ensures book { book_of self.new ≡ wrong }
        ensures ready { IsReady self.new }
        ensures same { game_of self.new ≡ game_of self.old }
    {
        self.stage = Stage::Wrong;
    }

    /// A lemma begins.
    pub(crate) fn begin_lemma(&mut self, loser: Kind)
        requires { IsReady self.old }
        ensures book { book_of self.new ≡ headed loser (book_of self.old) }
        ensures ready { IsReady self.new }
        ensures same { game_of self.new ≡ game_of self.old }
    {
        match self.stage {
            Stage::Between => {
                self.lemma = Lemma::new(self.alloc, loser);
                self.stage = Stage::Heading;
            }
            Stage::Heading => self.refuse(),
            Stage::Closing => self.refuse(),
            Stage::Wrong => self.refuse(),
        }
    }

    /// A literal of the lemma. Where memory is refused, nothing is believed any more.
    pub(crate) fn literal(&mut self, literal: Literal) -> Result<(), AllocError>
        requires { IsReady self.old }
        ensures ok { OnOk result (book_of self.new ≡ with_literal literal (book_of self.old)) }
        ensures err { OnErr result (book_of self.new ≡ wrong) }
        ensures ready { IsReady self.new }
        ensures same { game_of self.new ≡ game_of self.old }
    {
        match self.stage {
            Stage::Heading => {
                self.stage = Stage::Wrong;
                self.lemma.push_literal(literal)?;
                self.stage = Stage::Heading;
            }
            Stage::Between => self.refuse(),
            Stage::Closing => self.refuse(),
            Stage::Wrong => self.refuse(),
        }
        Ok(())
    }

    /// A sum of the lemma. Where memory is refused, nothing is believed any more.
    pub(crate) fn sum(&mut self, sum: SumLiteral) -> Result<(), AllocError>
        requires { IsReady self.old }
        ensures ok { OnOk result (book_of self.new ≡ with_sum sum (book_of self.old)) }
        ensures err { OnErr result (book_of self.new ≡ wrong) }
        ensures ready { IsReady self.new }
        ensures same { game_of self.new ≡ game_of self.old }
    {
        match self.stage {
            Stage::Heading => {
                self.stage = Stage::Wrong;
                self.lemma.push_sum(sum)?;
                self.stage = Stage::Heading;
            }
            Stage::Between => self.refuse(),
            Stage::Closing => self.refuse(),
            Stage::Wrong => self.refuse(),
        }
        Ok(())
    }

    /// The steps of the lemma begin, where its head is in order.
    fn begin_steps(&mut self)
        requires ready { IsReady self.old }
        ensures book { book_of self.new ≡ past_head (game_of self.old) (heading self.old.known.items self.old.lemma) }
        ensures ready { IsReady self.new }
        ensures same { game_of self.new ≡ game_of self.old }
    {
        let aim = Aim::new(self.levels.problem, &self.lemma);
        let place = aim.place;
        if !is_lemma(&aim) {
            self.refuse();
            return;
        }
        begin_box(self.levels.problem, &self.lemma, &mut self.remains);
        self.place = place;
        self.passed = place;
        self.stage = Stage::Closing;
    }

    /// The literals and sums of the lemma are known, if one is open.
    pub(crate) fn pass_head(&mut self)
        requires ready { IsReady self.old }
        ensures book { book_of self.new ≡ past_head (game_of self.old) (book_of self.old) }
        ensures ready { IsReady self.new }
        ensures same { game_of self.new ≡ game_of self.old }
    {
        match self.stage {
            Stage::Heading => self.begin_steps(),
            Stage::Between => {}
            Stage::Closing => {}
            Stage::Wrong => {}
        }
    }
}
