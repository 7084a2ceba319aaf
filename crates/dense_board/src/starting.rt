//! A board before anything was chosen.
ghost use Rattle.std.specs.Prelude.{◌≡◌, length, IfOk};
ghost use Rattle.qc_model.specs.Domains.{declared_box};
ghost use Rattle.dense_board.specs.Saved.{KnowsScopes};

use crate::board::Board;
use check_box::Remains;
use dense_box::{Freedom, Wishes, may_give};
use dense_close::Closer;
use joins::{Demands, Joins};
use likeness::Likeness;
use model_levels::Levels;
use qc_model::{Kind, Problem, ScopeId};
use std::alloc::{AllocError, Global};

/// A tuple that the opponent may always take in a scope of his.
#[derive(Drop)]
pub struct Given {
    pub scope: ScopeId,
    pub tuple: Vec<i64>,
}

// Gives a tuple, where it may be given.
fn give_one(levels: &Levels, remains: &mut Remains, freedom: &mut Freedom, it: &Given)
    requires declared { remains.old.box ≡ declared_box levels.now.problem.now }
    requires knows { KnowsScopes levels.now.problem.now freedom.old }
    ensures content { remains.new.box ≡ remains.old.box }
    ensures past { remains.new.past ≡ remains.old.past }
    ensures knows { KnowsScopes levels.now.problem.now freedom.new }
{
    if !freedom.comes_next(it.scope) {
        return;
    }
    if may_give(levels, it.scope, remains, it.tuple.as_slice()) {
        freedom.give(it.scope);
    }
}

// Gives each tuple that may be given where it stands.
fn give_each(levels: &Levels, remains: &mut Remains, freedom: &mut Freedom, given: &[Given])
    requires declared { remains.old.box ≡ declared_box levels.now.problem.now }
    requires knows { KnowsScopes levels.now.problem.now freedom.old }
    ensures content { remains.new.box ≡ declared_box levels.now.problem.now }
    ensures standings { length freedom.new.standings.items ≡ length levels.now.problem.now.scopes }
{
    for it in given {
        give_one(levels, remains, freedom, it);
    }
}

// The number behind that of the last scope of the opponent without a restriction, or 0.
fn end_of_moves(levels: &Levels) -> usize {
    levels.problem.known();
    let mut end = 0;
    for k in 0..levels.problem.scopes() {
        let level = levels.level(ScopeId(k as u8));
        if level.kind == Kind::Forall && level.rules.is_empty() {
            end = k + 1;
        }
    }
    end
}

impl<'p> Board<'p> {
    /// The board of a game with its declared domains. Tuples are given in their order, each where it may be given. It fails only
    /// where memory runs out.
    pub fn new(
        alloc: Global,
        problem: &'p Problem,
        given: &[Given],
    ) -> Result<Board<'p>, AllocError>
        ensures same { IfOk result (λ board. board.levels.problem.now ≡ problem.now) }
    {
        problem.known();
        // those that have most to let go where a later one fails come last
        let values = vec![in alloc; 0; problem.variables()]?;
        let levels = Levels::new(alloc, problem)?;
        let mut freedom = Freedom::new(alloc, &levels)?;
        let moves_end = end_of_moves(&levels);
        let wishes = Wishes::new(alloc, problem)?;
        let demands = Demands::new(alloc, problem)?;
        let likeness = Likeness::new(alloc, &levels)?;
        let mut remains = Remains::new(alloc, problem)?;
        let joins = Joins::new(alloc, problem)?;
        let closer = Closer::new(alloc, problem)?;
        give_each(&levels, &mut remains, &mut freedom, given);
        Ok(Board {
            levels,
            demands,
            remains,
            closer,
            freedom,
            wishes,
            joins,
            likeness,
            values,
            moves_end,
            saved: Vec::new(alloc),
        })
    }
}
