//! What was read so far, one token after the other.
ghost use Rattle.std.specs.Prelude.{◌≡◌, ◌∷◌, ◌++◌, [], Some, OnOk, IfOk};
ghost use Rattle.qdimacs.specs.Grammar.{count_of};
ghost use Rattle.qdimacs.specs.Moves.{start, is_whole as is_whole_of, file_of, body_move, set_move, sets_move, after_token, with_literal, with_variables, with_clauses, word_move, Answers};

use crate::token::{Sign, Token};
use crate::tree::{
    ClauseText, FileText, LiteralList, LiteralText, NumberList, NumberText, SetText,
};
use qc_model::Kind;
use std::alloc::{AllocError, Global};
use std::marker::Model;
use std::mem;

/// Where the next token stands: which part of the head is to come, between sets, in a set, or in or
/// between clauses.
#[derive(Clone, Copy, PartialEq, Eq)]
pub enum Part {
    Format,
    Cnf,
    Variables,
    Clauses,
    Sets,
    Set,
    Body,
}

/// What became of a token.
#[derive(Clone, Copy, PartialEq, Eq)]
pub enum Advance {
    Taken,
    /// It can't stand there.
    Refused,
}

/// What was read: the counts, the sets and clauses, and the parts of those that haven't ended.
#[derive(Drop)]
pub(crate) struct Reader {
    part: Part,
    variables: NumberText,
    clauses: NumberText,
    sets: Vec<SetText>,
    opened: SetText,
    body: Vec<ClauseText>,
    literals: LiteralList,
}

impl Model for Reader {
    ghost use Rattle.qdimacs.specs.Moves.{Reading};

    ghost Value = { Reading };

    ghost view = { λ a. record { part = a.part; variables = a.variables; clauses = a.clauses; sets = a.sets.items; opened = a.opened; body = a.body.items; literals = a.literals } };
}

fn count(token: Token) -> Option<NumberText>
    ensures { result ≡ count_of token }
{
    match token.sign {
        Sign::Zero => Some(NumberText {
            at: token.at,
            value: 0,
        }),
        Sign::Number(value) => Some(NumberText {
            at: token.at,
            value,
        }),
        _ => None,
    }
}

fn no_set(alloc: Global) -> SetText
    ensures { result ≡ Rattle.qdimacs.specs.Moves.no_set }
{
    SetText {
        at: 0,
        kind: Kind::Exists,
        variables: NumberList::new(alloc),
        end: 0,
    }
}

const NO_NUMBER: NumberText = NumberText { at: 0, value: 0 };

impl Reader {
    /// Nothing was read. It takes no memory.
    pub(crate) fn new(alloc: Global) -> Reader
        ensures { result ≡ start }
    {
        Reader {
            part: Part::Format,
            variables: NO_NUMBER,
            clauses: NO_NUMBER,
            sets: Vec::new(alloc),
            opened: no_set(alloc),
            body: Vec::new(alloc),
            literals: LiteralList::new(alloc),
        }
    }

    fn take_literal(&mut self, literal: LiteralText) -> Result<Advance, AllocError>
        ensures { Answers (Some (with_literal self.old literal)) result self.new }
    {
        self.literals.push(literal)?;
        self.part = Part::Body;
        Ok(Advance::Taken)
    }

    fn end_clause(&mut self, alloc: Global, at: u32) -> Result<Advance, AllocError>
        ensures { Answers (body_move Sign.Zero at self.old) result self.new }
    {
        let literals = mem::replace(&mut self.literals, LiteralList::new(alloc));
        self.body.push(ClauseText { literals, end: at })?;
        self.part = Part::Body;
        Ok(Advance::Taken)
    }

    fn take_in_body(&mut self, alloc: Global, token: Token) -> Result<Advance, AllocError>
        ensures { Answers (body_move token.sign token.at self.old) result self.new }
    {
        let at = token.at;
        match token.sign {
            Sign::Number(variable) => self.take_literal(LiteralText {
                at,
                positive: true,
                variable,
            }),
            Sign::Negative(variable) => self.take_literal(LiteralText {
                at,
                positive: false,
                variable,
            }),
            Sign::Zero => self.end_clause(alloc, at),
            _ => Ok(Advance::Refused),
        }
    }

    fn take_variable(&mut self, variable: NumberText) -> Result<Advance, AllocError>
        ensures { Answers (set_move (Sign.Number variable.value) variable.at self.old) result self.new }
    {
        self.opened.variables.push(variable)?;
        Ok(Advance::Taken)
    }

    fn end_set(&mut self, alloc: Global, at: u32) -> Result<Advance, AllocError>
        ensures { Answers (set_move Sign.Zero at self.old) result self.new }
    {
        let mut set = mem::replace(&mut self.opened, no_set(alloc));
        set.end = at;
        self.sets.push(set)?;
        self.part = Part::Sets;
        Ok(Advance::Taken)
    }

    fn take_in_set(&mut self, alloc: Global, token: Token) -> Result<Advance, AllocError>
        ensures { Answers (set_move token.sign token.at self.old) result self.new }
    {
        let at = token.at;
        match token.sign {
            Sign::Number(value) => self.take_variable(NumberText { at, value }),
            Sign::Zero => self.end_set(alloc, at),
            _ => Ok(Advance::Refused),
        }
    }

    fn open_set(&mut self, alloc: Global, kind: Kind, at: u32) -> Advance
        ensures { Answers (sets_move (Sign.Quantifier kind) at self.old) (Ok result) self.new }
    {
        self.opened = SetText {
            at,
            kind,
            variables: NumberList::new(alloc),
            end: 0,
        };
        self.part = Part::Set;
        Advance::Taken
    }

    fn take_in_sets(&mut self, alloc: Global, token: Token) -> Result<Advance, AllocError>
        ensures { Answers (sets_move token.sign token.at self.old) result self.new }
    {
        match token.sign {
            Sign::Quantifier(kind) => Ok(self.open_set(alloc, kind, token.at)),
            _ => self.take_in_body(alloc, token),
        }
    }

    fn take_variables(&mut self, count: Option<NumberText>) -> Advance
        ensures { Answers (with_variables self.old count) (Ok result) self.new }
    {
        match count {
            Some(count) => {
                self.variables = count;
                self.part = Part::Clauses;
                Advance::Taken
            }
            None => Advance::Refused,
        }
    }

    fn take_clauses(&mut self, count: Option<NumberText>) -> Advance
        ensures { Answers (with_clauses self.old count) (Ok result) self.new }
    {
        match count {
            Some(count) => {
                self.clauses = count;
                self.part = Part::Sets;
                Advance::Taken
            }
            None => Advance::Refused,
        }
    }

    fn take_word(&mut self, is_it: bool, next: Part) -> Advance
        ensures { Answers (word_move is_it next self.old) (Ok result) self.new }
    {
        if is_it {
            self.part = next;
            Advance::Taken
        } else {
            Advance::Refused
        }
    }

    /// Takes the next token, if it can stand there.
    #[tactic(auto, unfolding(crate::specs::Moves::after_token))]
    pub(crate) fn take(&mut self, alloc: Global, token: Token) -> Result<Advance, AllocError>
        ensures { Answers (after_token self.old token) result self.new }
    {
        match self.part {
            Part::Format => { Ok(self.take_word(matches!(token.sign, Sign::Format), Part::Cnf)) }
            Part::Cnf => { Ok(self.take_word(matches!(token.sign, Sign::Cnf), Part::Variables)) }
            Part::Variables => Ok(self.take_variables(count(token))),
            Part::Clauses => Ok(self.take_clauses(count(token))),
            Part::Sets => self.take_in_sets(alloc, token),
            Part::Set => self.take_in_set(alloc, token),
            Part::Body => self.take_in_body(alloc, token),
        }
    }

    /// Whether a whole text was read.
    pub(crate) fn is_whole(&self) -> bool
        ensures { result ≡ is_whole_of self.now }
    {
        match self.part {
            Part::Sets => true,
            Part::Body => self.literals.items().is_empty(),
            _ => false,
        }
    }

    /// What was read, without what hasn't ended.
    pub(crate) fn into_file(self) -> FileText
        ensures { result ≡ file_of self }
    {
        let Reader {
            part: _,
            variables,
            clauses,
            sets,
            opened: _,
            body,
            literals: _,
        } = self;
        FileText {
            variables,
            clauses,
            sets,
            body,
        }
    }
}
