//! Plays of a game against what a certificate shows.
//!
//! A certificate that proves its outcome shows a strategy, or a counterstrategy: a tree of choices. `make_plan` and
//! `make_counter` read it from the certificate's tree, and give nothing where the certificate doesn't prove its
//! outcome. They fail only where memory is refused, and ask for none where no tree can show what is stated. `play` plays
//! the game with such a tree on one side and given moves on the other, and writes what happened, scope by scope. With an
//! optimal strategy a play ends with a goal that holds, or with an opponent who has no allowed tuple. With a
//! counterstrategy that wins it ends with a goal that doesn't hold, or with a player from whose tuples nobody can go on.
//! `read_lines` reads a certificate's text into the lines of its tree, and `make_evidence` tells what they show, whatever
//! the certificate states; no tree is made.
//!
//! A `Walk` goes over the lines of a tree, which the checker said yes to before, so that it stands in place: each call takes
//! the lines of its part off a cursor. `make_plan` and `make_counter` put the lines of their tree in a row for it. What the leaves
//! of a scope come to is added up in 64 bits: a certificate has at most 2^30 ends, and each brings a value of a
//! variable at most. A scope's own tree is read leaf by leaf: a `Gathering` takes the leaves that go on, and gives
//! the trees of choices of the scope from those of its leaves. It keeps of a scope of the player the best leaf, and
//! a reply to each that is lost; of one of the opponent the first lost leaf, and an answer to each that is exact,
//! which it sorts at the end.
//!
//! `specs/` says which tree a value is (`Shape`), how a play goes (`Play`), its text (`PlayText`), what it ends with
//! (`Ends`), what is made of a certificate (`Made`), what one shows (`Evidence`), whether any tree may show it (`Heads`),
//! what a node shows (`Shown`), what is gathered of leaves (`Gathers`), what a walk may read and tells (`Walk`), which parts lines
//! begin with (`Beginnings`), which lines a certificate has (`Roots`), and what was read of a text (`Listing`).
#![tactic(auto)]

mod alone;
mod best;
mod board;
mod counter;
mod covers;
mod evidence;
mod fault;
mod gathering;
mod heads;
mod judged;
mod line_cursor;
mod lines;
mod listed;
mod make;
mod numbers;
mod opponent_leaves;
mod plan;
mod player_leaves;
mod read;
mod root;
mod scope;
mod shown;
mod side;
mod steps;
mod tables;
mod taking;
mod tuple;
mod unrolled;
mod walk;

pub use board::play;
pub use counter::{Counter, CounterEntry, CounterList};
pub use evidence::{Evidence, make_evidence};
pub use fault::PlayFault;
pub use listed::CertificateLines;
pub use make::{make_counter, make_plan};
pub use plan::{Plan, PlanEntry, PlanList};
pub use read::read_lines;
pub use side::Side;
