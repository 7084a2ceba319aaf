//! The problem that the items of a text make, or what is wrong with them.
#![tactic(auto)]

mod arguments;
mod bottlenecks;
mod bytes;
mod counts;
mod domains;
mod draft;
mod empty;
mod excess;
mod far;
mod fault;
mod hidden;
mod lengths;
mod misfit;
mod names;
mod passes;
mod predicates;
mod refusal;
mod strange;
mod unknown;
mod walk;
mod wide;

pub use names::{Meant, Named};
pub use passes::resolve;
pub use refusal::{ItemFault, RefusalKind};
