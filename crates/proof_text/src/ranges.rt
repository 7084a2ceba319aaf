// How far the numbers of a text go, and its tree.
use qc_model::limits;

// Scopes, variables and constraints are counted from 1. The scope after the last one is the goal's.
pub(crate) const SCOPES: u64 = limits::SCOPES as u64 + 1;

pub(crate) const VARIABLES: u64 = limits::VARIABLES as u64;

pub(crate) const CONSTRAINTS: u64 = limits::CONSTRAINTS as u64;

// The most turns of a search that was left open.
pub(crate) const TURNS: u64 = 10_000_000;

// The greatest absolute value of an optimum.
pub(crate) const OPTIMUM: u64 = 1 << 62;

// How many branches and next nodes may stand above one another.
pub(crate) const DEEPEST: u16 = 1000;
