// Laws of the table of predicates, over the definitions of games alone.
//
// For each predicate the table says on which values a constraint holds, and which boxes it refutes.
// A box leaves some values to each variable. A removal step of a certificate takes values of a
// variable away where some constraint refutes the box with just these values kept. The laws say why
// that is right:
//
// 1. Where a constraint refutes a box, no declared values in the box satisfy it. So each play that
//    passes through a removed value breaks a constraint: no removal step that the checker accepts,
//    from whatever solver, takes away a value that an allowed play needs.
// 2. Where it refutes a box, it refutes each smaller box without an empty domain. So a removal that
//    is legal stays so after others, and solvers may try them in any order.
// 3. On a box of single values it refutes exactly where it doesn't hold. So no wrong play is kept
//    once all values are chosen, however weak the tests are before.
//
// They hold of the constraints of valid games and of declared values: a test of a truth value knows
// only 0 and 1. Besides, the ranges that the table computes from ends hold every result of members,
// and no smaller ones would; and a crowd of items that are to differ is found at the items' ends.
// Each law is the contract of a function without parameters.
#![tactic(auto)]

mod laws;

pub use laws::{crowds, ranges, refuted, valid_is_ordered};
