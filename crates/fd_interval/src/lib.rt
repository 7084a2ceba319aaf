//! Closed ranges of whole numbers, computed by their ends.
//!
//! A `Span` stands for all the numbers from `lo` to `hi`. It holds at least one number, and both ends
//! lie from -10^24 to 10^24; this is the type's invariant, so no call tests it. A solver of finite
//! domains puts a span in the place of a domain: what refutes a constraint asks whether the span of a
//! sum, a product or a quotient meets the span of the result, and a filter cuts a domain to a span. Both
//! ask it in their innermost loop, so a call has no loop, takes no memory, and works on the ends alone,
//! in 128 bits.
//!
//! - `add`, `mul`, `abs`, `least`, `greatest` and `div` give the least span that holds each result of
//!   the operation over members, so no smaller one would do. Beside this each says exactly where its
//!   result begins and ends.
//! - `div` truncates towards 0 and leaves the divisor 0 out. `rem` goes with it, and gives a span that
//!   holds each remainder, by a rule that its contract states. Both answer None exactly where 0 is the
//!   only divisor.
//! - `meets` says whether two spans share a number.
//!
//! Sums and products may pass 10^24, so `add` asks this of the sums of ends, and `mul` of the four
//! products of ends; no other call can leave the range.
#![tactic(auto)]

mod arithmetic;
mod division;
mod span;

pub use arithmetic::{abs, add, greatest, least, meets, mul, span_of};
pub use division::{div, rem};
pub use span::Span;
