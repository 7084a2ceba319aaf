//! The filter of sums, products, quotients, remainders, absolute values, and the smaller and the greater of two integers.
//!
//! A sum of two goes by the filter of sums. Of the greater of two it is told at once what each of the three may keep.
//!
//! Each of the others is refuted by the ranges of its arguments alone, in constant time. So the filter goes by the ends of the
//! constraint's variables: an end that is refuted goes with the widest range beside it that is refuted, in one step. A
//! remainder is known where both integers are fixed, and otherwise only its range is, so a refuted value may lie in no wider
//! range that is refuted: such values go one by one.
#![tactic(auto)]

mod filtering;
mod greater;
mod plus;

pub use filtering::filter;
