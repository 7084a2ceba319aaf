//! The limits of a problem.

/// The greatest absolute value of a number.
pub const NUMBER: u64 = 1_000_000_000;

/// The greatest width of a domain: its greatest value minus its least, plus one.
pub const WIDTH: u64 = 1_048_576;

/// The greatest sum of the widths of all domains.
pub const TOTAL_WIDTH: u64 = 4_194_304;

/// The most scopes.
pub const SCOPES: usize = 64;

/// The most variables.
pub const VARIABLES: usize = 500;

/// The most aggregates.
pub const AGGREGATES: usize = 255;

/// The most constraints, the goal's included.
pub const CONSTRAINTS: usize = 20_000;

/// The most items of an array that may hold variables.
pub const ITEMS: usize = 1_000;

/// The most items of an array of numbers or truth values, or of a listed set or domain.
pub const NUMBERS: usize = 100_000;
