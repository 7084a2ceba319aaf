// The laws of ledgers, the contracts of functions without parameters.
ghost use Rattle.dense_ledger.specs.Held.{LedgersAreRight};
ghost use Rattle.dense_ledger.specs.Whole.{EndedLinesAreWhole};

/// After the lines of a certificate that has a text there is a ledger exactly where they are in place, given tuples and all, and it
/// tells what the root comes to, its turns, and whether a case is open.
pub fn ledgers_are_right()
    ensures { LedgersAreRight }
{}

/// Where the root has ended after some lines, whose numbers are such as a text can have, these are the lines of a certificate that
/// has a text.
pub fn ended_lines_are_whole()
    ensures { EndedLinesAreWhole }
{}
