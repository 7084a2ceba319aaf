// A law of gathering, the contract of a function without parameters.
ghost use Rattle.dense_judge.specs.Gathered.{PiecesGatherToLines};

/// The pieces of a certificate are gathered to its lines, and nothing more has begun then.
pub fn pieces_gather_to_lines()
    ensures { PiecesGatherToLines }
{}
