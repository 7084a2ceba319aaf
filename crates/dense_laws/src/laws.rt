// The law, the contract of a function without parameters.
ghost use Rattle.dense_laws.specs.Laws.{CertificatesAreTrue};

/// What a dense certificate that proves its outcome says of a valid game is so: where it states True, the game is won, and
/// a value that it states beside it is the optimum of the first scope's condition; where it states False, the game isn't
/// won.
pub fn certificates_are_true()
    ensures { CertificatesAreTrue }
{}
