//! How a run ends.
ghost use Rattle.std.specs.Prelude.{◌≡◌};
ghost use Rattle.qecode_commands.specs.Exits.{exit_number};

/// How the program ends.
#[derive(Clone, Copy, Debug, PartialEq, Eq)]
pub enum Status {
    /// The answer was written.
    Done,
    /// The certificate doesn't prove what it states.
    NotProved,
    /// The budget of turns was used up.
    Open,
    /// The words match no command.
    Usage,
    /// The text isn't a problem.
    BadProblem,
    /// The bytes aren't a certificate.
    BadCertificate,
    /// A file is longer than its limit.
    TooLong,
    /// A file can't be read.
    ReadFault,
    /// The output can't be written; a prefix of it was.
    WriteFault,
    /// There was too little memory; nothing was written.
    Memory,
    /// The text isn't moves, or they can't be made in the game.
    BadMoves,
    /// The text isn't a formula.
    BadQdimacs,
    /// No reading at the worst ties is given for the scopes named.
    NoReading,
}

impl Status {
    /// The exit status of a program that ends so.
    pub fn number(self) -> u8
        ensures { result ≡ exit_number self }
    {
        match self {
            Status::Done => 0,
            Status::NotProved => 1,
            Status::Open => 2,
            Status::Usage => 3,
            Status::BadProblem => 4,
            Status::BadCertificate => 5,
            Status::TooLong => 6,
            Status::ReadFault => 7,
            Status::WriteFault => 8,
            Status::Memory => 9,
            Status::BadMoves => 10,
            Status::BadQdimacs => 11,
            Status::NoReading => 12,
        }
    }
}
