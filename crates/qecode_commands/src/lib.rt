//! The commands of `qecode`: what is answered and written for the words and the files.
//!
//! `run` reads what the words name from a shelf, and writes the answer to a sink. Its contract is the headline: of the
//! answer and the status it says what they mean, by words of `specs/` alone (`Answers`, `Files`, `Complete`). How the
//! words of a command line, the files of a folder and the standard output come to it is the program's part.
#![tactic(auto)]

mod certificate;
mod certificate_file;
mod check;
mod file;
mod formula;
mod formula_file;
mod gap;
mod generate;
mod moves;
mod play;
mod print;
mod problem_file;
mod refuse;
mod solve;
mod status;
mod top;
mod words;
mod worst;
mod writing;

// What another program needs that reads such files and writes such answers.
pub use certificate_file::open_certificate;
pub use check::{
    check_problem, confirm as confirm_outcome, confirm_true, refuse as refuse_certificate,
};
pub use file::open_file;
pub use formula_file::open_formula;
pub use gap::outcome_line;
pub use moves::{NoMoves, read_moves};
pub use play::{MOVES_LIMIT, tell_open, turn_moves_down, turn_play_down};
pub use problem_file::open_problem;
pub use solve::{solve_file, solve_problem};
pub use status::Status;
pub use top::{run, run_sound};
pub use words::{USUAL_TURNS, is_name, number_within, places_in, turns_in};
pub use worst::oppose_file;
pub use writing::{finish, too_long};
