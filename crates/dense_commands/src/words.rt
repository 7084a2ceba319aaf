//! The words of a command.
ghost use Rattle.std.specs.Prelude.{◌≡◌, ◌≤◌, map, IfSome};
ghost use Rattle.std.specs.Option.{option_map};
ghost use Rattle.dense_commands.specs.Words.{solves_within, decides_within, asked_by_two, asked_by_three, asked_by_four, asked_of};
ghost use Rattle.dense_commands.specs.View.{asked, IsWithin};

use qecode_commands::{USUAL_TURNS, is_name, turns_in};

/// What the words ask for: names of files, and how many turns a search may take, 1 to 10,000,000.
#[derive(Clone, Copy)]
pub(crate) enum Command<'a> {
    Solve {
        problem: &'a str,
        turns: u64,
    },
    Decide {
        formula: &'a str,
        turns: u64,
    },
    Check {
        problem: &'a str,
        certificate: &'a str,
    },
}

/// What the words ask for, where they match the table.
pub(crate) fn command_of<'a>(words: &[&'a str]) -> Option<Command<'a>>
    ensures asked { option_map asked result ≡ asked_of (map (λ w. w.now) words.now) }
    ensures within { IfSome result IsWithin }
{
    match words {
        [word, name] => by_two(word, name),
        [word, problem, certificate] => by_three(word, problem, certificate),
        [word, name, mark, number] => by_four(word, name, mark, number),
        _ => None,
    }
}

fn by_two<'a>(word: &str, name: &'a str) -> Option<Command<'a>>
    ensures asked { option_map asked result ≡ asked_by_two word.now name.now }
    ensures within { IfSome result IsWithin }
{
    if word == "solve" && is_name(name) {
        return Some(Command::Solve {
            problem: name,
            turns: USUAL_TURNS,
        });
    }
    if word == "qbf" && is_name(name) {
        return Some(Command::Decide {
            formula: name,
            turns: USUAL_TURNS,
        });
    }
    None
}

fn by_three<'a>(word: &str, problem: &'a str, certificate: &'a str) -> Option<Command<'a>>
    ensures asked { option_map asked result ≡ asked_by_three word.now problem.now certificate.now }
    ensures within { IfSome result IsWithin }
{
    if word == "check" && is_name(problem) && is_name(certificate) {
        return Some(Command::Check {
            problem,
            certificate,
        });
    }
    None
}

fn by_four<'a>(word: &str, name: &'a str, mark: &str, number: &str) -> Option<Command<'a>>
    ensures asked { option_map asked result ≡ asked_by_four word.now name.now mark.now number.now }
    ensures within { IfSome result IsWithin }
{
    if word == "solve" && is_name(name) && mark == "--turns" {
        return solve_within(name, turns_in(number));
    }
    if word == "qbf" && is_name(name) && mark == "--turns" {
        return decide_within(name, turns_in(number));
    }
    None
}

fn solve_within(problem: &str, turns: Option<u64>) -> Option<Command<'_>>
    requires { IfSome turns (λ n. (1 ≤ n) × (n ≤ 10000000)) }
    ensures asked { option_map asked result ≡ solves_within problem.now turns }
    ensures within { IfSome result IsWithin }
{
    match turns {
        Some(turns) => Some(Command::Solve { problem, turns }),
        None => None,
    }
}

fn decide_within(formula: &str, turns: Option<u64>) -> Option<Command<'_>>
    requires { IfSome turns (λ n. (1 ≤ n) × (n ≤ 10000000)) }
    ensures asked { option_map asked result ≡ decides_within formula.now turns }
    ensures within { IfSome result IsWithin }
{
    match turns {
        Some(turns) => Some(Command::Decide { formula, turns }),
        None => None,
    }
}
