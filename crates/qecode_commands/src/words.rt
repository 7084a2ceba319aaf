//! The words of a command.
ghost use Rattle.std.specs.Prelude.{◌≡◌, ◌≤◌, ◌<◌, length, map, Some, IfSome};
ghost use Rattle.std.specs.Option.{option_map};
ghost use Rattle.qecode_commands.specs.Words.{is_name as is_name_of, digits_after, is_short_numeral as is_short_numeral_of, solves_within, decides_within, makes_from, shows_from, number_asked, turns_asked, made_from as made_from_word, scope_place, places_asked as places_asked_by, opposes_within, restates_at, compares_at, asked_by_two, asked_by_three, asked_by_four, asked_by_five, asked_of};
ghost use Rattle.qecode_commands.specs.View.{asked, IsWithin};

use qc_model::ScopeId;
use qc_pessimist::Places;

/// The most turns that a search may be given.
const MOST_TURNS: u64 = 10_000_000;

/// The turns that a search is given where the words name none.
pub const USUAL_TURNS: u64 = 1_000_000;

/// The greatest number that a problem is made from.
const MOST_MADE: u64 = 1_000_000;

/// The most scopes of a problem.
const MOST_SCOPES: u64 = 64;

/// What the words ask for: names of files, how many turns a search may take, 1 to 10,000,000, and the number that a
/// problem is made from, 0 to 1,000,000.
#[derive(Clone, Copy)]
pub(crate) enum Command<'a> {
    Solve {
        problem: &'a str,
        turns: u64,
    },
    Check {
        problem: &'a str,
        certificate: &'a str,
    },
    Play {
        problem: &'a str,
        certificate: &'a str,
        moves: &'a str,
    },
    Print {
        problem: &'a str,
    },
    Decide {
        formula: &'a str,
        turns: u64,
    },
    Rewrite {
        formula: &'a str,
    },
    Make {
        number: u32,
    },
    Show {
        number: u32,
    },
    Oppose {
        problem: &'a str,
        places: Places,
        turns: u64,
    },
    Restate {
        problem: &'a str,
        places: Places,
    },
    Compare {
        problem: &'a str,
        places: Places,
    },
}

/// What the words ask for, where they match the table.
pub(crate) fn command_of<'a>(words: &[&'a str]) -> Option<Command<'a>>
    ensures asked { option_map asked result ≡ asked_of (map (λ w. w.now) words.now) }
    ensures within { IfSome result IsWithin }
{
    match words {
        [word, first] => by_two(word, first),
        [word, first, second] => by_three(word, first, second),
        [word, first, second, third] => by_four(word, first, second, third),
        [word, first, second, third, fourth] => by_five(word, first, second, third, fourth),
        _ => None,
    }
}

fn by_two<'a>(word: &str, problem: &'a str) -> Option<Command<'a>>
    ensures asked { option_map asked result ≡ asked_by_two word.now problem.now }
    ensures within { IfSome result IsWithin }
{
    if word == "solve" && is_name(problem) {
        return Some(Command::Solve {
            problem,
            turns: USUAL_TURNS,
        });
    }
    if word == "print" && is_name(problem) {
        return Some(Command::Print { problem });
    }
    if word == "qbf" && is_name(problem) {
        return Some(Command::Decide {
            formula: problem,
            turns: USUAL_TURNS,
        });
    }
    if word == "generate" {
        return make_from(made_from(problem));
    }
    None
}

fn by_three<'a>(word: &str, first: &'a str, second: &'a str) -> Option<Command<'a>>
    ensures asked { option_map asked result ≡ asked_by_three word.now first.now second.now }
    ensures within { IfSome result IsWithin }
{
    if word == "check" && is_name(first) && is_name(second) {
        return Some(Command::Check {
            problem: first,
            certificate: second,
        });
    }
    if word == "qbf" && is_name(first) && second == "--text" {
        return Some(Command::Rewrite { formula: first });
    }
    if word == "generate" && second == "--text" {
        return show_from(made_from(first));
    }
    if word == "worst" && is_name(first) {
        return oppose_within(first, places_in(second), Some(USUAL_TURNS));
    }
    None
}

fn by_four<'a>(word: &str, first: &'a str, second: &'a str, third: &'a str) -> Option<Command<'a>>
    ensures asked { option_map asked result ≡ asked_by_four word.now first.now second.now third.now }
    ensures within { IfSome result IsWithin }
{
    if word == "play" && is_name(first) && is_name(second) && is_name(third) {
        return Some(Command::Play {
            problem: first,
            certificate: second,
            moves: third,
        });
    }
    if word == "solve" && is_name(first) && second == "--turns" {
        return solve_within(first, turns_in(third));
    }
    if word == "qbf" && is_name(first) && second == "--turns" {
        return decide_within(first, turns_in(third));
    }
    if word == "worst" && is_name(first) && third == "--text" {
        return restate_at(first, places_in(second));
    }
    if word == "worst" && is_name(first) && third == "--gap" {
        return compare_at(first, places_in(second));
    }
    None
}

fn by_five<'a>(
    word: &str,
    first: &'a str,
    second: &str,
    third: &str,
    fourth: &str,
) -> Option<Command<'a>>
    ensures asked { option_map asked result ≡ asked_by_five word.now first.now second.now third.now fourth.now }
    ensures within { IfSome result IsWithin }
{
    if word == "worst" && is_name(first) && third == "--turns" {
        return oppose_within(first, places_in(second), turns_in(fourth));
    }
    None
}

fn solve_within(problem: &str, turns: Option<u64>) -> Option<Command<'_>>
    requires { IfSome turns (λ n. (1 ≤ n) × (n ≤ 10000000)) }
    ensures asked { option_map asked result ≡ solves_within problem.now turns }
    ensures within { IfSome result IsWithin }
{
    match turns {
        Some(turns) => Some(Command::Solve { problem, turns }),
        None => None,
    }
}

fn decide_within(formula: &str, turns: Option<u64>) -> Option<Command<'_>>
    requires { IfSome turns (λ n. (1 ≤ n) × (n ≤ 10000000)) }
    ensures asked { option_map asked result ≡ decides_within formula.now turns }
    ensures within { IfSome result IsWithin }
{
    match turns {
        Some(turns) => Some(Command::Decide { formula, turns }),
        None => None,
    }
}

fn make_from<'a>(number: Option<u32>) -> Option<Command<'a>>
    requires { IfSome number (λ n. n ≤ 1000000) }
    ensures asked { option_map asked result ≡ makes_from number }
    ensures within { IfSome result IsWithin }
{
    match number {
        Some(number) => Some(Command::Make { number }),
        None => None,
    }
}

fn show_from<'a>(number: Option<u32>) -> Option<Command<'a>>
    requires { IfSome number (λ n. n ≤ 1000000) }
    ensures asked { option_map asked result ≡ shows_from number }
    ensures within { IfSome result IsWithin }
{
    match number {
        Some(number) => Some(Command::Show { number }),
        None => None,
    }
}

fn oppose_within(problem: &str, places: Option<Places>, turns: Option<u64>) -> Option<Command<'_>>
    requires { IfSome turns (λ n. (1 ≤ n) × (n ≤ 10000000)) }
    ensures asked { option_map asked result ≡ opposes_within problem.now places turns }
    ensures within { IfSome result IsWithin }
{
    match places {
        Some(places) => match turns {
            Some(turns) => Some(Command::Oppose {
                problem,
                places,
                turns,
            }),
            None => None,
        },
        None => None,
    }
}

fn restate_at(problem: &str, places: Option<Places>) -> Option<Command<'_>>
    ensures asked { option_map asked result ≡ restates_at problem.now places }
    ensures within { IfSome result IsWithin }
{
    match places {
        Some(places) => Some(Command::Restate { problem, places }),
        None => None,
    }
}

fn compare_at(problem: &str, places: Option<Places>) -> Option<Command<'_>>
    ensures asked { option_map asked result ≡ compares_at problem.now places }
    ensures within { IfSome result IsWithin }
{
    match places {
        Some(places) => Some(Command::Compare { problem, places }),
        None => None,
    }
}

/// Whether a word names a file: it isn't empty and doesn't begin with a dash.
pub fn is_name(word: &str) -> bool
    ensures { result ≡ is_name_of word.now }
{
    match word.as_bytes() {
        [] => false,
        [first, ..] => *first != b'-',
    }
}

/// The turns that a word asks for.
pub fn turns_in(word: &str) -> Option<u64>
    ensures asked { result ≡ turns_asked word.now }
    ensures budget { IfSome result (λ n. (1 ≤ n) × (n ≤ 10000000)) }
{
    number_within(word, 1, MOST_TURNS)
}

// The number that a problem is to be made from.
fn made_from(word: &str) -> Option<u32>
    ensures asked { result ≡ made_from_word word.now }
    ensures bound { IfSome result (λ n. n ≤ 1000000) }
{
    if word == "0" {
        return Some(0);
    }
    match number_within(word, 1, MOST_MADE) {
        Some(number) => Some(number as u32),
        None => None,
    }
}

/// The owners that a word asks for, who are to meet the worst ties.
pub fn places_in(word: &str) -> Option<Places>
    ensures { result ≡ places_asked_by word.now }
{
    if word == "all" {
        return Some(Places::All);
    }
    scope_in(number_within(word, 1, MOST_SCOPES))
}

// The scope of a number that counts from 1.
fn scope_in(number: Option<u64>) -> Option<Places>
    requires { IfSome number (λ k. (1 ≤ k) × (k ≤ 64)) }
    ensures { result ≡ scope_place number }
{
    match number {
        Some(number) => Some(Places::One(ScopeId((number - 1) as u8))),
        None => None,
    }
}

/// The number from low to high that a word writes: in digits, without a sign and without leading zeros.
pub fn number_within(word: &str, low: u64, high: u64) -> Option<u64>
    ensures asked { result ≡ number_asked low high word.now }
    ensures bound { IfSome result (λ n. (low ≤ n) × (n ≤ high)) }
{
    let digits = word.as_bytes();
    if !is_short_numeral(digits) {
        return None;
    }
    match number_in(digits) {
        Some(number) if low <= number && number <= high => Some(number),
        _ => None,
    }
}

fn is_short_numeral(digits: &[u8]) -> bool
    ensures { result ≡ is_short_numeral_of digits.now }
{
    match digits {
        [] => false,
        [first, ..] => b'1' <= *first && digits.len() <= 8,
    }
}

// The number that eight digits at most write.
fn number_in(digits: &[u8]) -> Option<u64>
    requires { length digits.now ≤ 8 }
    ensures { result ≡ digits_after 0 digits.now }
{
    let mut number: u64 = 0;
    for digit in digits {
        if !digit.is_ascii_digit() {
            return None;
        }
        number = number * 10 + u64::from(*digit - b'0');
    }
    Some(number)
}
