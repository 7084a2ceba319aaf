//! The words of a command.
ghost use Rattle.std.specs.Prelude.{◌≡◌, ◌≤◌, map, IfSome};
ghost use Rattle.std.specs.Option.{option_map};
ghost use Rattle.tell_commands.specs.Words.{most_asked, lists_most, hopes_within, assures_within, gap_within as gap_within_of, asked_by_three, asked_by_four, asked_by_five, asked_by_six, asked_of};
ghost use Rattle.tell_commands.specs.View.{asked, IsWithin};

use qc_pessimist::Places;
use qecode_commands::{USUAL_TURNS, is_name, number_within, places_in, turns_in};

/// The most tuples that may be asked for.
const MOST_LISTED: u64 = 1_000_000;

/// How many tuples are listed where the words name no number.
const USUAL_LISTED: u64 = 1_000;

/// What the words ask for: names of files, how many tuples are listed, 1 to 1,000,000, and how many turns a search may take,
/// 1 to 10,000,000.
#[derive(Clone, Copy)]
pub(crate) enum Command<'a> {
    First {
        problem: &'a str,
        certificate: &'a str,
    },
    Allowed {
        problem: &'a str,
        position: &'a str,
        most: u64,
    },
    Hopeful {
        problem: &'a str,
        turns: u64,
    },
    Sure {
        problem: &'a str,
        places: Places,
        turns: u64,
    },
}

/// What the words ask for, where they match the table.
pub(crate) fn command_of<'a>(words: &[&'a str]) -> Option<Command<'a>>
    ensures asked { option_map asked result ≡ asked_of (map (λ w. w.now) words.now) }
    ensures within { IfSome result IsWithin }
{
    match words {
        [word, first, second] => by_three(word, first, second),
        [word, first, second, third] => by_four(word, first, second, third),
        [word, first, second, third, fourth] => by_five(word, first, second, third, fourth),
        [word, first, second, third, fourth, fifth] => {
            by_six(word, first, second, third, fourth, fifth)
        }
        _ => None,
    }
}

fn by_three<'a>(word: &str, first: &'a str, second: &'a str) -> Option<Command<'a>>
    ensures asked { option_map asked result ≡ asked_by_three word.now first.now second.now }
    ensures within { IfSome result IsWithin }
{
    if word == "first" && is_name(first) && is_name(second) {
        return Some(Command::First {
            problem: first,
            certificate: second,
        });
    }
    if word == "allowed" && is_name(first) && is_name(second) {
        return Some(Command::Allowed {
            problem: first,
            position: second,
            most: USUAL_LISTED,
        });
    }
    None
}

fn by_four<'a>(word: &str, first: &'a str, second: &str, third: &str) -> Option<Command<'a>>
    ensures asked { option_map asked result ≡ asked_by_four word.now first.now second.now third.now }
    ensures within { IfSome result IsWithin }
{
    if word == "gap" && is_name(first) {
        return gap_within(first, places_in(second), third, Some(USUAL_TURNS));
    }
    None
}

fn by_five<'a>(
    word: &str,
    first: &'a str,
    second: &'a str,
    third: &str,
    fourth: &str,
) -> Option<Command<'a>>
    ensures asked { option_map asked result ≡ asked_by_five word.now first.now second.now third.now fourth.now }
    ensures within { IfSome result IsWithin }
{
    if word == "allowed" && is_name(first) && is_name(second) && third == "--most" {
        return list_most(first, second, most_in(fourth));
    }
    None
}

fn by_six<'a>(
    word: &str,
    first: &'a str,
    second: &str,
    third: &str,
    fourth: &str,
    fifth: &str,
) -> Option<Command<'a>>
    ensures asked { option_map asked result ≡ asked_by_six word.now first.now second.now third.now fourth.now fifth.now }
    ensures within { IfSome result IsWithin }
{
    if word == "gap" && is_name(first) && fourth == "--turns" {
        return gap_within(first, places_in(second), third, turns_in(fifth));
    }
    None
}

// One of the two certificates of a gap.
fn gap_within<'a>(
    problem: &'a str,
    places: Option<Places>,
    side: &str,
    turns: Option<u64>,
) -> Option<Command<'a>>
    requires { IfSome turns (λ n. (1 ≤ n) × (n ≤ 10000000)) }
    ensures asked { option_map asked result ≡ gap_within_of problem.now places side.now turns }
    ensures within { IfSome result IsWithin }
{
    if side == "--hopeful" {
        return hope_within(problem, places, turns);
    }
    if side == "--sure" {
        return assure_within(problem, places, turns);
    }
    None
}

fn hope_within(problem: &str, places: Option<Places>, turns: Option<u64>) -> Option<Command<'_>>
    requires { IfSome turns (λ n. (1 ≤ n) × (n ≤ 10000000)) }
    ensures asked { option_map asked result ≡ hopes_within problem.now places turns }
    ensures within { IfSome result IsWithin }
{
    match places {
        Some(_places) => match turns {
            Some(turns) => Some(Command::Hopeful { problem, turns }),
            None => None,
        },
        None => None,
    }
}

fn assure_within(problem: &str, places: Option<Places>, turns: Option<u64>) -> Option<Command<'_>>
    requires { IfSome turns (λ n. (1 ≤ n) × (n ≤ 10000000)) }
    ensures asked { option_map asked result ≡ assures_within problem.now places turns }
    ensures within { IfSome result IsWithin }
{
    match places {
        Some(places) => match turns {
            Some(turns) => Some(Command::Sure {
                problem,
                places,
                turns,
            }),
            None => None,
        },
        None => None,
    }
}

fn list_most<'a>(problem: &'a str, position: &'a str, most: Option<u64>) -> Option<Command<'a>>
    ensures asked { option_map asked result ≡ lists_most problem.now position.now most }
    ensures within { IfSome result IsWithin }
{
    match most {
        Some(most) => Some(Command::Allowed {
            problem,
            position,
            most,
        }),
        None => None,
    }
}

// How many tuples a word asks for.
fn most_in(word: &str) -> Option<u64>
    ensures { result ≡ most_asked word.now }
{
    number_within(word, 1, MOST_LISTED)
}
