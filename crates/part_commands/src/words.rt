//! The words of a command.
ghost use Rattle.std.specs.Prelude.{◌≡◌, ◌≤◌, ◌&&◌, nat_le, map, length, unsigned_abs, IfOk, IfSome, OnErr, Some, None, if◌then◌else◌};
ghost use Rattle.std.specs.Fmt.{signed_decimal};
ghost use Rattle.std.specs.Option.{option_map};
ghost use Rattle.std.specs.Str.{bytes_eq};
ghost use Rattle.part_commands.specs.View.{asked, kept_seen, tail_seen, IsRange, IsTail, IsWithin, Fronts, BeginsWith};
ghost use Rattle.part_commands.specs.Words.{value_asked, kept_asked, rest_asked, tail_asked, tail_by_two as tail_by_two_of, tail_by_four as tail_by_four_of, reached_within as reached_within_of, within as within_of, asked_of};

use itoa::Buffer;
use qecode_commands::{USUAL_TURNS, is_name, turns_in};
use std::alloc::{AllocError, Global};

/// The greatest number, by its size, of an end of what a variable keeps.
const MOST_KEPT: u64 = 1_000_000_000;

/// And of a value that was reached.
const MOST_REACHED: u64 = 1_000_000_000_000_000_000;

/// The variable of this name keeps its values from `lo` to `hi` only; both are from -1,000,000,000 to 1,000,000,000.
#[derive(Clone, Copy)]
pub(crate) struct Kept<'a> {
    pub(crate) name: &'a str,
    pub(crate) lo: i64,
    pub(crate) hi: i64,
}

/// What the words ask for: a piece of the problem of a file, beside a value that was reached elsewhere, which is at most
/// 10^18 by its size, within 1 to 10,000,000 turns.
#[derive(Drop)]
pub(crate) struct Command<'a> {
    pub(crate) problem: &'a str,
    pub(crate) keeps: Vec<Kept<'a>>,
    pub(crate) reached: Option<i64>,
    pub(crate) turns: u64,
}

/// What the words ask for, where they match the table.
pub(crate) fn command_of<'a>(
    alloc: Global,
    words: &[&'a str],
) -> Result<Option<Command<'a>>, AllocError>
    ensures asked { IfOk result (λ command. option_map asked command ≡ asked_of (map (λ w. w.now) words.now)) }
    ensures within { IfOk result (λ command. IfSome command IsWithin) }
    ensures memory { OnErr result (6 ≤ length words.now) }
{
    match words {
        [word, problem, ..] => {
            if *word == "solve" && is_name(problem) {
                return command_on(alloc, problem, &words[2..]);
            }
            Ok(None)
        }
        _ => Ok(None),
    }
}

// What the words behind the name of a problem ask for.
fn command_on<'a>(
    alloc: Global,
    problem: &'a str,
    words: &[&'a str],
) -> Result<Option<Command<'a>>, AllocError>
    ensures asked { IfOk result (λ command. option_map asked command ≡ rest_asked problem.now (map (λ w. w.now) words.now)) }
    ensures within { IfOk result (λ command. IfSome command IsWithin) }
    ensures memory { OnErr result (4 ≤ length words.now) }
{
    let Some(front) = keeps_in(alloc, words)? else {
        return Ok(None);
    };
    match tail_in(&words[front.words..]) {
        Some(tail) => Ok(Some(Command {
            problem,
            keeps: front.keeps,
            reached: tail.reached,
            turns: tail.turns,
        })),
        None => Ok(None),
    }
}

/// The keeps that words begin with, and how many words they are.
#[derive(Drop)]
pub(crate) struct Front<'a> {
    pub(crate) keeps: Vec<Kept<'a>>,
    pub(crate) words: usize,
}

// The keeps that the words begin with. None comes where one of them isn't right.
fn keeps_in<'a>(alloc: Global, words: &[&'a str]) -> Result<Option<Front<'a>>, AllocError>
    ensures front { IfOk result (λ front. Fronts (map (λ w. w.now) words.now) front) }
    ensures memory { OnErr result (4 ≤ length words.now) }
{
    let mut keeps = Vec::new(alloc);
    let mut at: usize = 0;
    'keeps: loop {
        match first_keep(&words[at..]) {
            Begin::Keep(kept) => {
                keeps.push(kept)?;
                at += 4;
            }
            Begin::Wrong => return Ok(None),
            Begin::Other => return Ok(Some(Front { keeps, words: at })),
        }
    }
}

/// What words begin with.
#[derive(Clone, Copy)]
pub(crate) enum Begin<'a> {
    Keep(Kept<'a>),
    /// A keep that isn't right.
    Wrong,
    /// No keep.
    Other,
}

fn first_keep<'a>(words: &[&'a str]) -> Begin<'a>
    ensures { BeginsWith (map (λ w. w.now) words.now) result }
{
    match words {
        [mark, name, lo, hi, ..] => {
            if *mark != "--keep" {
                return Begin::Other;
            }
            match kept_in(name, lo, hi) {
                Some(kept) => Begin::Keep(kept),
                None => Begin::Wrong,
            }
        }
        _ => Begin::Other,
    }
}

fn kept_in<'a>(name: &'a str, lo: &str, hi: &str) -> Option<Kept<'a>>
    ensures kept { option_map kept_seen result ≡ kept_asked name.now lo.now hi.now }
    ensures ranges { IfSome result IsRange }
{
    match value_in(lo, MOST_KEPT) {
        Some(lo) => match value_in(hi, MOST_KEPT) {
            Some(hi) => Some(Kept { name, lo, hi }),
            None => None,
        },
        None => None,
    }
}

/// What stands behind the keeps.
#[derive(Clone, Copy)]
pub(crate) struct Tail {
    pub(crate) reached: Option<i64>,
    pub(crate) turns: u64,
}

fn tail_in(words: &[&str]) -> Option<Tail>
    ensures tail { option_map tail_seen result ≡ tail_asked (map (λ w. w.now) words.now) }
    ensures within { IfSome result IsTail }
{
    match words {
        [] => Some(Tail {
            reached: None,
            turns: USUAL_TURNS,
        }),
        [mark, word] => tail_by_two(mark, word),
        [first, value, second, number] => tail_by_four(first, value, second, number),
        _ => None,
    }
}

fn tail_by_two(mark: &str, word: &str) -> Option<Tail>
    ensures tail { option_map tail_seen result ≡ tail_by_two_of mark.now word.now }
    ensures within { IfSome result IsTail }
{
    if mark == "--reached" {
        return reached_within(value_in(word, MOST_REACHED), Some(USUAL_TURNS));
    }
    if mark == "--turns" {
        return within(None, turns_in(word));
    }
    None
}

fn tail_by_four(first: &str, value: &str, second: &str, number: &str) -> Option<Tail>
    ensures tail { option_map tail_seen result ≡ tail_by_four_of first.now value.now second.now number.now }
    ensures within { IfSome result IsTail }
{
    if first == "--reached" && second == "--turns" {
        return reached_within(value_in(value, MOST_REACHED), turns_in(number));
    }
    None
}

fn reached_within(reached: Option<i64>, turns: Option<u64>) -> Option<Tail>
    requires reached { IfSome reached (λ value. unsigned_abs value ≤ 1000000000000000000) }
    requires turns { IfSome turns (λ n. (1 ≤ n) × (n ≤ 10000000)) }
    ensures tail { option_map tail_seen result ≡ reached_within_of reached turns }
    ensures within { IfSome result IsTail }
{
    match reached {
        Some(value) => within(Some(value), turns),
        None => None,
    }
}

fn within(reached: Option<i64>, turns: Option<u64>) -> Option<Tail>
    requires reached { IfSome reached (λ value. unsigned_abs value ≤ 1000000000000000000) }
    requires turns { IfSome turns (λ n. (1 ≤ n) × (n ≤ 10000000)) }
    ensures tail { option_map tail_seen result ≡ within_of reached turns }
    ensures within { IfSome result IsTail }
{
    match turns {
        Some(turns) => Some(Tail { reached, turns }),
        None => None,
    }
}

// The number of which the word is the text, at most so large by its size.
fn value_in(word: &str, most: u64) -> Option<i64>
    requires { most ≤ 1000000000000000000 }
    ensures value { result ≡ value_asked most word.now }
    ensures size { IfSome result (λ value. unsigned_abs value ≤ most) }
{
    match word.parse::<i64>() {
        Ok(value) => value_of(value, word, most),
        Err(_) => None,
    }
}

// The number, where the word is its text, and it's at most so large by its size.
fn value_of(value: i64, word: &str, most: u64) -> Option<i64>
    ensures value { result ≡ (if bytes_eq (signed_decimal value) word.now && nat_le (unsigned_abs value) most then Some value else None) }
    ensures size { IfSome result (λ n. unsigned_abs n ≤ most) }
{
    let mut buffer = Buffer::new();
    if buffer.format(value) == word && value.unsigned_abs() <= most {
        return Some(value);
    }
    None
}
