//! Shorter lists, by searching again with what is known of values.
//!
//! A search goes many ways before it finds how a side wins, and what it has learnt on some of them stands in the list. One that
//! begins with the values with which it ended comes to the same end soon, and mostly by other lemmas; the shortest list is kept.
//! Every fourth one begins with nothing of that, in an order by chance, so that it doesn't go round in a circle. One that takes much
//! longer than the first is given up.
//!
//! Of the constraints that the loser has to keep a list mostly names a few. The game without the others is lost as well, by the
//! same list, so every other time the search goes over those alone: it is quicker then, and its list rests on no others.
//!
//! At the end the lemmas of the shortest list are shown anew, by those that are needed anyhow.
use crate::attempt::{Attempt, Keeps};
use crate::listing::{List, Shown};
use lemma_engine::Known;
use lemma_list::{Ending, Step};
use std::alloc::AllocError;

/// How often it begins again at most.
const TIMES: usize = 40;

/// Which part of the looks that are left it takes in all.
const PART: u64 = 500;

/// So many looks, those of the first search among them, are few, and may be taken where as many are left.
const FEW: u64 = 120_000;

/// One that begins again takes at most so many times the looks of the first, or this part of all that there are.
const AS_FIRST: u64 = 3;

const PART_EACH: u64 = 4;

/// Which part of these is kept at most to show the lemmas of the shortest list anew, and how many looks for each lemma.
const TRIMMING: u64 = 4;

const FOR_EACH: u64 = 200;

/// Puts the shortest of those lists in its place that are found by searching again, within a small part of so many looks, or
/// few, and then by showing its lemmas anew.
pub(crate) fn shorten(
    attempt: &mut Attempt,
    found: &mut List,
    budget: u64,
) -> Result<(), AllocError> {
    // what needs one lemma alone is short
    if found.shown.len() < 2 {
        return Ok(());
    }
    let mut core = attempt.take_core()?;
    let more = FEW.saturating_sub(attempt.looks());
    let extra = (budget / PART).max(more.min(budget));
    let trimming = looks_for_trimming(attempt, found, extra);
    let mut left = extra.saturating_sub(trimming);
    let most = most_of_one(attempt.looks(), extra);
    for k in 0..TIMES {
        if found.shown.len() < 2 {
            return Ok(());
        }
        let is_found = search_again(attempt, found, &mut core, k, left.min(most))?;
        left = left.saturating_sub(attempt.looks());
        if !is_found && left == 0 {
            break;
        }
    }
    let trimmed = attempt.trimmed(core, trimming.saturating_add(left))?;
    if let Some(list) = trimmed
        && size_of(&list) < size_of(found)
    {
        *found = list;
    }
    Ok(())
}

// Searches again for the k-th time, and keeps the list and its lemmas where it is shorter. Whether there is one.
fn search_again(
    attempt: &mut Attempt,
    found: &mut List,
    core: &mut Vec<Known>,
    k: usize,
    looks: u64,
) -> Result<bool, AllocError> {
    let named: Option<&List> = if k % 2 == 0 { Some(found) } else { None };
    attempt.begin_again(kept_at(k), named, looks)?;
    let Some(list) = attempt.list()? else {
        return Ok(false);
    };
    if size_of(&list) < size_of(found) && list.loser == found.loser {
        *found = list;
        *core = attempt.take_core()?;
    }
    Ok(true)
}

// How many looks one search takes at most, after the looks of the first and of so many in all.
fn most_of_one(first: u64, all: u64) -> u64 {
    first.saturating_mul(AS_FIRST).max(all / PART_EACH)
}

// How many of so many looks are kept to show a list's lemmas anew.
fn looks_for_trimming(attempt: &Attempt, list: &List, looks: u64) -> u64 {
    if !attempt.can_trim() {
        return 0;
    }
    let enough = (list.shown.len() as u64).saturating_mul(FOR_EACH);
    enough.min(looks / TRIMMING)
}

// What is kept the k-th time that the search begins again.
fn kept_at(k: usize) -> Keeps {
    match k % 4 {
        0 => Keeps::Values,
        1 => Keeps::Both,
        2 => Keeps::Activity,
        _ => Keeps::Nothing(k as u64),
    }
}

// How many letters and numbers the list's text has.
fn size_of(list: &List) -> usize {
    let mut size = 0usize;
    for shown in list.shown.as_slice() {
        size = size.saturating_add(size_of_shown(shown));
    }
    size
}

fn size_of_shown(shown: &Shown) -> usize {
    let mut size = 1usize;
    size = size.saturating_add(shown.lemma.literals().len().saturating_mul(3));
    size = size.saturating_add(shown.lemma.sums().len().saturating_mul(4));
    for step in shown.steps.as_slice() {
        size = size.saturating_add(size_of_step(step));
    }
    size = size.saturating_add(match shown.ending {
        Ending::Emptied => 0,
        Ending::Goal => 1,
        Ending::Lost(_) => 2,
    });
    size.saturating_add(shown.forgotten.len().saturating_mul(2))
}

fn size_of_step(step: &Step) -> usize {
    match step {
        Step::Cut { .. } => 5,
        Step::Choose { .. } => 3,
    }
}
