//! Lists of lemmas as values, and which of the lemmas known a list needs.
use crate::replay::replayed;
use lemma_engine::{Finish, Known, Taken};
use lemma_ground::{Boxes, Why};
use lemma_list::{Ending, Lemma, LemmaId, Step};
use qc_model::{Kind, Problem};
use std::alloc::{AllocError, Global};

/// A lemma with the steps that show it and how they end, and the lemmas that aren't named any more after it.
#[derive(Drop)]
pub struct Shown {
    pub lemma: Lemma,
    pub steps: Vec<Step>,
    pub ending: Ending,
    pub forgotten: Vec<LemmaId>,
}

/// A list of lemmas, of which the last says that the loser loses the game.
#[derive(Drop)]
pub struct List {
    pub loser: Kind,
    pub shown: Vec<Shown>,
}

/// Of a lemma known: the last lemma that names it, among those that the list needs, and its number in the list.
#[derive(Clone, Copy)]
pub(crate) struct Use {
    pub(crate) last: Option<usize>,
    pub(crate) number: Option<LemmaId>,
}

/// A list of so many lemmas at most forgets none: what they take is little, and each line that forgets one makes it longer.
const FEW_LEMMAS: usize = 1000;

/// The list of what the last lemma known rests on. None where it has more lemmas than can be named.
pub(crate) fn listed(
    alloc: Global,
    problem: &Problem,
    known: &[Known],
) -> Result<Option<List>, AllocError> {
    let Some(last) = known.last() else {
        return Ok(None);
    };
    let mut uses = uses_of(alloc, known)?;
    // (a `?` on what owns so much costs its proof minutes)
    let Ok(mut bench) = Boxes::new(alloc, problem) else {
        return Err(AllocError);
    };
    shown_on(alloc, &mut bench, last.loser, known, &mut uses)
}

// The list of those lemmas that are used, by steps taken again.
fn shown_on(
    alloc: Global,
    bench: &mut Boxes,
    loser: Kind,
    known: &[Known],
    uses: &mut [Use],
) -> Result<Option<List>, AllocError> {
    let forgets = count_used(uses) > FEW_LEMMAS;
    let mut shown: Vec<Shown> = Vec::new(alloc);
    for (k, lemma) in known.iter().enumerate() {
        let is_last = k.saturating_add(1) == known.len();
        if !is_last && !is_used(uses, k) {
            continue;
        }
        let Ok(number) = u32::try_from(shown.len()) else {
            return Ok(None);
        };
        if let Some(it) = uses.get_mut(k) {
            it.number = Some(LemmaId(number));
        }
        let mut entry = replayed(alloc, bench, lemma, uses)?;
        if forgets && !is_last {
            forget(alloc, &mut entry, uses, lemma, k)?;
        }
        shown.push(entry)?;
    }
    Ok(Some(List { loser, shown }))
}

fn is_used(uses: &[Use], k: usize) -> bool {
    match uses.get(k) {
        Some(it) => it.last.is_some(),
        None => false,
    }
}

fn count_used(uses: &[Use]) -> usize {
    uses.iter().filter(|it| it.last.is_some()).count()
}

/// Appends the lemmas that a lemma's steps and end name.
pub(crate) fn add_named(lemma: &Known, named: &mut Vec<usize>) -> Result<(), AllocError> {
    for step in lemma.taken.as_slice() {
        if let Taken::Cut {
            why: Why::Lemma(n),
            ..
        } = step
        {
            named.push(*n)?;
        }
    }
    if let Finish::Lemma(n) = lemma.finish {
        named.push(n)?;
    }
    Ok(())
}

// What the last lemma needs, from the last one to the first.
fn uses_of(alloc: Global, known: &[Known]) -> Result<Vec<Use>, AllocError> {
    let mut uses = vec![in alloc; Use {
        last: None,
        number: None
    }; known.len()]?;
    let mut named = Vec::new(alloc);
    for (k, lemma) in known.iter().enumerate().rev() {
        let is_last = k.saturating_add(1) == known.len();
        if !is_last && !is_used(&uses, k) {
            continue;
        }
        named.clear();
        add_named(lemma, &mut named)?;
        for n in named.as_slice() {
            if let Some(it) = uses.get_mut(*n)
                && it.last.is_none()
            {
                it.last = Some(k);
            }
        }
    }
    Ok(uses)
}

/// Of these lemmas those that the last one needs, by themselves.
pub(crate) fn core_of(alloc: Global, known: Vec<Known>) -> Result<Vec<Known>, AllocError> {
    let uses = uses_of(alloc, &known)?;
    let mut numbers = Vec::new(alloc);
    let mut count = 0usize;
    for it in uses.iter() {
        numbers.push(count)?;
        if it.last.is_some() {
            count = count.saturating_add(1);
        }
    }
    let mut rest = known;
    let mut core = Vec::new(alloc);
    for k in (0..uses.len()).rev() {
        let Some(mut lemma) = rest.pop() else {
            break;
        };
        if core.is_empty() || is_used(&uses, k) {
            renumber(&mut lemma, &numbers);
            core.push(lemma)?;
        }
    }
    core.reverse();
    Ok(core)
}

// The lemmas that a lemma names have these numbers now.
fn renumber(lemma: &mut Known, numbers: &[usize]) {
    for step in lemma.taken.iter_mut() {
        if let Taken::Cut {
            why: Why::Lemma(n),
            ..
        } = step
        {
            *n = numbers.get(*n).copied().unwrap_or(usize::MAX);
        }
    }
    if let Finish::Lemma(n) = lemma.finish {
        lemma.finish = Finish::Lemma(numbers.get(n).copied().unwrap_or(usize::MAX));
    }
}

// The lemmas that this one is the last to name aren't named any more.
fn forget(
    alloc: Global,
    entry: &mut Shown,
    uses: &[Use],
    lemma: &Known,
    k: usize,
) -> Result<(), AllocError> {
    let mut named = Vec::new(alloc);
    add_named(lemma, &mut named)?;
    for n in named.as_slice() {
        if let Some(it) = uses.get(*n)
            && it.last == Some(k)
            && let Some(number) = it.number
            && !entry.forgotten.iter().any(|other| other.0 == number.0)
        {
            entry.forgotten.push(number)?;
        }
    }
    Ok(())
}
