//! Lemmas that are looked at once a watched condition comes to hold.
use crate::engine::{Cause, Choice, Conflict, Engine, Watch};
use crate::known::{Condition, Known, Outlook};
use lemma_ground::Why;
use qc_model::{Kind, VarId};
use std::alloc::AllocError;
use std::mem;

/// What a lemma comes to: this condition can't hold any more, or isn't known to; two conditions on the loser's variables are
/// open; one is, and maybe a condition on the winner's that is to be decided before; all are met, or the winner can meet them.
#[derive(Clone, Copy)]
pub(crate) enum Sight {
    Void(usize),
    Open(usize, usize),
    Last(usize),
    Lost,
}

// What a lemma gains where it says something.
const USED: u64 = 1 << 20;

// Which list of a variable's a condition waits in.
fn list_of(condition: &Condition, least: i64, greatest: i64) -> usize {
    let kind = if condition.lo > least {
        1
    } else if condition.hi < greatest {
        0
    } else {
        2
    };
    (condition.x.0 as usize) * 3 + kind
}

impl<'p> Engine<'p> {
    fn is_speaking(&self, lemma: &Known) -> bool {
        lemma.place > self.scope && lemma.place <= self.facts.reach_from(lemma.loser, self.scope)
    }

    fn sums_hold(&self, lemma: &Known) -> bool {
        let stop = lemma.place.saturating_sub(1);
        for sum in lemma.sums.as_slice() {
            let Some(linear) = self.facts.linear_of(sum.c) else {
                return false;
            };
            let total = linear.total_before(&self.facts, &self.boxes, stop);
            if total.lo < sum.lo || total.hi > sum.hi {
                return false;
            }
        }
        true
    }

    fn sight_of_lemma(&self, lemma: &Known) -> Sight {
        let mut open: Option<(usize, VarId)> = None;
        let mut wait: Option<(usize, usize)> = None;
        for (k, condition) in lemma.conditions.iter().enumerate() {
            match condition.outlook(&self.boxes) {
                Outlook::Met => continue,
                Outlook::Void => return Sight::Void(k),
                Outlook::Open => {}
            }
            if self.facts.side_of(condition.x) == lemma.loser {
                if let Some((other, _)) = open {
                    return Sight::Open(other, k);
                }
                open = Some((k, condition.x));
            } else {
                let scope = self.facts.scope_of(condition.x);
                let is_first = match wait {
                    Some((_, earliest)) => scope < earliest,
                    None => true,
                };
                if is_first {
                    wait = Some((k, scope));
                }
            }
        }
        match (open, wait) {
            // nothing is known of a variable that the winner chose before and that has no value here
            (None, Some((j, scope))) if scope < self.scope => Sight::Void(j),
            (None, _) => Sight::Lost,
            (Some((k, x)), Some((j, scope))) if scope < self.scope.max(self.facts.scope_of(x)) => {
                Sight::Open(k, j)
            }
            (Some((k, _)), _) => Sight::Last(k),
        }
    }

    /// What a lemma that speaks here comes to, and who loses by it.
    pub(crate) fn sight_at(&self, n: usize) -> Option<(Kind, Sight)> {
        let lemma = self.known.get(n)?;
        if !self.is_speaking(lemma) || !self.sums_hold(lemma) {
            return None;
        }
        Some((lemma.loser, self.sight_of_lemma(lemma)))
    }

    fn watch(&mut self, n: usize, place: usize, other: usize) -> Result<(), AllocError> {
        let Some(lemma) = self.known.get(n) else {
            return Ok(());
        };
        let (Some(it), Some(beside)) = (lemma.conditions.get(place), lemma.conditions.get(other))
        else {
            return Ok(());
        };
        let list = list_of(it, self.facts.least_of(it.x), self.facts.greatest_of(it.x));
        let watch = Watch {
            lemma: n,
            place,
            lo: it.lo,
            hi: it.hi,
            other: beside.x,
            other_lo: beside.lo,
            other_hi: beside.hi,
        };
        if let Some(list) = self.watches.get_mut(list) {
            list.push(watch)?;
        }
        Ok(())
    }

    /// Watches the conditions of a lemma that is new.
    pub(crate) fn watch_new(
        &mut self,
        n: usize,
        first: usize,
        second: usize,
    ) -> Result<(), AllocError> {
        if let Some(lemma) = self.known.get_mut(n) {
            lemma.first = first;
            lemma.second = second;
        }
        self.watch(n, first, second)?;
        if first != second {
            self.watch(n, second, first)?;
        }
        Ok(())
    }

    fn watched(&self, n: usize) -> (usize, usize) {
        self.known.get(n).map_or((0, 0), |it| (it.first, it.second))
    }

    fn set_watched(&mut self, n: usize, first: usize, second: usize) -> Result<(), AllocError> {
        let (a, b) = self.watched(n);
        if first != a && first != b {
            self.watch(n, first, second)?;
        }
        if second != a && second != b && second != first {
            self.watch(n, second, first)?;
        }
        if let Some(lemma) = self.known.get_mut(n) {
            lemma.first = first;
            lemma.second = second;
        }
        Ok(())
    }

    // The condition beside this one whose variable changed last.
    pub(crate) fn latest_beside(&self, n: usize, place: usize) -> usize {
        let mut best = place;
        let mut latest: Option<usize> = None;
        if let Some(lemma) = self.known.get(n) {
            for (k, condition) in lemma.conditions.iter().enumerate() {
                let last = self.trail.last_of(condition.x);
                if k != place && (best == place || last > latest) {
                    best = k;
                    latest = last;
                }
            }
        }
        best
    }

    /// Looks at a lemma, of which the condition at `from` has come to hold.
    pub fn evaluate(
        &mut self,
        n: usize,
        from: Option<usize>,
    ) -> Result<Option<Conflict>, AllocError> {
        let Some((loser, sight)) = self.sight_at(n) else {
            return Ok(None);
        };
        self.work = self.work.saturating_add(1);
        match sight {
            Sight::Void(k) => {
                self.watch_void(n, k, from)?;
                Ok(None)
            }
            Sight::Open(a, b) => {
                self.set_watched(n, a, b)?;
                Ok(None)
            }
            Sight::Last(k) => {
                let beside = match from {
                    Some(place) if place != k => place,
                    _ => self.latest_beside(n, k),
                };
                self.set_watched(n, k, beside)?;
                self.use_lemma(n);
                self.remove_last(n, k, loser)
            }
            Sight::Lost => {
                self.use_lemma(n);
                Ok(Some(self.lost_lemma(n, loser)?))
            }
        }
    }

    fn watch_void(&mut self, n: usize, k: usize, from: Option<usize>) -> Result<(), AllocError> {
        let (a, b) = self.watched(n);
        let other = match from {
            Some(place) => { if place == a { b } else { a } }
            None => k,
        };
        if other != k {
            return self.set_watched(n, k, other);
        }
        let count = self.known.get(n).map_or(0, |it| it.conditions.len());
        let beside = if k == 0 && count > 1 { 1 } else { 0 };
        self.set_watched(n, k, beside)
    }

    fn use_lemma(&mut self, n: usize) {
        if let Some(lemma) = self.known.get_mut(n) {
            lemma.activity = lemma.activity.saturating_add(USED);
        }
    }

    /// The k-th condition can't hold.
    pub(crate) fn remove_last(
        &mut self,
        n: usize,
        k: usize,
        loser: Kind,
    ) -> Result<Option<Conflict>, AllocError> {
        let Some((x, lo, hi, ranges)) = self.condition_at(n, k) else {
            return Ok(None);
        };
        if ranges == 0 {
            return self.remove_within(x, lo, hi, n, loser);
        }
        for r in 0..ranges {
            let Some((lo, hi)) = self.range_at(n, k, r) else {
                return Ok(None);
            };
            if let Some(conflict) = self.remove_within(x, lo, hi, n, loser)? {
                return Ok(Some(conflict));
            }
        }
        Ok(None)
    }

    fn remove_within(
        &mut self,
        x: VarId,
        lo: i64,
        hi: i64,
        n: usize,
        loser: Kind,
    ) -> Result<Option<Conflict>, AllocError> {
        let lo = lo.max(self.boxes.least(x));
        let hi = hi.min(self.boxes.greatest(x));
        self.remove(x, lo, hi, Why::Lemma(n), loser)
    }

    pub(crate) fn condition_at(&self, n: usize, k: usize) -> Option<(VarId, i64, i64, usize)> {
        let condition = self.known.get(n)?.conditions.get(k)?;
        Some((
            condition.x,
            condition.lo,
            condition.hi,
            condition.ranges.len(),
        ))
    }

    pub(crate) fn range_at(&self, n: usize, k: usize, r: usize) -> Option<(i64, i64)> {
        let range = self.known.get(n)?.conditions.get(k)?.ranges.get(r)?;
        Some((range.lo, range.hi))
    }

    pub(crate) fn lost_lemma(&self, n: usize, loser: Kind) -> Result<Conflict, AllocError> {
        let mut choices = Vec::new(self.alloc);
        if let Some(lemma) = self.known.get(n) {
            for condition in lemma.conditions.as_slice() {
                if condition.is_met(&self.boxes) {
                    continue;
                }
                if let Some(v) = condition.value_of(&self.boxes) {
                    choices.push(Choice { x: condition.x, v })?;
                }
            }
        }
        Ok(Conflict {
            loser,
            cause: Cause::Lemma(n),
            choices,
        })
    }

    /// Looks at the lemmas whose conditions a change of x concerns.
    pub(crate) fn visit_lemmas(&mut self, x: VarId) -> Result<Option<Conflict>, AllocError> {
        let list = (x.0 as usize) * 3;
        if self.boxes.greatest(x) < self.facts.greatest_of(x)
            && let Some(conflict) = self.visit_list(list, x)?
        {
            return Ok(Some(conflict));
        }
        if self.boxes.least(x) > self.facts.least_of(x)
            && let Some(conflict) = self.visit_list(list + 1, x)?
        {
            return Ok(Some(conflict));
        }
        self.visit_list(list + 2, x)
    }

    fn visit_list(&mut self, list: usize, x: VarId) -> Result<Option<Conflict>, AllocError> {
        let count = self.watches.get(list).map_or(0, |watches| watches.len());
        self.pass_over(count);
        let quiet = self.quiet_watches(list, x);
        if quiet >= count {
            return Ok(None);
        }
        let Some(place) = self.watches.get_mut(list) else {
            return Ok(None);
        };
        let mut watches = mem::replace(place, Vec::new(self.alloc));
        let mut kept = quiet;
        let mut found = None;
        for k in quiet..count {
            let Some(watch) = watches.get(k).copied() else {
                break;
            };
            let mut stays = Some(watch);
            if found.is_none() && !self.is_quiet(&watch, x) {
                let (left, conflict) = self.visit(watch)?;
                stays = left;
                found = conflict;
            }
            if let Some(left) = stays
                && let Some(slot) = watches.get_mut(kept)
            {
                *slot = left;
                kept = kept.saturating_add(1);
            }
        }
        watches.truncate(kept);
        if let Some(place) = self.watches.get_mut(list) {
            *place = watches;
        }
        Ok(found)
    }

    // How many watches of a list there are before the first whose lemma may have something to say.
    fn quiet_watches(&self, list: usize, x: VarId) -> usize {
        let (least, greatest) = (self.boxes.least(x), self.boxes.greatest(x));
        let mut quiet = 0usize;
        if let Some(watches) = self.watches.get(list) {
            for watch in watches.as_slice() {
                if !self.is_quiet_within(watch, x, least, greatest) {
                    break;
                }
                quiet = quiet.saturating_add(1);
            }
        }
        quiet
    }

    fn is_quiet(&self, watch: &Watch, x: VarId) -> bool {
        self.is_quiet_within(watch, x, self.boxes.least(x), self.boxes.greatest(x))
    }

    // Whether the watched condition of x, which has these ends, may not be met yet, or the other one can't be any more, by the
    // ends of its variable.
    fn is_quiet_within(&self, watch: &Watch, x: VarId, least: i64, greatest: i64) -> bool {
        least < watch.lo
            || greatest > watch.hi
            || watch.other.0 != x.0
                && (self.boxes.greatest(watch.other) < watch.other_lo
                    || self.boxes.least(watch.other) > watch.other_hi)
    }

    // What is left of a watch, and a conflict.
    fn visit(&mut self, watch: Watch) -> Result<(Option<Watch>, Option<Conflict>), AllocError> {
        let Some(lemma) = self.known.get(watch.lemma) else {
            return Ok((None, None));
        };
        if lemma.is_dead || lemma.first != watch.place && lemma.second != watch.place {
            return Ok((None, None));
        }
        let Some(condition) = lemma.conditions.get(watch.place) else {
            return Ok((None, None));
        };
        if condition.outlook(&self.boxes) != Outlook::Met {
            return Ok((Some(watch), None));
        }
        let other = beside(lemma, watch.place);
        if other != watch.place
            && let Some(condition) = lemma.conditions.get(other)
            && condition.outlook(&self.boxes) == Outlook::Void
        {
            return Ok((Some(seen_beside(watch, condition)), None));
        }
        let found = self.evaluate(watch.lemma, Some(watch.place))?;
        Ok((self.still_watched(watch), found))
    }

    fn still_watched(&self, watch: Watch) -> Option<Watch> {
        let lemma = self.known.get(watch.lemma)?;
        if lemma.first != watch.place && lemma.second != watch.place {
            return None;
        }
        match lemma.conditions.get(beside(lemma, watch.place)) {
            Some(condition) => Some(seen_beside(watch, condition)),
            None => Some(watch),
        }
    }
}

// The other condition that is watched.
fn beside(lemma: &Known, place: usize) -> usize {
    if lemma.first == place {
        lemma.second
    } else {
        lemma.first
    }
}

fn seen_beside(watch: Watch, condition: &Condition) -> Watch {
    Watch {
        other: condition.x,
        other_lo: condition.lo,
        other_hi: condition.hi,
        ..watch
    }
}
