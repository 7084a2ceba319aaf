//! Places of the trail that are marked.
use qc_model::ConId;
use std::alloc::{AllocError, Global};

/// A change that is needed. A soft one is needed only for what a sum comes to.
#[derive(Clone, Copy)]
pub struct Need {
    pub place: usize,
    pub is_soft: bool,
}

/// What is asked of the sum of a linear constraint: that it is no less, or no more, than what the changes leave.
#[derive(Clone, Copy)]
pub struct SumUse {
    pub c: ConId,
    pub no_less: bool,
    pub no_more: bool,
}

/// Changes that are needed, and sums.
#[derive(Drop)]
pub struct Needs {
    pub changes: Vec<Need>,
    pub sums: Vec<SumUse>,
}

impl Needs {
    pub fn new(alloc: Global) -> Needs {
        Needs {
            changes: Vec::new(alloc),
            sums: Vec::new(alloc),
        }
    }

    pub fn clear(&mut self) {
        self.changes.clear();
        self.sums.clear();
    }

    pub fn add(&mut self, place: usize, is_soft: bool) -> Result<(), AllocError> {
        self.changes.push(Need { place, is_soft })?;
        Ok(())
    }

    pub fn add_all(&mut self, places: &[usize], is_soft: bool) -> Result<(), AllocError> {
        for place in places {
            self.add(*place, is_soft)?;
        }
        Ok(())
    }
}

/// Marked places, each once, in the order in which they were marked, as long as none is taken out, and what sums are needed
/// for.
#[derive(Drop)]
pub struct Marks {
    is_marked: Vec<bool>,
    is_hard: Vec<bool>,
    places: Vec<usize>,
    sums: Vec<SumUse>,
}

impl Marks {
    pub fn new(alloc: Global) -> Marks {
        Marks {
            is_marked: Vec::new(alloc),
            is_hard: Vec::new(alloc),
            places: Vec::new(alloc),
            sums: Vec::new(alloc),
        }
    }

    /// No place is marked any more.
    pub fn clear(&mut self) {
        for k in 0..self.places.len() {
            if let Some(place) = self.places.get(k).copied() {
                self.unmark(place);
            }
        }
        self.places.clear();
        self.sums.clear();
    }

    fn unmark(&mut self, place: usize) {
        if let Some(mark) = self.is_marked.get_mut(place) {
            *mark = false;
        }
        if let Some(hard) = self.is_hard.get_mut(place) {
            *hard = false;
        }
    }

    pub fn has(&self, place: usize) -> bool {
        self.is_marked.get(place).copied().unwrap_or(false)
    }

    pub fn has_hard(&self, place: usize) -> bool {
        self.is_hard.get(place).copied().unwrap_or(false)
    }

    fn add(&mut self, need: Need) -> Result<(), AllocError> {
        for _ in self.is_marked.len()..need.place.saturating_add(1) {
            self.is_marked.push(false)?;
            self.is_hard.push(false)?;
        }
        if !self.has(need.place) {
            self.places.push(need.place)?;
        }
        if let Some(mark) = self.is_marked.get_mut(need.place) {
            *mark = true;
        }
        if !need.is_soft
            && let Some(hard) = self.is_hard.get_mut(need.place)
        {
            *hard = true;
        }
        Ok(())
    }

    fn use_sum(&mut self, sum: SumUse) -> Result<(), AllocError> {
        for it in self.sums.iter_mut() {
            if it.c.0 == sum.c.0 {
                it.no_less = it.no_less || sum.no_less;
                it.no_more = it.no_more || sum.no_more;
                return Ok(());
            }
        }
        self.sums.push(sum)?;
        Ok(())
    }

    /// Marks all that is needed.
    pub fn add_needs(&mut self, needs: &Needs) -> Result<(), AllocError> {
        for need in needs.changes.as_slice() {
            self.add(*need)?;
        }
        for sum in needs.sums.as_slice() {
            self.use_sum(*sum)?;
        }
        Ok(())
    }

    pub fn remove(&mut self, place: usize) {
        self.unmark(place);
        self.places.retain(|it| *it != place);
    }

    pub fn places(&self) -> &[usize] {
        self.places.as_slice()
    }

    pub fn sums(&self) -> &[SumUse] {
        self.sums.as_slice()
    }
}
