//! The values left to each variable, and whether a variable has none.
ghost use Rattle.std.specs.Prelude.{◌≡◌, ◌<◌, ◌≤◌, true, false, not, [], length, ℤ, pos, negsuc, IfOk, IsTrue};
ghost use Rattle.qc_model.specs.Domains.{Box, is_sub_box, declared_box, box_within, box_without, has_empty, is_none_left, values_left, values_within};
ghost use Rattle.qc_model.specs.Valid.{is_number};
ghost use Rattle.fd_store.specs.Held.{trail_len, past_box, count_left, Follows, IsUndone};

use fd_store::{Mark, Removed, Store};
use qc_model::{Problem, VarId};
use std::alloc::{AllocError, Global};
use std::marker::Model;

/// More places of the trail than one removal takes.
const PLACES: usize = 16_400;

/// A store, and whether a variable has no value left.
///
/// The trail has room for each value's removal, and for one removal more, from the beginning: so nothing but `new` takes
/// memory. Contracts see what the store holds.
#[derive(Drop)]
pub struct Remains {
    store: Store,
    empty: bool,
}

impl Model for Remains {
    ghost use Rattle.std.specs.Prelude.{◌≡◌};
    ghost use Rattle.qc_model.specs.Domains.{has_empty};
    ghost use Rattle.fd_store.specs.Held.{Held};
    ghost use Rattle.check_box.specs.Room.{HasRoom};

    ghost Value = { Held };

    ghost view = { λ r. r.store };

    ghost invariant = { λ r. (r.empty ≡ has_empty r.store.box) × HasRoom r.store };
}

/// How many values are left to all variables together.
fn count_values(store: &Store) -> usize
    requires few { length store.now.box ≤ 500 }
    ensures count { result ≡ count_left store.now.box }
    ensures most { result ≤ 2147483647500 }
{
    let mut values = 0;
    for k in 0..store.count() {
        values += store.size(VarId(k as u16)) as usize;
    }
    values
}

/// Whether some value of x is at most hi.
#[inline(always)]
fn reaches_down(store: &Store, x: VarId, hi: i64) -> bool
    requires var { x.0 < length store.now.box }
    requires left { is_none_left (values_left store.now.box x.0) ≡ false }
    ensures { result ≡ false → (lo : ℤ) → is_none_left (values_within lo hi (values_left store.now.box x.0)) ≡ true }
{
    store.min(x) <= hi
}

/// Whether some value of x is at least lo.
#[inline(always)]
fn reaches_up(store: &Store, x: VarId, lo: i64) -> bool
    requires var { x.0 < length store.now.box }
    requires left { is_none_left (values_left store.now.box x.0) ≡ false }
    ensures { result ≡ false → (hi : ℤ) → is_none_left (values_within lo hi (values_left store.now.box x.0)) ≡ true }
{
    lo <= store.max(x)
}

impl Remains {
    /// The declared domains of a problem's variables. It fails only where memory runs out.
    pub fn new(alloc: Global, problem: &Problem) -> Result<Remains, AllocError>
        ensures { IfOk result (λ r. (r.box ≡ declared_box problem.now) × (r.past ≡ [])) }
    {
        problem.known();
        let mut store = Store::new(alloc, problem)?;
        let values = count_values(&store);
        store.reserve_trail(values + PLACES)?;
        Ok(Remains {
            store,
            empty: false,
        })
    }

    /// The store, to be read.
    pub fn store(&self) -> &Store
        ensures { result.now ≡ self.now }
    {
        &self.store
    }

    /// The trail's length, to go back to.
    pub fn mark(&self) -> Mark
        ensures { result.at ≡ trail_len self.now }
    {
        self.store.mark()
    }

    /// Whether a variable has no value left.
    pub fn is_empty(&self) -> bool
        ensures { result ≡ has_empty self.now.box }
    {
        self.empty
    }

    /// Whether x has a value from lo to hi.
    #[inline(always)]
    pub fn has_within(&self, x: VarId, lo: i64, hi: i64) -> bool
        ensures { result ≡ not (is_none_left (values_within lo hi (values_left self.now.box x.0))) }
    {
        if x.0 as usize >= self.store.count() {
            return false;
        }
        match self.store.next(x, lo) {
            None => false,
            Some(v) => v <= hi,
        }
    }

    /// Takes the values from lo to hi out of x.
    pub fn cut(&mut self, x: VarId, lo: i64, hi: i64)
        requires var { x.0 < length self.old.box }
        ensures content { self.new.box ≡ box_without self.old.box x.0 lo hi }
        ensures past { Follows self.old self.new }
        ensures fewer { (large : Box) → is_sub_box self.old.box large ≡ true → is_sub_box self.new.box large ≡ true }
    {
        self.store.trail_known();
        self.store.need_known(x);
        match self.store.remove(x, lo, hi) {
            Removed::Emptied => self.empty = true,
            Removed::Nothing => {}
            Removed::Some => {}
        }
    }

    /// Whether x may have a value of at most hi, by its ends.
    #[inline(always)]
    fn may_reach_down(&self, x: VarId, hi: i64) -> bool
        requires var { x.0 < length self.now.box }
        ensures { result ≡ false → (lo : ℤ) → is_none_left (values_within lo hi (values_left self.now.box x.0)) ≡ true }
    {
        if self.empty {
            return true;
        }
        reaches_down(&self.store, x, hi)
    }

    /// Whether x may have a value of at least lo, by its ends.
    #[inline(always)]
    fn may_reach_up(&self, x: VarId, lo: i64) -> bool
        requires var { x.0 < length self.now.box }
        ensures { result ≡ false → (hi : ℤ) → is_none_left (values_within lo hi (values_left self.now.box x.0)) ≡ true }
    {
        if self.empty {
            return true;
        }
        reaches_up(&self.store, x, lo)
    }

    /// Takes the values up to hi out of x, where often there are none.
    #[inline(always)]
    fn cut_down(&mut self, x: VarId, hi: i64)
        requires var { x.0 < length self.old.box }
        ensures content { self.new.box ≡ box_without self.old.box x.0 (negsuc 999999999) hi }
        ensures past { Follows self.old self.new }
        ensures fewer { (large : Box) → is_sub_box self.old.box large ≡ true → is_sub_box self.new.box large ≡ true }
    {
        if self.may_reach_down(x, hi) {
            self.cut(x, -1_000_000_000, hi);
        }
    }

    /// Takes the values from lo on out of x, where often there are none.
    #[inline(always)]
    fn cut_up(&mut self, x: VarId, lo: i64)
        requires var { x.0 < length self.old.box }
        ensures content { self.new.box ≡ box_without self.old.box x.0 lo (pos 1000000000) }
        ensures past { Follows self.old self.new }
        ensures fewer { (large : Box) → is_sub_box self.old.box large ≡ true → is_sub_box self.new.box large ≡ true }
    {
        if self.may_reach_up(x, lo) {
            self.cut(x, lo, 1_000_000_000);
        }
    }

    /// Leaves x its values from first to last alone.
    #[inline(always)]
    pub fn keep(&mut self, x: VarId, first: i64, last: i64)
        requires var { x.0 < length self.old.box }
        requires first { IsTrue (is_number first) }
        requires last { IsTrue (is_number last) }
        ensures content { self.new.box ≡ box_within self.old.box x.0 first last }
        ensures past { Follows self.old self.new }
        ensures fewer { (large : Box) → is_sub_box self.old.box large ≡ true → is_sub_box self.new.box large ≡ true }
    {
        self.store.known(x);
        self.cut_down(x, first - 1);
        self.cut_up(x, last + 1);
    }

    /// Goes back to a box in which each variable had a value.
    pub fn undo_to(&mut self, mark: Mark)
        requires at { mark.at ≤ trail_len self.old }
        requires full { has_empty (past_box self.old mark.at) ≡ false }
        ensures past { IsUndone mark.at self.old self.new }
        ensures content { self.new.box ≡ past_box self.old mark.at }
    {
        self.store.undo_to(mark);
        self.empty = false;
    }

    /// Goes back to the box before the first removal, in which each variable had a value.
    pub fn restart(&mut self)
        requires full { has_empty (past_box self.old 0) ≡ false }
        ensures past { IsUndone 0 self.old self.new }
        ensures content { self.new.box ≡ past_box self.old 0 }
    {
        self.undo_to(Mark { at: 0 });
    }
}
