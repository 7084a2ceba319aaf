//! Whether items can each have a number of their own, by where they begin and end.
//!
//! In the order of where they end, each item takes the least free number from where it begins on. All find one within
//! their ends exactly where no range holds more items than numbers. What is free is told by stretches: each runs from
//! one least value of the items up to the next in order, and is taken from its start on, so that it is enough to know
//! how many of its numbers are free. Full stretches are passed by a forest whose ways get shorter as they are gone, so
//! that n items take time in the order of n log n.
ghost use Rattle.std.specs.Prelude.{◌≡◌, ◌≤◌, ◌<◌, ◌+◌, ◌≢◌, ℕ, length, get_or, count_by, take, true, false};
ghost use Rattle.std.specs.List.{All};
ghost use Rattle.std.specs.List.Sorted.{IsNonDecreasingBy};
ghost use Rattle.qc_refuter.specs.Stretches.{lies, AreSkips, IsNextOpen, IsStretch, IsOneMore, HasRoom, IsPlaced};

/// As many items as an array of a constraint can have.
pub(crate) const MOST_ITEMS: usize = 1000;

/// Where an item begins and ends, counted from the least number that there is.
#[derive(Clone, Copy)]
pub(crate) struct Ends {
    pub(crate) low: u32,
    pub(crate) high: u32,
}

// How many numbers there are before each least value, from the one before it on.
fn open_stretches(lows: &[u32], free: &mut [u32])
    requires same { length free.old ≡ length lows.now }
    requires up { IsNonDecreasingBy (λ (low : ℕ). low) lows.now }
    ensures length { length free.new ≡ length free.old }
    ensures free { (k : ℕ) → k + 1 < length lows.now → get_or lows.now (k + 1) 0 ≡ get_or lows.now k 0 + get_or free.new (k + 1) 0 }
{
    for k in 1..lows.len() {
        free[k] = lows[k] - lows[k - 1];
    }
}

// After a full stretch comes the next one.
fn link_stretches(skips: &mut [u16])
    requires few { length skips.old ≤ 1000 }
    ensures length { length skips.new ≡ length skips.old }
    ensures next { (k : ℕ) → k < length skips.new → get_or skips.new k 0 ≡ k + 1 }
{
    for k in 0..skips.len() {
        skips[k] = k as u16 + 1;
    }
}

fn is_full(free: &[u32], place: usize) -> bool
    ensures full { result ≡ true → (place < length free.now) × (get_or free.now place 0 ≡ 0) }
    ensures open { result ≡ false → place < length free.now → 0 < get_or free.now place 0 }
{
    match free.get(place) {
        Some(n) => *n == 0,
        None => false,
    }
}

// The first stretch from a place on that isn't full. None is left at the number of stretches.
fn next_open(free: &[u32], skips: &[u16], from: usize) -> usize
    requires skips { AreSkips free.now skips.now }
    requires from { from ≤ length free.now }
    ensures { IsNextOpen free.now from result }
{
    let mut at = from;
    while is_full(free, at) {
        at = skips[at] as usize;
    }
    at
}

// Leads the full stretches that were passed to the one that was found.
fn shorten(free: &[u32], skips: &mut [u16], from: usize, found: usize)
    requires few { length free.now ≤ 1000 }
    requires skips { AreSkips free.now skips.old }
    requires found { IsNextOpen free.now from found }
    ensures { AreSkips free.now skips.new }
{
    let mut at = from;
    while at < found {
        let next = skips[at] as usize;
        skips[at] = found as u16;
        at = next;
    }
}

// How many of the least values are at most low.
fn count_upto(lows: &[u32], low: u32) -> usize
    requires { IsNonDecreasingBy (λ (low : ℕ). low) lows.now }
    ensures bound { result ≤ length lows.now }
    ensures upto { (k : ℕ) → k < result → get_or lows.now k 0 ≤ low }
    ensures above { (k : ℕ) → result ≤ k → k < length lows.now → low < get_or lows.now k 0 }
{
    lows.partition_point(|other| *other <= low)
}

// The stretch that has the least free number from low on.
fn stretch_from(low: u32, lows: &[u32], free: &[u32], skips: &mut [u16]) -> usize
    requires few { length lows.now ≤ 1000 }
    requires same { length free.now ≡ length lows.now }
    requires up { IsNonDecreasingBy (λ (low : ℕ). low) lows.now }
    requires skips { AreSkips free.now skips.old }
    requires some { 0 < length lows.now }
    requires first { get_or lows.now 0 0 ≤ low }
    ensures skips { AreSkips free.now skips.new }
    ensures stretch { IsStretch lows.now free.now low result }
{
    let start = count_upto(lows, low);
    let found = next_open(free, skips, start);
    shorten(free, skips, start, found);
    found
}

// Takes the first free number of a stretch, which past the last one is top. Takes none and answers false where that is
// above high.
fn take_number(stretch: usize, high: u32, lows: &[u32], free: &mut [u32], top: &mut u32) -> bool
    requires same { length free.old ≡ length lows.now }
    requires open { stretch < length free.old → 0 < get_or free.old stretch 0 }
    requires most { stretch ≤ length lows.now }
    requires small { high ≤ 2000000000 }
    ensures length { length free.new ≡ length free.old }
    ensures fewer { (k : ℕ) → get_or free.new k 0 ≤ get_or free.old k 0 }
    ensures taken { result ≡ true → (c more : ℕ → ℕ) (low last : ℕ) → last ≤ high → IsOneMore low c more → IsStretch lows.now free.old low stretch → HasRoom lows.now free.old c last top.old → HasRoom lows.now free.new more high top.new }
    ensures none { result ≡ false → (c : ℕ → ℕ) (low last : ℕ) → IsStretch lows.now free.old low stretch → HasRoom lows.now free.old c last top.old → (l : ℕ) × (l ≤ low) × (high < l + c l) }
{
    if stretch == lows.len() {
        if high < *top {
            return false;
        }
        *top += 1;
        return true;
    }
    if high.saturating_add(free[stretch]) < lows[stretch] {
        return false;
    }
    free[stretch] -= 1;
    true
}

fn last_low(lows: &[u32]) -> u32
    ensures { (k : ℕ) → k + 1 ≡ length lows.now → get_or lows.now k 0 ≡ result }
{
    match lows {
        [.., last] => *last,
        [] => 0,
    }
}

/// Whether some range holds more items than numbers, of items in the order of where they end, whose least values are
/// given in order. What stands in `free` and `skips`, a place for each least value, is written over.
pub(crate) fn are_too_many(
    items: &[Ends],
    lows: &[u32],
    free: &mut [u32],
    skips: &mut [u16],
) -> bool
    requires few { length lows.now ≤ 1000 }
    requires up { IsNonDecreasingBy (λ (low : ℕ). low) lows.now }
    requires items { IsNonDecreasingBy (λ (e : Ends). e.high) items.now }
    requires placed { All (IsPlaced lows.now) items.now }
    requires free { length free.old ≡ length lows.now }
    requires skips { length skips.old ≡ length lows.now }
    ensures crowd { result ≡ true → (l : ℕ) × (h : ℕ) × (l ≤ h) × (h + 1 < l + count_by (lies l h) items.now) }
    ensures none { result ≡ false → (k h : ℕ) → k < length lows.now → get_or lows.now k 0 ≤ h → get_or lows.now k 0 + count_by (lies (get_or lows.now k 0) h) items.now ≤ h + 1 }
{
    open_stretches(lows, free);
    link_stretches(skips);
    let mut top = last_low(lows);
    for item in items {
        let stretch = stretch_from(item.low, lows, free, skips);
        if !take_number(stretch, item.high, lows, free, &mut top) {
            return true;
        }
    }
    false
}
