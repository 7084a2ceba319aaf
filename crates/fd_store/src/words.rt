//! Places of bits, counted over all words.
ghost use Rattle.std.specs.Prelude.{◌≡◌, ◌<◌, ◌≤◌, ◌+◌, ◌-◌, ◌*◌, true, false, length, ℕ};
ghost use Rattle.fd_store.specs.Places.{is_set, count_below};

use crate::bits::{count_in_word, end_in_word, first_in_word};

// Whether the bit at this place is set.
pub(crate) fn has_place(words: &[u64], place: usize) -> bool
    requires { place < 64 * length words.now }
    ensures { result ≡ is_set words.now place }
{
    (words[place / 64] >> (place % 64)) & 1 == 1
}

// The first place from a on that is set, where the one before e is.
pub(crate) fn next_set(words: &[u64], a: usize, e: usize) -> usize
    requires order { a < e }
    requires inside { e ≤ 64 * length words.now }
    requires small { length words.now ≤ 100000 }
    requires last { is_set words.now (e - 1) ≡ true }
    ensures from { a ≤ result }
    ensures below { result < e }
    ensures found { is_set words.now result ≡ true }
    ensures none { (p : ℕ) → a ≤ p → p < result → is_set words.now p ≡ false }
{
    for w in a / 64..words.len() {
        let k = first_in_word(words[w], (a.max(64 * w) - 64 * w) as u32);
        if k < 64 {
            return 64 * w + k as usize;
        }
    }
    unreachable!()
}

// One more than the last place below e that is set, where the one at a is.
pub(crate) fn end_of_set(words: &[u64], a: usize, e: usize) -> usize
    requires order { a < e }
    requires inside { e ≤ 64 * length words.now }
    requires small { length words.now ≤ 100000 }
    requires first { is_set words.now a ≡ true }
    ensures from { a < result }
    ensures below { result ≤ e }
    ensures found { is_set words.now (result - 1) ≡ true }
    ensures none { (p : ℕ) → result ≤ p → p < e → is_set words.now p ≡ false }
{
    let mut w = (e + 63) / 64;
    while w > a / 64 {
        w -= 1;
        let k = end_in_word(words[w], (e.min(64 * w + 64) - 64 * w) as u32);
        if k > 0 {
            return 64 * w + k as usize;
        }
    }
    unreachable!()
}

// How many of the places from a up to e are set.
pub(crate) fn count_set(words: &[u64], a: usize, e: usize) -> u32
    requires order { a < e }
    requires inside { e ≤ 64 * length words.now }
    requires small { length words.now ≤ 100000 }
    ensures { result ≡ count_below (λ k. is_set words.now (a + k)) (e - a) }
{
    let mut n = 0;
    for w in a / 64..(e + 63) / 64 {
        let from = (a.max(64 * w) - 64 * w) as u32;
        let to = (e.min(64 * w + 64) - 64 * w) as u32;
        n += count_in_word(words[w], from, to);
    }
    n
}
