//! Bits of one word.
ghost use Rattle.std.specs.Prelude.{◌≡◌, ◌<◌, ◌≤◌, ◌-◌, ◌&&◌, ◌==◌, not, ℕ};
ghost use Rattle.std.specs.Int.{bit_at};
ghost use Rattle.fd_store.specs.Places.{is_inside, count_of_word};

// The bits from a up to e.
fn mask(a: u32, e: u32) -> u64
    requires order { a < e }
    requires inside { e ≤ 64 }
    ensures { (i : ℕ) → i < 64 → (bit_at result i == 1) ≡ is_inside a e i }
{
    (u64::MAX >> (64 - e)) & (u64::MAX << a)
}

// The word with its bits from a up to e alone.
pub(crate) fn picked(word: u64, a: u32, e: u32) -> u64
    requires order { a < e }
    requires inside { e ≤ 64 }
    ensures { (i : ℕ) → i < 64 → (bit_at result i == 1) ≡ ((bit_at word i == 1) && is_inside a e i) }
{
    word & mask(a, e)
}

// The word without them.
pub(crate) fn cleared(word: u64, a: u32, e: u32) -> u64
    requires order { a < e }
    requires inside { e ≤ 64 }
    ensures { (i : ℕ) → i < 64 → (bit_at result i == 1) ≡ ((bit_at word i == 1) && not (is_inside a e i)) }
{
    word & !mask(a, e)
}

// How many bits of the word from a up to e are set.
pub(crate) fn count_in_word(word: u64, a: u32, e: u32) -> u32
    requires order { a < e }
    requires inside { e ≤ 64 }
    ensures { result ≡ count_of_word word a e }
{
    picked(word, a, e).count_ones()
}

// The first bit from a on that is set, or 64 where there is none.
pub(crate) fn first_in_word(word: u64, a: u32) -> u32
    requires { a < 64 }
    ensures most { result ≤ 64 }
    ensures from { result < 64 → a ≤ result }
    ensures none { (i : ℕ) → a ≤ i → i < result → bit_at word i ≡ 0 }
    ensures found { result < 64 → bit_at word result ≡ 1 }
{
    picked(word, a, 64).trailing_zeros()
}

// One more than the last bit below e that is set, or 0 where there is none.
pub(crate) fn end_in_word(word: u64, e: u32) -> u32
    requires some { 0 < e }
    requires inside { e ≤ 64 }
    ensures most { result ≤ e }
    ensures none { (i : ℕ) → result ≤ i → i < e → bit_at word i ≡ 0 }
    ensures found { 0 < result → bit_at word (result - 1) ≡ 1 }
{
    64 - picked(word, 0, e).leading_zeros()
}
