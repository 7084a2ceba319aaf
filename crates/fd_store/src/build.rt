//! Declared domains as words and cells.
ghost use Rattle.std.specs.Prelude.{◌≡◌, ◌<◌, ◌≤◌, ◌+◌, ◌*◌, ◌/◌, ◌||◌, ◌==◌, true, ℕ, All, length, OnOk, IfOk, pos, negsuc, ◌+ℤ◌, ◌≤ℤ◌, ◌<ℤ◌};
ghost use Rattle.qc_model.specs.Domains.{has_value, least_value, greatest_value, domain_values};
ghost use Rattle.qc_model.specs.Valid.{is_domain, width_of, domain_width};
ghost use Rattle.fd_store.specs.Places.{is_set};
ghost use Rattle.qc_model.specs.Lists.{numbers_from};
ghost use Rattle.fd_store.specs.Added.{IsLonger, AddsCell};

use crate::cuts::offset_of;
use crate::table::Cell;
use qc_model::Domain;
use std::alloc::AllocError;

// Appends n words.
pub(crate) fn fill(words: &mut Vec<u64>, n: usize, word: u64) -> Result<(), AllocError>
    ensures { OnOk result (IsLonger words.old.items words.new.items n word) }
{
    for _added in 0..n {
        words.push(word)?;
    }
    Ok(())
}

// Appends the n values from base on. The bits past the last value are set too, and don't count.
pub(crate) fn add_range(words: &mut Vec<u64>, base: i64, n: u32) -> Result<Cell, AllocError>
    requires some { 0 < n }
    requires narrow { n ≤ 1048576 }
    requires low { negsuc 999999999 ≤ℤ base }
    requires high { (base +ℤ pos n) ≤ℤ pos 1000000001 }
    ensures { IfOk result (λ c. AddsCell words.old.items words.new.items c n (numbers_from base n)) }
{
    let start = words.len();
    fill(words, (n as usize + 63) / 64, u64::MAX)?;
    Ok(Cell {
        base,
        start,
        width: n,
        first: 0,
        end: n,
        size: n,
    })
}

// Sets the bit at this place.
fn set_place(words: &mut Vec<u64>, place: usize)
    requires { place < 64 * length words.old.items }
    ensures long { length words.new.items ≡ length words.old.items }
    ensures bits { (p : ℕ) → is_set words.new.items p ≡ (is_set words.old.items p || p == place) }
{
    let word = words[place / 64];
    words[place / 64] = word | (1 << (place % 64));
}

// Sets the bits of these numbers, the one of base at the word `start`.
fn set_places(words: &mut Vec<u64>, start: usize, base: i64, width: u32, numbers: &[i64])
    requires narrow { width ≤ 1048576 }
    requires low { negsuc 999999999 ≤ℤ base }
    requires high { (base +ℤ pos width) ≤ℤ pos 1000000001 }
    requires inside { 64 * start + width ≤ 64 * length words.old.items }
    requires few { length words.old.items ≤ 100000 }
    requires each { All (λ v. (base ≤ℤ v) × (v <ℤ (base +ℤ pos width))) numbers.now }
    ensures long { length words.new.items ≡ length words.old.items }
    ensures before { (p : ℕ) → p < 64 * start → is_set words.new.items p ≡ is_set words.old.items p }
    ensures bits { (k : ℕ) → k < width → is_set words.new.items (64 * start + k) ≡ (is_set words.old.items (64 * start + k) || has_value numbers.now (base +ℤ pos k)) }
{
    for v in numbers {
        set_place(words, 64 * start + offset_of(base, *v) as usize);
    }
}

// The least of the listed numbers of a domain.
fn first_of(numbers: &[i64]) -> i64
    requires { is_domain (Domain.Listed numbers.now) ≡ true }
    ensures { result ≡ least_value numbers.now }
{
    numbers[0]
}

// The greatest of them.
fn last_of(numbers: &[i64]) -> i64
    requires { is_domain (Domain.Listed numbers.now) ≡ true }
    ensures { result ≡ greatest_value numbers.now }
{
    numbers[numbers.len() - 1]
}

// How many values there are from the least of the numbers to the greatest.
fn width_of_list(numbers: &[i64]) -> u32
    requires { is_domain (Domain.Listed numbers.now) ≡ true }
    ensures { result ≡ width_of numbers.now }
{
    offset_of(first_of(numbers), last_of(numbers)) + 1
}

// Appends the listed values of a domain.
pub(crate) fn add_list(words: &mut Vec<u64>, numbers: &[i64]) -> Result<Cell, AllocError>
    requires listed { is_domain (Domain.Listed numbers.now) ≡ true }
    requires few { length words.old.items + (width_of numbers.now + 63) / 64 ≤ 100000 }
    ensures { IfOk result (λ c. AddsCell words.old.items words.new.items c (width_of numbers.now) numbers.now) }
{
    let base = first_of(numbers);
    let width = width_of_list(numbers);
    let start = words.len();
    fill(words, (width as usize + 63) / 64, 0)?;
    set_places(words, start, base, width, numbers);
    Ok(Cell {
        base,
        start,
        width,
        first: 0,
        end: width,
        size: numbers.len() as u32,
    })
}

// Appends the values of a declared domain.
pub(crate) fn add_domain(words: &mut Vec<u64>, domain: &Domain) -> Result<Cell, AllocError>
    requires valid { is_domain domain.now ≡ true }
    requires few { length words.old.items + (domain_width domain.now + 63) / 64 ≤ 100000 }
    ensures { IfOk result (λ c. AddsCell words.old.items words.new.items c (domain_width domain.now) (domain_values domain.now)) }
{
    match domain {
        Domain::Bits => add_range(words, 0, 2),
        Domain::Range(low, high) => add_range(words, *low, offset_of(*low, *high) + 1),
        Domain::Listed(numbers) => add_list(words, numbers.items()),
    }
}
