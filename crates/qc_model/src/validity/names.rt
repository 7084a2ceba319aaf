//! Names of variables and aggregates.
//!
//! There are at most 564 names, so each is compared with all after it; a table would take memory.
ghost use Rattle.std.specs.Prelude.{◌≡◌, map, bytes_eq, ◌++◌};
ghost use Rattle.std.specs.List.{list_any, list_all};
ghost use Rattle.qc_model.specs.Names.{is_first_byte as is_first, is_name as is_name_of, is_word as is_word_of, is_word_byte as is_later, names_differ as are_distinct, reserved_words};

use crate::problem::{Aggregate, Variable};

fn is_first_byte(byte: u8) -> bool
    ensures { result ≡ is_first byte }
{
    byte.is_ascii_alphabetic() || byte == b'_'
}

fn is_word_byte(byte: u8) -> bool
    ensures { result ≡ is_later byte }
{
    is_first_byte(byte) || byte.is_ascii_digit()
}

fn are_word_bytes(bytes: &[u8]) -> bool
    ensures { result ≡ list_all is_later bytes.now }
{
    bytes.iter().all(|b| is_word_byte(*b))
}

fn is_word(text: &[u8]) -> bool
    ensures { result ≡ is_word_of text.now }
{
    match text.split_first() {
        Some((first, rest)) => is_first_byte(*first) && are_word_bytes(rest),
        None => false,
    }
}

fn is_reserved(text: &str) -> bool
    ensures { result ≡ list_any (bytes_eq text.now) reserved_words }
{
    matches!(
        text,
        "exists"
            | "forall"
            | "goal"
            | "solve"
            | "var"
            | "bool"
            | "aggregate"
            | "sum"
            | "least"
            | "greatest"
            | "else"
            | "minimize"
            | "maximize"
            | "constraint"
            | "true"
            | "false"
    )
}

fn is_name(text: &str) -> bool
    ensures { result ≡ is_name_of text.now }
{
    is_word(text.as_bytes()) && !is_reserved(text)
}

fn variable_has_name(variables: &[Variable], name: &str) -> bool
    ensures { result ≡ list_any (λ x. bytes_eq name.now x.name) variables.now }
{
    variables.iter().any(|x| name == x.name.text())
}

fn aggregate_has_name(aggregates: &[Aggregate], name: &str) -> bool
    ensures { result ≡ list_any (λ q. bytes_eq name.now q.name) aggregates.now }
{
    aggregates.iter().any(|q| name == q.name.text())
}

fn has_name(variables: &[Variable], aggregates: &[Aggregate], name: &str) -> bool
    ensures { result ≡ list_any (bytes_eq name.now) (map (λ x. x.name) variables.now ++ map (λ q. q.name) aggregates.now) }
{
    variable_has_name(variables, name) || aggregate_has_name(aggregates, name)
}

fn aggregates_differ(aggregates: &[Aggregate]) -> bool
    ensures { result ≡ are_distinct (map (λ q. q.name) aggregates.now) }
{
    match aggregates.split_first() {
        Some((q, rest)) => !aggregate_has_name(rest, q.name.text()) && aggregates_differ(rest),
        None => true,
    }
}

/// Whether no two variables or aggregates have the same name.
pub(crate) fn names_differ(variables: &[Variable], aggregates: &[Aggregate]) -> bool
    ensures { result ≡ are_distinct (map (λ x. x.name) variables.now ++ map (λ q. q.name) aggregates.now) }
{
    match variables.split_first() {
        Some((x, rest)) => {
            !has_name(rest, aggregates, x.name.text()) && names_differ(rest, aggregates)
        }
        None => aggregates_differ(aggregates),
    }
}

fn variables_have_names(variables: &[Variable]) -> bool
    ensures { result ≡ list_all (λ x. is_name_of x.name) variables.now }
{
    variables.iter().all(|x| is_name(x.name.text()))
}

fn aggregates_have_names(aggregates: &[Aggregate]) -> bool
    ensures { result ≡ list_all (λ q. is_name_of q.name) aggregates.now }
{
    aggregates.iter().all(|q| is_name(q.name.text()))
}

/// Whether each name is a word that isn't reserved.
pub(crate) fn are_names(variables: &[Variable], aggregates: &[Aggregate]) -> bool
    ensures { result ≡ list_all is_name_of (map (λ x. x.name) variables.now ++ map (λ q. q.name) aggregates.now) }
{
    variables_have_names(variables) && aggregates_have_names(aggregates)
}
