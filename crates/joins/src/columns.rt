//! What the branches of a universal scope come to for each entry of its list.
ghost use Rattle.std.specs.Prelude.{◌≡◌, ◌≤◌, [], ◌∷◌, ◌++◌, length, map, IfOk};
ghost use Rattle.qc_model.specs.Value.{fold_of as fold_of_numbers};
ghost use Rattle.qc_model.specs.Demands.{is_aggregate, place_among as place_among_entries, first_namings as first_namings_of};
ghost use Rattle.joins.specs.Columns.{number_at as number_at_place, folded_with as folded_with_number, total_of, total_with as total_with_vector, with_vector as with_vector_of, emptied as emptied_of, known_in as known_in_source, known_with as known_with_number, value_by, values_by, known_of, source_among as source_among_namings, fresh_column as fresh_column_of};

use crate::values::Value;
use qc_model::{AggId, Condition, Fold, Problem, Target, VarId, first_namings};
use std::alloc::{AllocError, Global};

/// What an entry's value is made of.
#[derive(Clone, Copy)]
pub(crate) enum Source {
    /// A variable of an earlier scope.
    Variable(VarId),
    /// The fold of the numbers at this place of the branches' vectors.
    Folded(Fold, usize),
    /// An aggregate that the problem hasn't. No list names one.
    Missing,
}

/// An entry of the list, and the fold of the numbers of the exact leaves so far.
#[derive(Clone, Copy)]
pub(crate) struct Column {
    pub(crate) source: Source,
    pub(crate) total: i64,
}

fn number_at(place: usize, vector: &[i64]) -> i64
    ensures { result ≡ number_at_place place vector.now }
{
    match vector.get(place) {
        Some(number) => *number,
        None => 0,
    }
}

/// The fold with one number more. `has_any` says whether there were numbers before.
fn folded_with(fold: Fold, has_any: bool, total: i64, number: i64) -> i64
    ensures { result ≡ folded_with_number fold has_any total number }
{
    match fold {
        Fold::Sum => total.wrapping_add(number),
        Fold::Least(_) => { if has_any { total.min(number) } else { number } }
        Fold::Greatest(_) => { if has_any { total.max(number) } else { number } }
    }
}

fn total_with(source: Source, has_any: bool, total: i64, vector: &[i64]) -> i64
    ensures { result ≡ total_with_vector source has_any total vector.now }
{
    match source {
        Source::Variable(_) => total,
        Source::Folded(fold, place) => {
            folded_with(fold, has_any, total, number_at(place, vector))
        }
        Source::Missing => total,
    }
}

fn with_vector(has_any: bool, vector: &[i64], column: Column) -> Column
    ensures { result ≡ with_vector_of has_any vector.now column }
{
    Column {
        source: column.source,
        total: total_with(column.source, has_any, column.total, vector),
    }
}

/// Takes the vector of one more exact leaf.
pub(crate) fn add_vector(columns: &mut Vec<Column>, has_any: bool, vector: &[i64])
    ensures { columns.new.items ≡ map (with_vector_of has_any vector.now) columns.old.items }
{
    for k in 0..columns.len() {
        columns[k] = with_vector(has_any, vector, columns[k]);
    }
}

/// The fold of no number.
fn empty_fold(fold: Fold) -> i64
    ensures { result ≡ fold_of_numbers fold [] }
{
    match fold {
        Fold::Sum => 0,
        Fold::Least(otherwise) => otherwise,
        Fold::Greatest(otherwise) => otherwise,
    }
}

pub(crate) fn empty_total(source: Source) -> i64
    ensures { result ≡ total_of source [] }
{
    match source {
        Source::Variable(_) => 0,
        Source::Folded(fold, _) => empty_fold(fold),
        Source::Missing => 0,
    }
}

fn emptied(column: Column) -> Column
    ensures { result ≡ emptied_of column }
{
    Column {
        source: column.source,
        total: empty_total(column.source),
    }
}

/// Takes all vectors out.
pub(crate) fn empty(columns: &mut Vec<Column>)
    ensures { columns.new.items ≡ map emptied_of columns.old.items }
{
    for k in 0..columns.len() {
        columns[k] = emptied(columns[k]);
    }
}

/// The place of the first entry that names the aggregate, or their number.
fn place_among(q: AggId, entries: &[Condition]) -> usize
    ensures { result ≡ place_among_entries q.0 entries.now }
{
    let mut place = 0;
    for entry in entries {
        if names(q, entry.target) {
            return place;
        }
        place += 1;
    }
    place
}

fn names(q: AggId, target: Target) -> bool
    ensures { result ≡ is_aggregate q.0 target }
{
    match target {
        Target::Var(_) => false,
        Target::Aggregate(r) => r.0 == q.0,
    }
}

/// What the target's value is made of. The list after the scope asks for the aggregates of `namings`, in
/// this order.
fn source_among(problem: &Problem, namings: &[Condition], target: Target) -> Source
    ensures { result ≡ source_among_namings problem.now namings.now target }
{
    match target {
        Target::Var(x) => Source::Variable(x),
        Target::Aggregate(q) => match problem.all_aggregates().get(q.0 as usize) {
            Some(aggregate) => Source::Folded(aggregate.fold, place_among(q, namings)),
            None => Source::Missing,
        },
    }
}

fn fresh_column(problem: &Problem, namings: &[Condition], entry: Condition) -> Column
    ensures { result ≡ fresh_column_of problem.now namings.now entry }
{
    let source = source_among(problem, namings, entry.target);
    Column {
        source,
        total: empty_total(source),
    }
}

/// A column for each entry of a universal scope's list.
pub(crate) fn fresh_columns(
    alloc: Global,
    problem: &Problem,
    list: &[Condition],
) -> Result<Vec<Column>, AllocError>
    requires { length list.now ≤ 64 }
    ensures { IfOk result (λ columns. columns.items ≡ map (fresh_column_of problem.now (first_namings_of [] list.now)) list.now) }
{
    let namings = first_namings(list);
    let mut columns = Vec::with_capacity(alloc, list.len())?;
    for entry in list {
        columns.push(fresh_column(problem, namings.entries(), *entry))?;
    }
    Ok(columns)
}

fn known_in(source: Source, has_any: bool, known: i64, number: i64) -> i64
    ensures { result ≡ known_in_source source has_any known number }
{
    match source {
        Source::Variable(_) => known,
        Source::Folded(fold, _) => folded_with(fold, has_any, known, number),
        Source::Missing => known,
    }
}

/// The fold of the known numbers with one more, by the first entry's aggregate.
pub(crate) fn known_with(columns: &[Column], has_any: bool, known: i64, number: i64) -> i64
    ensures { result ≡ known_with_number columns.now has_any known number }
{
    match columns.split_first() {
        Some((first, _rest)) => known_in(first.source, has_any, known, number),
        None => known,
    }
}

/// The fold of no known number.
pub(crate) fn known_of_none(columns: &[Column]) -> i64
    ensures { result ≡ known_of columns.now [] }
{
    match columns.split_first() {
        Some((first, _rest)) => empty_total(first.source),
        None => 0,
    }
}

/// The entry's value at the values of the variables.
fn value_of(values: &[i64], column: Column) -> i64
    ensures { result ≡ value_by values.now column.source column.total }
{
    match column.source {
        Source::Variable(x) => number_at(x.0 as usize, values),
        Source::Folded(_, _) => column.total,
        Source::Missing => 0,
    }
}

/// Hands out the values of all entries.
pub(crate) fn hand_out(columns: &[Column], values: &[i64], out: &mut Value)
    requires { length columns.now ≤ out.old.list.capacity }
    ensures items { out.new.list.items ≡ values_by values.now columns.now }
    ensures room { out.old.list.capacity ≤ out.new.list.capacity }
{
    out.clear();
    for column in columns {
        out.push(value_of(values, *column));
    }
}
