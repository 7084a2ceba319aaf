//! The demanded lists of a draft, and whether each universal scope may have its own.
//!
//! A list has at most one entry for each scope, so it lies in a place of fixed size: `build` takes no
//! memory.
ghost use Rattle.std.specs.Prelude.{◌≡◌, ◌+◌, ◌<◌, ◌≤◌, [], ◌∷◌, ◌++◌, None, length, map, slice_get};
ghost use Rattle.std.specs.List.{list_all};
ghost use Rattle.qc_model.specs.Block.{of_kind};
ghost use Rattle.qc_model.specs.Demands.{is_aggregate as is_aggregate_target, names as names_aggregate, with_naming as with_naming_of, first_namings as first_namings_of, target_within as target_within_of, demand_within, with_condition as with_condition_of, demands_after as demands_after_of};
ghost use Rattle.std.specs.Option.{option_map};
ghost use Rattle.qc_model.specs.Bottlenecks.{is_sum as is_sum_fold, is_bottleneck as is_bottleneck_target, names_no_other as names_no_other_than, lesser as lesser_of, followed as followed_of, least_followed as least_followed_of, first_bottleneck as first_bottleneck_of, bottlenecks_last as bottlenecks_last_of};

use crate::limits;
use crate::problem::{AggId, Condition, Draft, Fold, Kind, Scope, Sense, Target, VarId};
use std::marker::Model;

/// What stands in the places that aren't taken.
const BLANK: Condition = Condition {
    sense: Sense::Min,
    target: Target::Var(VarId(0)),
};

/// A demanded list: of at most as many entries as there can be scopes.
#[derive(Drop)]
pub struct DemandedList {
    entries: [Condition; limits::SCOPES],
    count: usize,
}

impl Model for DemandedList {
    ghost use Rattle.std.specs.Prelude.{List, ◌≤◌, take};
    ghost use Rattle.qc_model.specs.declared.problem.Condition.{Condition};

    ghost Value = { List Condition };

    ghost view = { λ a. take a.count a.entries };

    ghost invariant = { λ a. a.count ≤ 64 };
}

impl DemandedList {
    pub(crate) fn new() -> DemandedList
        ensures { result ≡ [] }
    {
        DemandedList {
            entries: [BLANK; limits::SCOPES],
            count: 0,
        }
    }

    fn push(&mut self, entry: Condition)
        requires { length self.old < 64 }
        ensures { self.new ≡ self.old ++ entry ∷ [] }
    {
        self.entries[self.count] = entry;
        self.count += 1;
    }

    /// The entries, in order.
    pub fn entries(&self) -> &[Condition]
        ensures { result.now ≡ self.now }
    {
        &self.entries[..self.count]
    }
}

/// Whether the target is the aggregate q.
fn is_aggregate(q: AggId, target: Target) -> bool
    ensures { result ≡ is_aggregate_target q.0 target }
{
    match target {
        Target::Var(_) => false,
        Target::Aggregate(r) => r.0 == q.0,
    }
}

/// Whether some entry names the aggregate q.
fn names(q: AggId, entries: &[Condition]) -> bool
    ensures { result ≡ names_aggregate q.0 entries.now }
{
    entries.iter().any(|entry| is_aggregate(q, entry.target))
}

/// Appends the entry where it is the first to name its aggregate.
fn add_naming(list: &mut DemandedList, entry: Condition)
    requires { length list.old < 64 }
    ensures naming { list.new ≡ with_naming_of list.old entry entry.target }
    ensures room { length list.new ≤ length list.old + 1 }
{
    match entry.target {
        Target::Var(_) => {}
        Target::Aggregate(q) => {
            if !names(q, list.entries()) {
                list.push(entry);
            }
        }
    }
}

/// The entries that are the first to name their aggregate. The list after a universal scope asks for
/// these aggregates, in this order.
pub fn first_namings(entries: &[Condition]) -> DemandedList
    requires { length entries.now ≤ 64 }
    ensures namings { result ≡ first_namings_of [] entries.now }
    ensures room { length result ≤ length entries.now }
{
    let mut list = DemandedList::new();
    for entry in entries {
        add_naming(&mut list, *entry);
    }
    list
}

/// What an aggregate folds.
fn target_within(draft: &Draft, target: Target) -> Target
    ensures { result ≡ target_within_of draft.now target }
{
    match target {
        Target::Var(x) => Target::Var(x),
        Target::Aggregate(q) => match draft.aggregates.get(q.0 as usize) {
            Some(aggregate) => aggregate.target,
            None => Target::Var(VarId(0)),
        },
    }
}

/// What the entries ask of the branches.
fn demands_within(draft: &Draft, entries: &[Condition]) -> DemandedList
    requires { length entries.now ≤ 64 }
    ensures { result ≡ map (demand_within draft.now) entries.now }
{
    let mut list = DemandedList::new();
    for entry in entries {
        list.push(Condition {
            sense: entry.sense,
            target: target_within(draft, entry.target),
        });
    }
    list
}

/// The condition of a scope before its list.
fn with_condition(condition: Option<Condition>, entries: &[Condition]) -> DemandedList
    requires { length entries.now < 64 }
    ensures { result ≡ with_condition_of condition entries.now }
{
    let mut list = DemandedList::new();
    if let Some(condition) = condition {
        list.push(condition);
    }
    for entry in entries {
        list.push(*entry);
    }
    list
}

/// The list after a scope.
pub(crate) fn demands_after(draft: &Draft, scope: &Scope, entries: &[Condition]) -> DemandedList
    requires { length entries.now < 64 }
    ensures list { result ≡ demands_after_of draft.now scope.now.kind scope.now.condition entries.now }
    ensures room { length result ≤ length entries.now + 1 }
{
    match scope.kind {
        Kind::Exists => with_condition(scope.condition, entries),
        Kind::Forall => demands_within(draft, first_namings(entries).entries()),
    }
}

fn is_sum(fold: Fold) -> bool
    ensures { result ≡ is_sum_fold fold }
{
    match fold {
        Fold::Sum => true,
        Fold::Least(_) => false,
        Fold::Greatest(_) => false,
    }
}

/// Whether the target is an aggregate by least or greatest.
fn is_bottleneck(draft: &Draft, target: Target) -> bool
    ensures { result ≡ is_bottleneck_target draft.now target }
{
    match target {
        Target::Var(_) => false,
        Target::Aggregate(q) => match draft.aggregates.get(q.0 as usize) {
            Some(aggregate) => !is_sum(aggregate.fold),
            None => true,
        },
    }
}

/// Whether `other` is a variable, or the aggregate `target`.
fn names_no_other(target: Target, other: Target) -> bool
    ensures { result ≡ names_no_other_than target other }
{
    match other {
        Target::Var(_) => true,
        Target::Aggregate(q) => is_aggregate(q, target),
    }
}

fn none_other(target: Target, entries: &[Condition]) -> bool
    ensures { result ≡ list_all (λ b. names_no_other_than target b.target) entries.now }
{
    entries
        .iter()
        .all(|entry| names_no_other(target, entry.target))
}

/// The number of the target, where it is by least or greatest and the entries name a different
/// aggregate.
fn followed(draft: &Draft, target: Target, entries: &[Condition]) -> Option<u8>
    ensures { result ≡ followed_of draft.now target entries.now }
{
    match target {
        Target::Var(_) => None,
        Target::Aggregate(q) => {
            if !is_bottleneck(draft, target) || none_other(target, entries) {
                None
            } else {
                Some(q.0)
            }
        }
    }
}

fn lesser(a: Option<u8>, b: Option<u8>) -> Option<u8>
    ensures { result ≡ lesser_of a b }
{
    match a {
        Some(m) => match b {
            Some(n) => Some(m.min(n)),
            None => Some(m),
        },
        None => b,
    }
}

fn least_followed(draft: &Draft, entries: &[Condition]) -> Option<u8>
    ensures { result ≡ least_followed_of draft.now entries.now }
{
    match entries.split_first() {
        Some((entry, rest)) => lesser(
            followed(draft, entry.target, rest),
            least_followed(draft, rest),
        ),
        None => None,
    }
}

fn followed_in_scope(draft: &Draft, scope: &Scope, entries: &[Condition]) -> Option<u8>
    ensures { result ≡ of_kind scope.now.kind None (least_followed_of draft.now entries.now) }
{
    match scope.kind {
        Kind::Exists => None,
        Kind::Forall => least_followed(draft, entries),
    }
}

fn first_among(draft: &Draft, scopes: &[Scope], entries: &[Condition]) -> Option<u8>
    requires { length entries.now + length scopes.now ≤ 64 }
    ensures { result ≡ first_bottleneck_of draft.now scopes.now entries.now }
{
    match scopes.split_first() {
        Some((scope, later)) => lesser(
            followed_in_scope(draft, scope, entries),
            first_among(draft, later, demands_after(draft, scope, entries).entries()),
        ),
        None => None,
    }
}

/// The first aggregate by least or greatest that the list of a universal scope names before a
/// different one. It takes no memory.
pub fn first_bottleneck(draft: &Draft) -> Option<AggId>
    requires { length draft.now.scopes ≤ 64 }
    ensures { option_map (λ q. q.0) result ≡ first_bottleneck_of draft.now draft.now.scopes [] }
{
    match first_among(draft, draft.scopes.as_slice(), [].as_slice()) {
        Some(q) => Some(AggId(q)),
        None => None,
    }
}

/// Whether each universal scope may have its list.
pub(crate) fn bottlenecks_last(draft: &Draft) -> bool
    requires { length draft.now.scopes ≤ 64 }
    ensures { result ≡ bottlenecks_last_of draft.now draft.now.scopes [] }
{
    first_among(draft, draft.scopes.as_slice(), [].as_slice()).is_none()
}
