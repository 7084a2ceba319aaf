//! Deep strategies are let go.
use qc_model::Numbers;
use qc_play::{Counter, CounterEntry, CounterList, Plan, PlanEntry, PlanList};
use std::alloc::{AllocError, Global};
use std::test::Fail;

/// The numbers with this one alone.
fn one(alloc: Global, value: i64) -> Result<Numbers, AllocError> {
    let mut numbers = Numbers::new(alloc);
    numbers.push(value)?;
    Ok(numbers)
}

/// So many choices, one after the other.
fn choices(alloc: Global, deep: u32) -> Result<Plan, AllocError> {
    let mut plan = Plan::End;
    for _ in 0..deep {
        plan = Plan::Choose(one(alloc, 7)?, Box::new(alloc, plan)?);
    }
    Ok(plan)
}

/// So many answers of one entry, one in the other.
fn answers(alloc: Global, deep: u32) -> Result<Plan, AllocError> {
    let mut plan = Plan::End;
    for _ in 0..deep {
        let mut list = PlanList::new(alloc);
        list.push(PlanEntry {
            tuple: one(alloc, 7)?,
            plan,
        })?;
        plan = Plan::Answer(list);
    }
    Ok(plan)
}

/// So many replies of one entry, one in the other.
fn replies(alloc: Global, deep: u32) -> Result<Counter, AllocError> {
    let mut counter = Counter::End;
    for _ in 0..deep {
        let mut list = CounterList::new(alloc);
        list.push(CounterEntry {
            tuple: one(alloc, 7)?,
            counter,
        })?;
        counter = Counter::Reply(list);
    }
    Ok(counter)
}

#[test]
fn deep_trees_are_let_go(rt: HostRuntime) -> Result<(), Fail> {
    let alloc = rt.alloc();
    let _chosen = choices(alloc, 1000)?;
    let _answered = answers(alloc, 1000)?;
    let _replied = replies(alloc, 1000)?;
    Ok(())
}
