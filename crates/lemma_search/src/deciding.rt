//! Which value is taken next.
use crate::ordering::Order;
use lemma_analysis::Analyst;
use lemma_engine::{Choice, Engine};
use qc_model::{Kind, VarId};
use std::alloc::{AllocError, Global};

/// The values that are to be tried first: of a clause's variable that which makes most clauses true, where the player
/// chooses it, or false, where the opponent does.
pub(crate) fn first_values(alloc: Global, engine: &Engine) -> Result<Vec<Option<i64>>, AllocError> {
    let mut more = vec![in alloc; 0i64; engine.facts.variables()]?;
    for k in 0..engine.facts.rules() {
        let c = qc_model::ConId(u16::try_from(k).unwrap_or(u16::MAX));
        for item in engine.facts.items_of(c) {
            if let Some(count) = more.get_mut(item.x.0 as usize) {
                *count = count.saturating_add(if item.value == 1 { 1 } else { -1 });
            }
        }
    }
    let mut values = Vec::new(alloc);
    for (k, count) in more.iter().enumerate() {
        let is_players = engine.facts.side_of(variable(k)) == Kind::Exists;
        values.push(if *count == 0 {
            None
        } else if is_players == (*count > 0) {
            Some(1)
        } else {
            Some(0)
        })?;
    }
    Ok(values)
}

fn variable(k: usize) -> VarId {
    VarId(u16::try_from(k).unwrap_or(u16::MAX))
}

/// A value of the scope's open variable on which most conflicts rested of late: the one that it had last.
pub(crate) fn next_choice(
    engine: &Engine,
    analyst: &mut Analyst,
    order: &mut Order,
) -> Option<Choice> {
    let (found, gone_over) = order.first_open(engine, analyst.activity.as_slice());
    analyst.go_over(gone_over);
    let x = variable(found?);
    let saved = engine.saved.get(found?).copied().unwrap_or(None);
    let v = match saved {
        Some(v) if engine.boxes.has(x, v) => v,
        _ => engine.boxes.least(x),
    };
    Some(Choice { x, v })
}
