//! Tuples that were of use to bound a leader's choices while they are open.
use crate::lines::Lines;
use crate::stop::Stop;
use dense_board::Needs;
use qc_model::ScopeId;
use std::alloc::{AllocError, Global};

/// A tuple that was of use, and what it is worth to the leader.
#[derive(Drop)]
pub struct Move {
    pub tuple: Vec<i64>,
    pub worth: i64,
    pub reply: Option<KnownReply>,
}

/// Of a tuple of a follower what he needs to count on it, and the lines that say that he does.
#[derive(Drop)]
pub struct KnownReply {
    pub needs: Needs,
    pub lines: Lines,
}

/// For each scope tuples of it that were of use, the latest first.
#[derive(Drop)]
pub struct Pools {
    pools: Vec<Vec<Move>>,
}

impl Pools {
    /// Without room for a scope.
    pub fn new(alloc: Global) -> Pools {
        Pools {
            pools: Vec::new(alloc),
        }
    }

    /// Makes room for so many scopes.
    pub fn make_room(&mut self, alloc: Global, scopes: usize) -> Result<(), AllocError> {
        for _ in 0..scopes {
            self.pools.push(Vec::new(alloc))?;
        }
        Ok(())
    }

    /// The tuples of the scope.
    pub fn pool(&self, scope: ScopeId) -> &[Move] {
        match self.pools.get(scope.0 as usize) {
            None => &[],
            Some(pool) => pool.as_slice(),
        }
    }

    /// The one at this place.
    pub fn at_mut(&mut self, scope: ScopeId, at: usize) -> Option<&mut Move> {
        self.pools.get_mut(scope.0 as usize)?.get_mut(at)
    }

    /// Keeps a tuple as the latest, where it isn't there, and no more than `most` of them.
    pub fn add(&mut self, scope: ScopeId, found: Move, most: usize) -> Result<(), Stop> {
        let Some(pool) = self.pools.get_mut(scope.0 as usize) else {
            return Ok(());
        };
        for kept in pool.as_slice() {
            if kept.tuple.as_slice() == found.tuple.as_slice() {
                return Ok(());
            }
        }
        if pool.len() >= most {
            let _ = pool.pop();
        }
        pool.insert(0, found)?;
        Ok(())
    }

    /// Brings a tuple further to the front.
    pub fn promote(&mut self, scope: ScopeId, at: usize) {
        if let Some(pool) = self.pools.get_mut(scope.0 as usize)
            && at < pool.len()
        {
            pool.as_mut_slice().swap(at, at / 2);
        }
    }
}
