//! The follower's last best replies.
use crate::stop::Stop;
use std::alloc::Global;

/// A tuple that the follower could count on, the value of his wish, and that of his first open variable which led to it.
#[derive(Drop)]
pub struct Reply {
    pub tuple: Vec<i64>,
    pub value: i64,
    pub lead: Option<i64>,
}

/// For each answer of the opponent, by its number, the follower's best reply when it was last looked for.
#[derive(Drop)]
pub struct Replies {
    kept: Vec<Option<Reply>>,
}

impl Replies {
    /// Nothing is known.
    pub fn new(alloc: Global) -> Replies {
        Replies {
            kept: Vec::new(alloc),
        }
    }

    /// The reply at an answer.
    pub fn at(&self, answer: usize) -> Option<&Reply> {
        match self.kept.get(answer) {
            None => None,
            Some(reply) => reply.as_ref(),
        }
    }

    /// Keeps the reply at an answer.
    pub fn note(&mut self, answer: usize, reply: Reply) -> Result<(), Stop> {
        for _ in self.kept.len()..answer.saturating_add(1) {
            self.kept.push(None)?;
        }
        if let Some(place) = self.kept.get_mut(answer) {
            *place = Some(reply);
        }
        Ok(())
    }
}
