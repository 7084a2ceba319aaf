//! Closing on a store: the greatest closed box within a box, in place. No closing takes memory.
//!
//! A closing takes ends that constraints refute, in whatever order, and comes to the one greatest closed box, or shows that there
//! is none (`dense_closing`). So a checker of dense certificates needs no steps. `Closer` keeps the constraints that are to be
//! looked at in a queue. One that is taken out is held against each of its variables that it may take and that have several values
//! left: what it refutes at their ends goes, and each constraint of the span that has such a variable waits again, itself among
//! them unless it is known to keep the box. Where it took nothing it keeps the box; where it refutes the box as it is, no box within is
//! closed. So once none waits, all keep the box, and it is closed.
//!
//! Nor does a closing begin with all constraints of the span. What was left to each variable when it was last looked at is kept, and
//! which constraints weren't found settled since then (`memory`): where a constraint's variables all have the values that they had,
//! and it kept the box then, it keeps this one, whatever was done to the box in between. What constraints may take is one of two
//! choices, and what was settled by one tells nothing of the other: for each, up to 32 memories are kept, of the closings on the way to
//! the box, and a closing begins with the last of them (`memories`).
//!
//! A constraint in which no variable stands twice is first read as a whole (`dense_quiet`). Mostly that tells that it refutes nothing
//! that it may take, or how far each variable can go, and what lies past that goes (`advising`): for sums without a further question
//! (`trimming`), else where the constraint, asked once, refutes it. A sum that is to be at most a number keeps the box that it leaves so,
//! and doesn't wait again for what it took (`bounding`). Other values go by stretches (`cutting`): where a constraint refutes an end, it
//! is asked of twice as many numbers from there on, as long as it refutes them together.
#![tactic(auto)]

mod advising;
mod answerless;
mod bounding;
mod closer;
mod cutting;
mod having;
mod index;
mod memories;
mod memory;
mod refuting;
mod revising;
mod task;
mod trimming;
mod waiting;
mod waking;

pub use closer::Closer;
