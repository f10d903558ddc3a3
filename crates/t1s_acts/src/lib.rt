//! The acts of a script as its run comes to them, and the offers among them.
//!
//! The layer above keeps the acts that are still to come as `UpcomingActs`, seen as the list of these acts: `take_due`
//! hands out the next one by value where its tick has come, and `free_for` tells how many ticks are free of acts. Beside
//! them it keeps how each offer stands, at the offer's number: `first_states` before the first tick, then `keep_outcome`
//! and `keep_leave`, and `wait_of` is what is told of it. Memory is taken by `UpcomingActs::new` and `first_states` alone.
//! What the acts of a tick are, and how an offer stands, is defined in `t1s_line`; the acts that are to come stand in
//! `specs/Upcoming.antt`.
#![tactic(auto)]

mod offer_states;
#[cfg(test)]
mod tests;
mod upcoming;

pub use offer_states::{first_states, keep_leave, keep_outcome, wait_of};
pub use upcoming::UpcomingActs;
