//! The cable of a segment: what each node drove in the last ticks, and what a node hears of it in this tick.
//!
//! The layer above uses that a `Cable` stands for the whole history of what was put on it (`Stands` in
//! `specs/Stands.antt`), though it keeps no more than the longest cable needs: `put` and `turn` extend that
//! history, and `heard` is what the world hears over all of it (`specs/Hearing.antt` of `t1s_world`). What
//! contracts see of a cable stands in `specs/State.antt`. Of each node it keeps a ring of changes: the ticks in which
//! something else began than what went on, silence or a symbol (`specs/Changes.antt`). It also counts
//! in how many ticks a quarter may still be on its way (`specs/Silence.antt`), so that silence costs little. By that
//! count `calm_for` and `pass` answer for any number of silent ticks at once (`specs/Calm.antt`). Only `Cable::new` takes
//! memory.
#![tactic(auto)]

mod cable;
mod calm;
mod changes;
mod kept;

pub use cable::Cable;

#[cfg(test)]
mod tests;
