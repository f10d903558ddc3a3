//! What becomes of the frames of a script's run: on a fit script each one that is taken once every status is OK leaves within
//! its bound, and reaches every other node once and unchanged; and nothing else arrives.
//!
//! This crate is definitions and laws. What is delivered stands in `specs/Delivered.antt`, over the leavings and arrivals of
//! `t1s_line`. The layer above cites the laws, in the module `laws`, for the ticks that it has played.
#![tactic(auto)]

pub mod laws;
