//! The drives of a script's run: on a fit script they are a schedule, and no two of them overlap at any point of the cable,
//! be it of the trunk or of a stub.
//!
//! This crate is definitions and laws. What a schedule is stands in `specs/SharedLine.antt`, over the numbers of
//! `t1s_world`, what its drives hold in `specs/DriveContents.antt`, and the two together in `specs/ScheduledRun.antt`. The
//! layer above cites the laws, in the module `laws`, for the ticks that it has played.
#![tactic(auto)]

pub mod laws;
