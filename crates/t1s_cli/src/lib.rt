//! All that the program does, as one call over a source and a sink.
//!
//! The program uses that `workbench` writes what the task that its words ask for gives for the input that it reads, and
//! that each of its answers has the cause that its clauses name. A command is a row of words in `specs/Words.antt`, a task
//! with what it gives for an input in `specs/Answers.antt`, and a file that does it, as `run_command.rt`. The texts
//! themselves stand in the crate `t1s_report`.
//!
//! How the writing of a text ends stands in `specs/TextOutcome.antt`, how far a decoding has come in
//! `specs/DecodeProgress.antt`, and what a whole call has done with a script or a capture in `specs/ScriptCall.antt` and
//! `specs/CaptureCall.antt`. The laws of the run of a script stand in `specs/RunLaws.antt`.
#![tactic(auto)]

mod capture_command;
mod check_command;
mod commands;
mod decode_command;
mod generated_commands;
mod json_command;
mod pcap_command;
mod program;
mod run_command;
mod script_commands;
mod script_input;
mod status;
mod text_end;
mod unread;

pub use program::workbench;
pub use run_command::play;
pub use status::Status;

#[cfg(test)]
mod capture_tests;
#[cfg(test)]
mod collision_rows;
#[cfg(test)]
mod counted_calls;
#[cfg(test)]
mod cut_tests;
#[cfg(test)]
mod decode_tests;
#[cfg(test)]
mod fault_tests;
#[cfg(test)]
mod generated_tests;
#[cfg(test)]
mod ids_tests;
#[cfg(test)]
mod json_tests;
#[cfg(test)]
mod noise_rows;
#[cfg(test)]
mod noise_tests;
#[cfg(test)]
mod offer_rows;
#[cfg(test)]
mod offer_tests;
#[cfg(test)]
mod pcap_tests;
#[cfg(test)]
mod stream_tests;
#[cfg(test)]
mod stub_tests;
#[cfg(test)]
mod tests;
#[cfg(test)]
mod wide_tests;
