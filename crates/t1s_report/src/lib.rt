//! The texts that the program writes, line by line.
//!
//! The layer above uses that each call of this crate gives exactly the line that its definition names, and that `Writer`
//! writes the line of each event that it is told. The lines stand in `specs/EventLines.antt`, `specs/SummaryLines.antt`,
//! `specs/FitnessLines.antt`, `specs/RefusalLines.antt`, `specs/ItemLines.antt` and `specs/OffenceLines.antt`; what a
//! writer does with a text in `specs/WriterStep.antt`. The whole texts that are made of lines and octets are the report
//! in `specs/Report.antt`, the capture of what a node hears in `specs/HeardText.antt`, and the text of a decoded capture
//! in `specs/DecodedText.antt`. The summary as one JSON object stands in `specs/JsonSummary.antt`, and the pcap file of a
//! node, which `PcapWriter` writes, in `specs/PcapText.antt`. That all octets have one decoded text, and no octets are the
//! pcap file of two lists of records, are laws, in the module `laws`.
#![tactic(auto)]

mod arrival_texts;
mod event_lines;
mod fields;
mod fitness_lines;
mod item_lines;
mod json_summary;
pub mod laws;
mod offence_lines;
mod pcap_texts;
mod pcap_writer;
mod refusal_lines;
mod summary_lines;
mod writer;

pub use event_lines::event_line;
pub use fitness_lines::check_line;
pub use item_lines::{end_line, item_line};
pub use json_summary::json_of;
pub use offence_lines::offence_line;
pub use pcap_texts::{PcapHead, pcap_head, pcap_record};
pub use pcap_writer::PcapWriter;
pub use refusal_lines::refused_line;
pub use summary_lines::{node_line, summary_line};
pub use writer::Writer;
