//! Scripts: what a segment is to be run with, how a script is read from its octets, and which are fit.
//!
//! The layer above uses that `read_script` answers what the definition gives, and that the script of an
//! `Ok` is valid (`IsScript` in `specs/Script.antt`). The definition, `script_of` in `specs/Reading.antt`,
//! speaks of the list of all lines; what a line says by itself stands in `specs/ParsedLine.antt`, and the rules
//! that it can break in the light of the lines before it in `specs/Rules.antt`. The frames that lines offer
//! stand in `specs/FrameTexts.antt`. `specs/Draft.antt` is only what the code keeps while it reads. Fit
//! scripts, the span and the bound stand in `specs/Fit.antt`.
#![tactic(auto)]

mod draft;
mod fitness;
mod frame_texts;
mod kept_acts;
pub mod laws;
mod parsing;
mod reading;
mod refusals;
mod script;
mod text;
mod versions;
mod words;

pub use fitness::{Unfit, bound, fit, span};
pub use reading::read_script;
pub use refusals::{ScriptFault, ScriptReason, ScriptRefusal};
pub use script::{Act, ActList, Deed, DrawList, NodeLine, NodeList, Script};

#[cfg(test)]
mod frame_tests;
#[cfg(test)]
mod ids_tests;
#[cfg(test)]
mod stub_tests;
#[cfg(test)]
mod tests;
