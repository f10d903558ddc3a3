//! The laws of the data path: what holds in every run of its table from its start.

ghost use Rattle.plca_data.specs.Laws.{KeepsRanges, KeepsLineEmpty};

/// The count of a wait stays from 1 to 512, and the line is a line: at most 97 nibbles, each below 16.
pub fn keeps_ranges()
    ensures { KeepsRanges }
{}

/// The line is empty in each state in which nothing waits or goes through it.
pub fn keeps_line_empty()
    ensures { KeepsLineEmpty }
{}
