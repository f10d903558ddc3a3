//! The program `t1s_draw`, over standard input and standard output.
//!
//! `t1s_drawing::draw` does all the work, and its contract says what the program reads and writes and how it ends. Here
//! stand only the words of the command line and the two streams.
#![tactic(auto)]

use std::env;
use std::io::{self, Read, Write};
use std::process::ExitCode;
use t1s_base::{StdSink, StdSource};
use t1s_drawing::{Status, draw};

/// Where memory for the words is refused.
const NO_MEMORY: u8 = 5;

/// The words after the program's name. A word that isn't UTF-8 is no word of a command.
fn words_of(rt: &HostRuntime) -> Result<Vec<String>, u8> {
    let mut all = match env::args(rt) {
        Ok(all) => all,
        Err(error) if error.kind() == io::ErrorKind::OutOfMemory => return Err(NO_MEMORY),
        Err(_) => return Err(Status::Usage.exit_code()),
    };
    let _name = all.next();
    all.collect(rt.alloc()).map_err(|_| NO_MEMORY)
}

/// Runs the words over the two streams.
fn run<R: Read + Drop, W: Write + Drop>(words: &[String], input: R, output: W) -> Status {
    let mut source = StdSource::new(input);
    let mut sink = StdSink::new(output);
    draw(words, &mut source, &mut sink)
}

fn main(rt: HostRuntime) -> ExitCode {
    match words_of(&rt) {
        Ok(words) => ExitCode::from(run(
            words.as_slice(),
            rt.reader(),
            io::writer(&rt),
        ).exit_code()),
        Err(code) => ExitCode::from(code),
    }
}
