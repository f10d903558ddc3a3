//! The program `t1s`, over standard input and standard output.
//!
//! `t1s_cli::workbench` does all the work, and its contract says what the program reads and writes and
//! how it ends. Here stand only the words of the command line and the two streams. What is written is held in
//! a room of 64 KiB before it is passed on.
#![tactic(auto)]

mod room_writer;

use room_writer::RoomWriter;
use std::alloc::Global;
use std::env;
use std::io::{self, ErrorKind, Read, Write};
use std::process::ExitCode;
use t1s_base::{Sink, StdSink, StdSource};
use t1s_cli::{Status, workbench};

/// The words after the program's name. A word that isn't UTF-8 is no word of a command.
fn words_of(rt: &HostRuntime) -> Result<Vec<String>, Status> {
    let mut all = match env::args(rt) {
        Ok(all) => all,
        Err(error) if error.kind() == ErrorKind::OutOfMemory => return Err(Status::Memory),
        Err(_) => return Err(Status::Usage),
    };
    let _name = all.next();
    all.collect(rt.alloc()).map_err(|_| Status::Memory)
}

/// Runs the words over the two streams. Where reading failed, the lines that are still held are passed on.
fn run<R: Read + Drop, W: Write + Drop>(
    alloc: Global,
    words: &[String],
    input: R,
    output: W,
) -> Status {
    let mut source = StdSource::new(input);
    let mut sink = StdSink::new(RoomWriter::new(output));
    let status = workbench(alloc, words, &mut source, &mut sink);
    if status == Status::ReadFault && sink.finish().is_err() {
        return Status::WriteFault;
    }
    status
}

fn main(rt: HostRuntime) -> ExitCode {
    let status = match words_of(&rt) {
        Ok(words) => run(rt.alloc(), words.as_slice(), rt.reader(), io::writer(&rt)),
        Err(status) => status,
    };
    ExitCode::from(status.exit_code())
}
