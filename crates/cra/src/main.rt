//! `cra`: a verified analyser of numeric C. The words of the command line, standard input and
//! standard output go to `run`, whose contract says what the program does.
#![tactic(auto)]

use commands::{Status, run};
use cra_io::{ReadSource, WriteSink};
use std::alloc::AllocError;
use std::io::ErrorKind;
use std::process::ExitCode;
use std::{env, io};

/// The words of the command line. Where the system gives words that are no text, there are none.
fn words_given(rt: &HostRuntime) -> Result<Vec<String>, AllocError> {
    match env::args(rt) {
        Ok(words) => words.collect(rt.alloc()),
        Err(error) => match error.kind() {
            ErrorKind::OutOfMemory => Err(AllocError),
            _ => Ok(Vec::new(rt.alloc())),
        },
    }
}

fn main(rt: HostRuntime) -> ExitCode {
    let mut source = ReadSource::new(rt.stdin());
    let mut sink = WriteSink::new(io::writer(&rt));
    match words_given(&rt) {
        Ok(words) => ExitCode::from(run(rt.alloc(), &words, &mut source, &mut sink).code()),
        Err(_) => ExitCode::from(Status::WantOfMemory.code()),
    }
}
