//! The program: the process's words, standard input and output, handed to the top call; why it isn't done is told on standard error.
#![tactic(auto)]

mod advice;

use advice::advise;
use mem_slots::{Choice, SlotUse, fewest_uses, first_mounted};
use penglai_main::{Status, quick};
use pl_io::{StdSink, StdSource};
use std::alloc::{AllocError, Global};
use std::io::ErrorKind;
use std::process::ExitCode;
use std::{env, io};

// The words after the program's name.
fn words_of(alloc: Global, arguments: env::Args) -> Result<Vec<String>, AllocError> {
    let mut words = Vec::new(alloc);
    for word in arguments.skip(1) {
        words.push(word)?;
    }
    Ok(words)
}

// What the process is asked for, done.
fn status_of(rt: HostRuntime) -> Status {
    let alloc = rt.alloc();
    let arguments = match env::args(&rt) {
        Ok(arguments) => arguments,
        Err(error) if error.kind() == ErrorKind::OutOfMemory => return Status::NoMemory,
        Err(_) => return Status::BadWords,
    };
    match words_of(alloc, arguments) {
        Ok(words) => quick(
            alloc,
            &words,
            &mut StdSource::new(rt.reader()),
            &mut StdSink::new(io::writer(&rt)),
            Choice::new(|slots: &[SlotUse]| first_mounted(slots)),
            Choice::new(|slots: &[SlotUse]| fewest_uses(slots)),
        ),
        Err(_) => Status::NoMemory,
    }
}

fn main(rt: HostRuntime) -> ExitCode {
    let status = status_of(rt);
    // Where standard error takes nothing, the status alone tells.
    let _ = advise(&rt, status);
    ExitCode::from(status.code())
}
