//! The program `oceanvista`: it makes the real shelf and the real sink, and does what
//! [`ov_top::stepped_top`] does with the words of the command line.
//!
//! The promise to the user: the status and the bytes written are those of that call, whose clauses carry
//! the theorem. Nothing else is decided here.
#![tactic(auto)]

use ov_io::{FileShelf, StdoutSink};
use ov_top::{Story, stepped_top};
use std::alloc::AllocError;
use std::process::ExitCode;
use std::{env, io, mem};

/// The status where memory runs out before the words are known.
const NO_MEMORY: u8 = 9;

fn main(rt: HostRuntime) -> ExitCode {
    let words = match words_of(&rt) {
        Ok(words) => words,
        Err(AllocError) => return ExitCode::from(NO_MEMORY),
    };
    let mut shelf = FileShelf::new(&rt);
    let mut out = StdoutSink::new(io::writer(&rt));
    let mut story = Story::empty(rt.alloc());
    let status = stepped_top(
        rt.alloc(),
        words.as_slice(),
        &mut shelf,
        &mut out,
        &mut story,
    );
    // The program ends: the system takes the story's memory back at once.
    mem::forget(story);
    ExitCode::from(status)
}

/// The words behind the program's name. Where they cannot be had, as where one is not UTF-8, there are
/// none, which is a faulty command line.
fn words_of(rt: &HostRuntime) -> Result<Vec<String>, AllocError> {
    match env::args(rt) {
        Ok(words) => words.skip(1).collect(rt.alloc()),
        Err(_) => Ok(Vec::new(rt.alloc())),
    }
}
