//! Runs the cases of text files, for development: nothing stands on this program, and the command does not ship
//! with it. A case says what is done, with which input, and what has to come of it; so the files of `data/` are
//! the tests of whatever a text can say, and a page to learn the texts from.
//!
//! The promise: one line is printed for each case of each file that the words name, in their order, and for a
//! case that fails what was wanted and what came; the last line counts them; the status is 0 only where none
//! failed. Nothing of that is a clause: it is read off `main`, and the gate compares what is printed.
//!
//! Start with the head of `data/reports.cases`, then `case.rt`, the form of a case. A further kind of case is an
//! arm of [`outcome_of`] with a module of its own.
#![tactic(auto)]

mod block;
mod case;
mod command;
mod fault;
mod line;
mod story;
mod text;
mod world;

use anyhow::{Context, Result};
use case::{Case, cases_of};
use fault::CaseFault;
use line::bytes_of;
use std::io::Write;
use std::process::ExitCode;
use std::{env, fs, io};

/// How many cases were run, and how many of them failed.
#[derive(Drop)]
struct Tally {
    cases: u64,
    failed: u64,
}

fn main(rt: HostRuntime) -> Result<ExitCode> {
    let mut tally = Tally {
        cases: 0,
        failed: 0,
    };
    for name in env::args(&rt)?.skip(1) {
        run_file(&rt, name.as_str(), &mut tally)?;
    }
    let Tally { cases, failed } = tally;
    println!(rt; "{cases} cases, {failed} failed")?;
    if failed == 0 {
        Ok(ExitCode::SUCCESS)
    } else {
        Ok(ExitCode::FAILURE)
    }
}

/// Runs the cases of a file. A file that cannot be read, or is not in the form of a case file, ends the run.
fn run_file(rt: &HostRuntime, name: &str, tally: &mut Tally) -> Result<()> {
    let text = fs::read_to_string(rt, name).context(format_args!("{name}"))?;
    let cases = cases_of(rt.alloc(), text.as_str()).context(format_args!("{name}"))?;
    for case in cases.as_slice() {
        run_case(rt, name, case, tally)?;
    }
    Ok(())
}

/// Runs a case, prints its line, and counts it.
fn run_case(rt: &HostRuntime, name: &str, case: &Case, tally: &mut Tally) -> Result<()> {
    let came = outcome_of(rt, case).context(format_args!("{name}"))?;
    let wanted = bytes_of(rt.alloc(), &case.wanted).context(format_args!("{name}"))?;
    tally.cases = tally.cases.saturating_add(1);
    let title = case.title;
    if came.as_slice() == wanted.as_slice() {
        println!(rt; "ok {name}: {title}")?;
        return Ok(());
    }
    tally.failed = tally.failed.saturating_add(1);
    let number = case.number;
    println!(rt; "FAILED {name}: line {number}: {title}")?;
    print_bytes(rt, "wanted", wanted.as_slice())?;
    print_bytes(rt, "came", came.as_slice())
}

/// What comes of a case, in the form of what is wanted.
fn outcome_of(rt: &HostRuntime, case: &Case) -> Result<Vec<u8>, CaseFault> {
    let head = case.head.text;
    match head.split_once(' ').unwrap_or((head, "")) {
        ("command", words) => command::outcome(rt, words, case),
        ("text", kind) => text::outcome(rt.alloc(), kind, case),
        ("follow", "") => world::followed(rt.alloc(), case),
        ("calm", "") => story::entries(rt, case),
        ("calm", "briefly") => story::briefly(rt, case),
        ("calm", "replies") => story::replies(rt, case),
        ("admit", "") => world::admitted(rt.alloc(), case),
        ("admit", "each") => world::admitted_each(rt.alloc(), case),
        _ => Err(case.head_fault()),
    }
}

/// Prints bytes under a heading, lines as they are.
fn print_bytes(rt: &HostRuntime, heading: &str, bytes: &[u8]) -> Result<()> {
    println!(rt; "{heading}:")?;
    io::writer(rt).write_all(bytes)?;
    Ok(())
}
