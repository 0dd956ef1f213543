//! Does a piece of work many times over, for measures that no command reaches: nothing stands on this program, and
//! the command does not ship with it.
//!
//! `ov_bench WORD SIZE TIMES FURTHER..` makes the input of that SIZE once, from files or by a linear loop, does the
//! work of WORD over it TIMES over, and prints what the last time gave. So the cost of the work is that of a run less
//! that of a run with TIMES 0, divided by TIMES; the scripts in `bench/` do this. The words and what stands behind TIMES:
//!
//! - `read_journal`, `write_journal` FILE: a journal of about SIZE bytes, from the lines of the FILE.
//! - `plan_window`, `plan_keys`: a window of SIZE items, on 8 keys or on half as many keys as items.
//! - `eval_plan`, `force_all`, `force_last` KEYS: the plan of SIZE sums on so many keys, which is evaluated, or whose places or last
//!   place are forced in cells that are made of it each time.
//! - `force_threads` KEYS THREADS: the same plan, whose places so many threads force once; TIMES 0 leaves that out.
//! - `fill_lists` ORDER KEYS: SIZE insertions into version lists, in that order, on so many keys.
//! - `keep_lists`, `keep_vector`: SIZE functors kept on 8 keys, for the memory that they take.
//! - `compare_lists`: SIZE calls on version lists and on plain code, where TIMES says for how many sequences of calls. It
//!   ends with status 1 at the first difference.
//! - `calm`, `drive` TOPOLOGY SCRIPT: calm rounds over a script, and the lines that they followed; SIZE says nothing.
//!
//! A further word is an arm of [`work`] with a module of its own.
#![tactic(auto)]

mod cells;
mod compare;
mod journal;
mod keep;
mod lists;
mod rounds;
mod sorted;
mod sum;
mod task;
mod window;

use anyhow::{Context, Result, bail};
use std::env;
use std::thread::Threads;
use task::Task;

fn main(rt: HostRuntime) -> Result<()> {
    let words = env::args(&rt)?.skip(1).collect::<Vec<String>>(rt.alloc())?;
    let [word, size, times, further @ ..] = words.as_slice() else {
        bail!("usage: ov_bench WORD SIZE TIMES FURTHER..");
    };
    let task = Task {
        size: size.as_str().parse::<usize>().context("SIZE")?,
        times: times.as_str().parse::<u64>().context("TIMES")?,
        words: further,
    };
    let count = work(&rt, &rt, word.as_str(), &task)?;
    println!(rt; "{word} {count}")?;
    Ok(())
}

/// Does the work of a word, with threads that the starter starts; how many things the last time gave.
fn work<R: Threads + Sync>(
    rt: &HostRuntime,
    starter: &R,
    word: &str,
    task: &Task,
) -> Result<usize> {
    match word {
        "read_journal" => journal::read(rt, task),
        "write_journal" => journal::write(rt, task),
        "plan_window" => window::plan(rt, task, 8),
        "plan_keys" => window::plan(rt, task, task.size / 2),
        "eval_plan" => window::evaluate(rt, task),
        "force_all" => cells::force_all(rt, task),
        "force_last" => cells::force_last(rt, task),
        "force_threads" => cells::force_threads(rt, starter, task),
        "fill_lists" => lists::fill(rt, task),
        "keep_lists" => keep::in_lists(rt, task),
        "keep_vector" => keep::in_vector(rt, task),
        "compare_lists" => compare::lists(rt, task),
        "calm" => rounds::calmed(rt, task),
        "drive" => rounds::driven(rt, task),
        _ => bail!("no such word: {word}"),
    }
}
