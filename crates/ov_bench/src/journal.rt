//! Reading and writing journals.
ghost use Rattle.std.specs.List.{AllByRecursion};
ghost use Rattle.ov_journal.specs.Line.{HasLine};

use crate::task::Task;
use anyhow::{Context, Result, bail};
use ov_event::Entry;
use ov_io::SureSink;
use ov_journal::{read_journal, write_journal};
use std::fs;

/// A journal of about so many bytes: the lines of the file, over and over.
fn text_of(rt: &HostRuntime, task: &Task) -> Result<Vec<u8>> {
    let name = task.words.first().context("FILE")?;
    let text = fs::read_to_string(rt, name.as_str())?;
    let (head, lines) = text.as_str().split_once('\n').context("a journal")?;
    let mut bytes = Vec::from_slice(rt.alloc(), head.as_bytes())?;
    bytes.push(b'\n')?;
    for _ in 0..task.size.checked_div(lines.len()).unwrap_or(0) {
        bytes.extend_from_slice(lines.as_bytes())?;
    }
    Ok(bytes)
}

/// Reads the journal so often; how many entries it has.
pub fn read(rt: &HostRuntime, task: &Task) -> Result<usize> {
    let text = text_of(rt, task)?;
    let mut count = 0;
    for _ in 0..task.times {
        count = read_journal(rt.alloc(), text.as_slice())?.len();
    }
    Ok(count)
}

/// Writes the entries of the journal so often into memory; how many bytes that gives.
pub fn write(rt: &HostRuntime, task: &Task) -> Result<usize> {
    let text = text_of(rt, task)?;
    let entries = read_journal(rt.alloc(), text.as_slice())?;
    let mut count = 0;
    for _ in 0..task.times {
        count = written(rt, entries.as_slice())?;
    }
    Ok(count)
}

/// Writes the entries into memory; how many bytes that gives.
fn written(rt: &HostRuntime, entries: &[Entry]) -> Result<usize>
    requires { AllByRecursion HasLine entries.now }
{
    let mut sink = SureSink::new(rt.alloc());
    if write_journal(rt.alloc(), entries, &mut sink).is_err() {
        bail!("out of memory");
    }
    Ok(sink.written().len())
}
