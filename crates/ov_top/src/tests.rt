//! What no text can say: shelves and sinks that fail at a call, and those that never do. The reports and the
//! refusals stand in the cases of `ov_cases`.
use crate::{Story, stepped_top};
use ov_base::Sequence;
use ov_io::{MemoryShelf, MemorySink, NamedFile, SureShelf, SureSink};
use std::alloc::{AllocError, Global};
use std::process::Abort;
use std::test::Fail;

/// The words of the call, and the files that they name: a topology, a script and an empty schedule.
const WORDS: [&str; 4] = ["step", "a", "b", "c"];

const FILES: [(&str, &str); 3] = [
    (
        "a",
        "centres = 1\npartitions = 1\ngateways = [0]\nwrite = 1\nread = 1\n",
    ),
    ("b", "session a g0\na do put x 5\na do get x\n"),
    ("c", ""),
];

fn file(alloc: Global, name: &str, text: &str) -> Result<NamedFile, AllocError> {
    Ok(NamedFile {
        name: Sequence::from_vec(Vec::from_slice(alloc, name.as_bytes())?),
        bytes: Sequence::from_vec(Vec::from_slice(alloc, text.as_bytes())?),
        failed: 0,
    })
}

fn files_of(alloc: Global) -> Result<Vec<NamedFile>, AllocError> {
    let mut named = Vec::new(alloc);
    for (name, text) in FILES {
        named.push(file(alloc, name, text)?)?;
    }
    Ok(named)
}

fn words_of(alloc: Global) -> Result<Vec<String>, AllocError> {
    let mut owned = Vec::new(alloc);
    for word in WORDS {
        owned.push(String::from_str(alloc, word)?)?;
    }
    Ok(owned)
}

/// Runs the words over the files, where the reads and the puts with these numbers fail: the status and the
/// text that is written are these, and the story has a topology and a script or not, and so many entries.
fn check(
    rt: &impl Abort,
    alloc: Global,
    (reads, puts): (&[u64], &[u64]),
    (status, written): (u8, &str),
    (topology, script, entries): (bool, bool, usize),
) -> Result<(), Fail> {
    let words = words_of(alloc)?;
    let mut shelf = MemoryShelf::of(files_of(alloc)?, Vec::from_slice(alloc, reads)?);
    let mut out = MemorySink::of(alloc, Vec::from_slice(alloc, puts)?);
    let mut story = Story::empty(alloc);
    let found = stepped_top(alloc, words.as_slice(), &mut shelf, &mut out, &mut story);
    assert_eq!(rt; found, status);
    assert_eq!(rt; out.written(), written.as_bytes());
    assert_eq!(rt; story.topology.is_some(), topology);
    assert_eq!(rt; story.script.is_some(), script);
    assert_eq!(rt; story.entries.len(), entries);
    Ok(())
}

#[test]
fn a_failing_shelf_is_a_read_fault(rt: HostRuntime) -> Result<(), Fail> {
    for (read, text, topology, script) in [
        (1, "read fault: a\n", false, false),
        (2, "read fault: b\n", true, false),
        (3, "read fault: c\n", true, true),
    ] {
        let story = (topology, script, 0);
        check(&rt, rt.alloc(), (&[read], &[]), (7, text), story)?;
    }
    Ok(())
}

#[test]
fn a_failing_sink_leaves_the_lines_before(rt: HostRuntime) -> Result<(), Fail> {
    let story = (true, true, 24);
    check(&rt, rt.alloc(), (&[], &[1]), (8, ""), story)?;
    check(&rt, rt.alloc(), (&[], &[2]), (8, "a 1 done 1.0\n"), story)?;
    check(&rt, rt.alloc(), (&[1], &[1]), (8, ""), (false, false, 0))
}

#[test]
fn a_sure_shelf_and_a_sure_sink_give_the_report(rt: HostRuntime) -> Result<(), Fail> {
    let words = words_of(rt.alloc())?;
    let mut shelf = SureShelf::of(files_of(rt.alloc())?);
    let mut out = SureSink::new(rt.alloc());
    let mut story = Story::empty(rt.alloc());
    let status = stepped_top(
        rt.alloc(),
        words.as_slice(),
        &mut shelf,
        &mut out,
        &mut story,
    );
    assert_eq!(rt; status, 0);
    let report = "a 1 done 1.0\na 2 done 2.0 x=5\n";
    assert_eq!(rt; out.written(), report.as_bytes());
    Ok(())
}
