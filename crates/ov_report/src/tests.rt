//! What no text can say: a story without a script, and a sink that fails.
use crate::{Report, report_to, summary_to};
use ov_io::{MemorySink, ReportError, SureSink};
use ov_script::Script;
use ov_world::Story;
use std::process::Abort;
use std::test::Fail;

#[test]
fn a_story_without_a_script_has_the_empty_report(rt: HostRuntime) -> Result<(), Fail> {
    let story = Story::empty(rt.alloc());
    let mut out = SureSink::new(rt.alloc());
    assert!(rt; report_to(rt.alloc(), &story, &mut out) == Ok(()));
    assert!(rt; out.written().is_empty());
    assert!(rt; Report::of(rt.alloc(), &story)?.is_whole());
    Ok(())
}

#[test]
fn a_sink_that_fails_ends_the_report(rt: HostRuntime) -> Result<(), Fail> {
    let mut story = Story::empty(rt.alloc());
    let text = b"session a g0\na do put x 5\na do get x\n";
    story.script = Some(Script::read(rt.alloc(), text, 1)?);
    for (failing, result, written) in [
        (1, Err(ReportError::WriteFault), ""),
        (2, Err(ReportError::WriteFault), "a 1 waiting\n"),
        (3, Ok(()), "a 1 waiting\na 2 waiting\n"),
    ] {
        let mut out = MemorySink::of(rt.alloc(), Vec::from_slice(rt.alloc(), &[failing])?);
        assert!(rt; report_to(rt.alloc(), &story, &mut out) == result);
        assert_eq!(rt; out.written(), written.as_bytes());
    }
    assert!(rt; !Report::of(rt.alloc(), &story)?.is_whole());
    Ok(())
}

#[test]
fn a_story_without_a_script_has_a_summary_of_zeros(rt: HostRuntime) -> Result<(), Fail> {
    let story = Story::empty(rt.alloc());
    let mut out = SureSink::new(rt.alloc());
    assert!(rt; summary_to(rt.alloc(), &story, &mut out) == Ok(()));
    let lines = b"commands 0\ndone 0\naborted 0\nsnapshots 0\nsum 0\n";
    assert_eq!(rt; out.written(), lines.as_slice());
    Ok(())
}
