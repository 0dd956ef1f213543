//! What no text can say: copies, and lines that are added.
use crate::{Schedule, Script, ScriptLine};
use ov_base::Plain;
use std::alloc::Global;
use std::process::Abort;
use std::test::Fail;

/// Two sessions; the second waits for the first's only command.
const SCRIPT: &str = "session a g0
session b g1
a do move x y 3 ; get z
b after a 1
";

/// The script is printed as the text.
fn prints(rt: &impl Abort, alloc: Global, script: &Script, text: &str) -> Result<(), Fail> {
    let mut printed = Vec::new(alloc);
    script.print_to(&mut printed)?;
    assert_eq!(rt; printed.as_slice(), text.as_bytes());
    Ok(())
}

#[test]
fn a_line_that_is_added_to_a_copy_leaves_its_source(rt: HostRuntime) -> Result<(), Fail> {
    let script = Script::read(rt.alloc(), SCRIPT.as_bytes(), 2)?;
    let mut copy = script.copy()?;
    let line = ScriptLine::parse(rt.alloc(), b"b snap x y")?.ok_or("a line")?;
    assert!(rt; line.can_add());
    copy.add(line)?;
    let text = "session a g0\nsession b g1\na do move x y 3 ; get z\nb after a 1\nb snap x y\n";
    prints(&rt, rt.alloc(), &copy, text)?;
    prints(&rt, rt.alloc(), &script, SCRIPT)
}

#[test]
fn a_copy_of_a_schedule_has_its_steps(rt: HostRuntime) -> Result<(), Fail> {
    let text = b"begin a 1\ntake n0.0 1 2\npublish g0 3\nask e0 one\nsettle e0\nstop e0\n";
    let schedule = Schedule::read(rt.alloc(), text)?;
    let copy = schedule.copy()?;
    assert!(rt; copy.steps() == schedule.steps());
    assert_eq!(rt; copy.steps().len(), 6);
    for step in copy.steps() {
        assert!(rt; step.copy()? == *step);
    }
    Ok(())
}
