//! What no clause says: where there is memory enough the script is made, and its text is the one that was worked out by hand.
ghost use Rattle.std.specs.Prelude.{◌≤◌};
ghost use Rattle.ov_session.specs.Standing.{most_commands};

use crate::make_script;
use std::alloc::Global;
use std::process::Abort;
use std::test::Fail;

/// The lines up to the first middle command.
const OPENING: &str = "session s0 g0
session s1 g1
session s2 g2
session s3 g0
session s4 g1
session s5 g2
session s6 g0
session s7 g1
session s8 g2
session s9 g0
session s10 g1
session s11 g2
session s12 g0
session s13 g1
session s14 g2
session s15 g0
session s16 g1
session s17 g2
session s18 g0
s0 do put k0 1000000 ; put k1 1000000 ; put k2 1000000 ; put k3 1000000 ; put k4 1000000 ; put k5 1000000 ; put k6 1000000 ; put k7 1000000
s1 after s0 1
s2 after s0 1
s3 after s0 1
s4 after s0 1
s5 after s0 1
s6 after s0 1
s7 after s0 1
s8 after s0 1
s9 after s0 1
s10 after s0 1
s11 after s0 1
s12 after s0 1
s13 after s0 1
s14 after s0 1
s15 after s0 1
s16 after s0 1
s17 after s0 1
s18 after s0 1
";

/// The middle commands of the number 7 where there are 12 commands, and the waits for them.
const MIDDLE: &str = "s1 do move k6 k7 24
s2 do move k7 k2 31
s3 do move k1 k3 14
s4 do move k1 k0 75
s5 snap k1 k6
s6 do move k3 k6 72
s7 do move k0 k5 4
s8 do move k4 k1 7
s9 do move k3 k6 12
s10 do move k6 k0 100000000000000000
s0 after s1 1
s0 after s2 1
s0 after s3 1
s0 after s4 1
s0 after s5 1
s0 after s6 1
s0 after s7 1
s0 after s8 1
s0 after s9 1
s0 after s10 1
";

/// The last line.
const GETS: &str = "s0 do get k0 ; get k1 ; get k2 ; get k3 ; get k4 ; get k5 ; get k6 ; get k7
";

/// The text of the made script of the number 7 is these parts, one behind the other.
fn is_spelled(rt: &impl Abort, alloc: Global, commands: u32, parts: &[&str]) -> Result<(), Fail>
    requires { (2 ≤ commands) × (commands ≤ most_commands) }
{
    let (_topology, script) = make_script(alloc, 7, commands)?;
    let mut printed = Vec::new(alloc);
    script.print_to(&mut printed)?;
    let mut text = Vec::new(alloc);
    for part in parts {
        text.extend_from_slice(part.as_bytes())?;
    }
    assert_eq!(rt; printed.as_slice(), text.as_slice());
    Ok(())
}

#[test]
fn two_commands_put_and_get(rt: HostRuntime) -> Result<(), Fail> {
    is_spelled(&rt, rt.alloc(), 2, &[OPENING, GETS])
}

#[test]
fn ten_middle_commands_have_a_snapshot_and_a_move_that_aborts(rt: HostRuntime) -> Result<(), Fail> {
    is_spelled(&rt, rt.alloc(), 12, &[OPENING, MIDDLE, GETS])
}
