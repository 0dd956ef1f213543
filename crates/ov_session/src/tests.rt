//! What no contract says: the calls that take memory, on a roster that is built by hand, and a run of one
//! session.
use crate::after::After;
use crate::name::SessionName;
use crate::plan::SessionPlan;
use crate::planned::Planned;
use crate::roster::Roster;
use crate::sessions::Sessions;
use ov_base::{Key, Plain, Sequence};
use ov_functor::Command;
use std::alloc::Global;
use std::test::Fail;

/// The session with a snapshot of x, which waits for these.
fn session(alloc: Global, name: &[u8], gate: u32, after: &[After]) -> Result<SessionPlan, Fail> {
    let key = Key::from_bytes(b"x").ok_or("a key")?;
    let keys = Vec::from_slice(alloc, &[key])?;
    let mut planned = Sequence::new(alloc);
    planned.push(Planned {
        command: Command::Snap(Sequence::from_vec(keys)),
        after: Sequence::from_vec(Vec::from_slice(alloc, after)?),
    })?;
    let name = SessionName::from_bytes(name).ok_or("a name")?;
    Ok(SessionPlan {
        name,
        gate,
        planned,
    })
}

/// Sessions 0 and 2 are of gateway 0, and session 1 of gateway 1 waits for the command of each.
fn three_sessions(alloc: Global) -> Result<Roster, Fail> {
    let both = [After { session: 0, seq: 1 }, After { session: 2, seq: 1 }];
    let mut sessions = Sequence::new(alloc);
    sessions.push(session(alloc, b"a", 0, &[])?)?;
    sessions.push(session(alloc, b"b", 1, &both)?)?;
    sessions.push(session(alloc, b"c", 0, &[])?)?;
    Ok(Roster { sessions })
}

/// Notes that the first command of the session is replied elsewhere, where the roster has the session.
fn tell(sessions: &mut Sessions, session: u32) {
    if sessions.has(session) {
        sessions.told(session, 1);
    }
}

#[test]
fn a_command_waits_for_both_that_it_is_after(rt: HostRuntime) -> Result<(), Fail> {
    let roster = three_sessions(rt.alloc())?;
    let mut found = Vec::new(rt.alloc());
    if roster.fits() {
        let mut sessions = Sessions::new(rt.alloc(), &roster, 1)?;
        found.push(sessions.ready(&roster, 0))?;
        tell(&mut sessions, 2);
        found.push(sessions.ready(&roster, 1))?;
        tell(&mut sessions, 0);
        found.push(sessions.ready(&roster, 1))?;
    }
    assert_eq!(rt; found.as_slice(), [None, None, Some(1u32)].as_slice());
    Ok(())
}

#[test]
fn copies_equal_their_source(rt: HostRuntime) -> Result<(), Fail> {
    let roster = three_sessions(rt.alloc())?;
    assert!(rt; roster.copy()? == roster);
    let name = SessionName::from_bytes(b"a").ok_or("a name")?;
    assert!(rt; name.copy()? == name);
    Ok(())
}
