//! What gateway 0 answers, call by call: draws and acknowledgements, a reply, and letters that are repeated, late or for others.
mod samples;

use crate::GateCore;
use ov_base::same;
use ov_event::{Entry, Kind, Letter, Start};
use ov_gossip::Marks;
use ov_session::Roster;
use ov_topology::Actor;
use samples::{
    HERE, NOTHING, ack, core, done, draw, gossip, look, marks, one_session, result, three_centres,
    told, two_gateways, vector, version,
};
use std::alloc::Global;
use std::test::Fail;

/// Whether the answer is the entry of gateway 0 that says this.
fn says(answer: Option<Entry>, kind: Kind) -> bool {
    match answer {
        Some(entry) => same(
            &entry,
            &Entry {
                actor: Actor::Gate(0),
                kind,
            },
        ),
        None => false,
    }
}

/// What beginning a command of session 0 at a reading of the clock answers.
fn begin(core: &mut GateCore, roster: &Roster, clock: u64) -> Result<Option<Entry>, Fail> {
    if roster.fits() {
        return Ok(core.begin(roster, 0, clock)?);
    }
    Err("a roster that fits".into())
}

/// Whether it then begins the command of this number so.
fn begins(
    core: &mut GateCore,
    roster: &Roster,
    clock: u64,
    seq: u32,
    start: Start,
) -> Result<bool, Fail> {
    let kind = Kind::Began {
        session: 0,
        seq,
        start,
    };
    Ok(says(begin(core, roster, clock)?, kind))
}

/// What it says where it takes the acknowledgement of the version of this time by node n0.0.
fn acked(time: u64) -> Result<Kind, Fail> {
    Ok(Kind::Acked {
        place: HERE,
        version: version(time, 0)?,
        centre: 0,
        part: 0,
    })
}

/// Whether it takes that acknowledgement.
fn takes_ack(core: &mut GateCore, time: u64) -> Result<bool, Fail> {
    Ok(says(core.acked(HERE, &ack(time, 0)?), acked(time)?))
}

/// Whether it admits that entry by the acknowledgement of the version of another time.
fn admits_ack(core: &GateCore, roster: &Roster, time: u64, sent: u64) -> Result<bool, Fail> {
    let entry = Entry {
        actor: Actor::Gate(0),
        kind: acked(time)?,
    };
    Ok(roster.fits() && core.admits(roster, Some(&ack(sent, 0)?), &entry))
}

/// Whether it publishes, at a reading of the clock, this time and these marks by gateway.
fn publishes(core: &mut GateCore, clock: u64, time: u64, all: &[Marks]) -> Result<bool, Fail> {
    let kind = Kind::Published {
        time,
        vector: vector(all)?,
    };
    Ok(says(core.publish(clock), kind))
}

/// Whether it hears the marks of gateway 1, all at its version of this time.
fn hears(core: &mut GateCore, time: u64) -> Result<bool, Fail> {
    let kind = Kind::Heard {
        place: HERE,
        vector: vector(&[NOTHING, marks(time, time, time, 1)?])?,
    };
    Ok(says(core.heard(HERE, &gossip(1, time)?), kind))
}

/// Whether it gives the reply to the command, done at the version of this time.
fn replies(alloc: Global, core: &mut GateCore, seq: u32, time: u64) -> Result<bool, Fail> {
    let kind = Kind::Replied {
        place: HERE,
        session: 0,
        seq,
        reply: done(alloc, time)?,
    };
    Ok(says(core.replied(HERE, &result(alloc, 0, seq, time)?)?, kind))
}

/// Whether it gives the reply to command 2, done at the version of time 101, and then begins the snapshot just above.
fn replies_and_looks(alloc: Global, core: &mut GateCore, roster: &Roster) -> Result<bool, Fail> {
    Ok(replies(alloc, core, 2, 101)? && begins(core, roster, 0, 3, look(alloc, 101)?)?)
}

/// Whether it notes that command 1 is replied elsewhere.
fn notes(core: &mut GateCore) -> bool {
    let kind = Kind::Told {
        place: HERE,
        session: 0,
        seq: 1,
    };
    says(core.told(HERE, &told(1)), kind)
}

/// Whether no call takes the letter.
fn leaves(core: &mut GateCore, letter: &Letter) -> Result<bool, Fail> {
    let one = core.acked(HERE, letter).is_none() && core.heard(HERE, letter).is_none();
    let other = core.told(HERE, letter).is_none() && core.replied(HERE, letter)?.is_none();
    Ok(one && other)
}

#[test]
fn a_command_is_drawn_acknowledged_published_replied_once(rt: HostRuntime) -> Result<(), Fail> {
    let roster = one_session(rt.alloc())?;
    let mut core = core(rt.alloc(), &two_gateways(rt.alloc())?, &roster)?;
    assert!(rt; begins(&mut core, &roster, 100, 1, draw(rt.alloc(), 100)?)?);
    assert!(rt; takes_ack(&mut core, 100)?);
    assert!(rt; publishes(&mut core, 101, 101, &[marks(101, 101, 100, 0)?, NOTHING])?);
    assert!(rt; begin(&mut core, &roster, 0)?.is_none());
    assert!(rt; replies(rt.alloc(), &mut core, 1, 100)?);
    assert!(rt; leaves(&mut core, &result(rt.alloc(), 0, 1, 100)?)?);
    assert!(rt; begins(&mut core, &roster, 0, 2, draw(rt.alloc(), 101)?)?);
    assert!(rt; replies_and_looks(rt.alloc(), &mut core, &roster)?);
    Ok(())
}

#[test]
fn an_acknowledgement_taken_twice_counts_once(rt: HostRuntime) -> Result<(), Fail> {
    let roster = one_session(rt.alloc())?;
    let mut core = core(rt.alloc(), &three_centres(rt.alloc())?, &roster)?;
    assert!(rt; begins(&mut core, &roster, 10, 1, draw(rt.alloc(), 10)?)?);
    assert!(rt; takes_ack(&mut core, 10)?);
    assert!(rt; admits_ack(&core, &roster, 10, 10)? && !admits_ack(&core, &roster, 10, 11)?);
    assert!(rt; takes_ack(&mut core, 10)?);
    assert!(rt; publishes(&mut core, 0, 11, &[marks(10, 10, 10, 0)?])?);
    Ok(())
}

/// Letters that are not for gateway 0: an acknowledgement and a result to gateway 1, what it told and published itself, and a result
/// to a command that has not begun.
fn leaves_others(alloc: Global, core: &mut GateCore) -> Result<bool, Fail> {
    let own = leaves(core, &told(0))? && leaves(core, &gossip(0, 60)?)?;
    let results = leaves(core, &result(alloc, 1, 1, 60)?)?
        && leaves(core, &result(alloc, 0, 2, 60)?)?;
    Ok(own && results && leaves(core, &ack(60, 1)?)?)
}

#[test]
fn repeated_late_and_misaddressed_letters_change_no_mark(rt: HostRuntime) -> Result<(), Fail> {
    let roster = one_session(rt.alloc())?;
    let mut core = core(rt.alloc(), &two_gateways(rt.alloc())?, &roster)?;
    assert!(rt; hears(&mut core, 50)?);
    assert!(rt; hears(&mut core, 50)?);
    assert!(rt; hears(&mut core, 9)?);
    assert!(rt; notes(&mut core) && notes(&mut core));
    assert!(rt; leaves_others(rt.alloc(), &mut core)?);
    assert!(rt;
        publishes(
            &mut core,
            0,
            50,
            &[marks(50, 50, 50, 0)?, marks(50, 50, 50, 1)?]
        )?
    );
    Ok(())
}
