//! Topologies, a roster and letters.
use crate::GateCore;
use ov_base::{Amount, Key, Sequence, Version};
use ov_event::{Letter, Start};
use ov_functor::{Command, Part, Reply, Transaction};
use ov_gossip::{Marks, Vector};
use ov_session::{Planned, Roster, SessionName, SessionPlan};
use ov_topology::{Actor, Place, Topology};
use std::alloc::Global;
use std::test::Fail;

/// Where letters stand.
pub(super) const HERE: Place = Place {
    entry: 7,
    letter: 2,
};

/// The marks of a gateway that was not heard.
pub(super) const NOTHING: Marks = Marks {
    low: 0,
    full: 0,
    done: 0,
};

/// One centre with two gateways.
pub(super) fn two_gateways(alloc: Global) -> Result<Topology, Fail> {
    Ok(Topology::of(alloc, 1, 1, &[0, 0], 1, 1)?)
}

/// Three centres, of which two make a quorum, with one gateway.
pub(super) fn three_centres(alloc: Global) -> Result<Topology, Fail> {
    Ok(Topology::of(alloc, 3, 1, &[0], 2, 2)?)
}

/// Gateway 0, which has done nothing.
pub(super) fn core(alloc: Global, topology: &Topology, roster: &Roster) -> Result<GateCore, Fail> {
    if roster.fits() && topology.number_of(Actor::Gate(0)).is_some() {
        return Ok(GateCore::new(alloc, topology, roster, 0)?);
    }
    Err("a gateway of the topology".into())
}

pub(super) fn version(time: u64, gate: u32) -> Result<Version, Fail> {
    Ok(Version::new(time, gate).ok_or("a version")?)
}

/// The transaction `put x 7`.
fn put_x(alloc: Global) -> Result<Transaction, Fail> {
    let key = Key::from_bytes(b"x").ok_or("a key")?;
    let amount = Amount::new(7).ok_or("an amount")?;
    let parts = Vec::from_slice(alloc, &[Part::Put { key, amount }])?;
    Ok(Transaction::new(parts).ok().ok_or("a transaction")?)
}

/// The key `x` alone.
fn keys(alloc: Global) -> Result<Sequence<Key>, Fail> {
    let key = Key::from_bytes(b"x").ok_or("a key")?;
    Ok(Sequence::from_vec(Vec::from_slice(alloc, &[key])?))
}

/// How `put x 7` starts, with the version of this time.
pub(super) fn draw(alloc: Global, time: u64) -> Result<Start, Fail> {
    Ok(Start::Draw {
        version: version(time, 0)?,
        transaction: put_x(alloc)?,
    })
}

/// How `snap x` starts after a reply that was done at the version of this time.
pub(super) fn look(alloc: Global, time: u64) -> Result<Start, Fail> {
    Ok(Start::Look {
        floor: version(time, 0)?.number() + 1,
        keys: keys(alloc)?,
    })
}

fn planned(alloc: Global, command: Command) -> Planned {
    Planned {
        command,
        after: Sequence::new(alloc),
    }
}

/// One session, of gateway 0, which puts twice and then looks.
pub(super) fn one_session(alloc: Global) -> Result<Roster, Fail> {
    let mut commands = Sequence::new(alloc);
    commands.push(planned(alloc, Command::Transact(put_x(alloc)?)))?;
    commands.push(planned(alloc, Command::Transact(put_x(alloc)?)))?;
    commands.push(planned(alloc, Command::Snap(keys(alloc)?)))?;
    let mut sessions = Sequence::new(alloc);
    sessions.push(SessionPlan {
        name: SessionName::from_bytes(b"a").ok_or("a name")?,
        gate: 0,
        planned: commands,
    })?;
    Ok(Roster { sessions })
}

/// The marks of a gateway, by the times of its versions.
pub(super) fn marks(low: u64, full: u64, done: u64, gate: u32) -> Result<Marks, Fail> {
    Ok(Marks {
        low: version(low, gate)?.number(),
        full: version(full, gate)?.number(),
        done: version(done, gate)?.number(),
    })
}

/// The marks of all gateways.
pub(super) fn vector(all: &[Marks]) -> Result<Vector, Fail> {
    if all.is_empty() || all.len() > 8 {
        return Err("one to eight gateways".into());
    }
    Ok(Vector::of(all))
}

/// The acknowledgement of node n0.0 for the version of this time and gateway.
pub(super) fn ack(time: u64, gate: u32) -> Result<Letter, Fail> {
    Ok(Letter::Ack {
        version: version(time, gate)?,
        centre: 0,
        part: 0,
    })
}

/// The marks of gateway 1, all at its version of this time, as a gateway sends them.
pub(super) fn gossip(sender: u32, time: u64) -> Result<Letter, Fail> {
    Ok(Letter::Gossip {
        gate: sender,
        vector: vector(&[NOTHING, marks(time, time, time, 1)?])?,
    })
}

/// The reply of a transaction without gets, done at the version of this time.
pub(super) fn done(alloc: Global, time: u64) -> Result<Reply, Fail> {
    Ok(Reply::Done {
        version: version(time, 0)?,
        gets: Sequence::new(alloc),
    })
}

/// The result for a command of session 0, to a gateway, done at the version of this time.
pub(super) fn result(alloc: Global, gate: u32, seq: u32, time: u64) -> Result<Letter, Fail> {
    Ok(Letter::Result {
        session: 0,
        seq,
        gate,
        reply: done(alloc, time)?,
    })
}

/// What a gateway tells of command 1 of session 0.
pub(super) fn told(sender: u32) -> Letter {
    Letter::Told {
        session: 0,
        seq: 1,
        gate: sender,
    }
}
