//! One settler, and the letters of the example.
use crate::SettlerCore;
use ov_base::{Amount, Key, Sequence, Shared, Value, Version};
use ov_event::{Entry, Kind, Letter, Start};
use ov_functor::{Item, Part, Reply, Shown, Transaction, Valued, items_of};
use ov_gossip::{Marks, Vector};
use ov_topology::{Actor, Mode, Place, Topology};
use std::alloc::Global;
use std::test::Fail;

/// Settler 0, which has done nothing, of one centre with one partition and one gateway.
pub(super) fn core(alloc: Global) -> Result<SettlerCore, Fail> {
    let topology = Topology::of(alloc, 1, 1, &[0], 1, 1)?;
    if topology.number_of(Actor::Settler(0)).is_some() {
        return Ok(SettlerCore::new(alloc, &topology, 0)?);
    }
    Err("a settler of the topology".into())
}

/// The version of gateway 0 at this time.
pub(super) fn version(time: u64) -> Result<Version, Fail> {
    Ok(Version::new(time, 0).ok_or("a version")?)
}

pub(super) fn key() -> Result<Key, Fail> {
    Ok(Key::from_bytes(b"x").ok_or("a key")?)
}

pub(super) fn five() -> Result<Amount, Fail> {
    Ok(Amount::new(5).ok_or("an amount")?)
}

/// The entry of settler 0 that says this.
pub(super) fn entry(kind: Kind) -> Entry {
    Entry {
        actor: Actor::Settler(0),
        kind,
    }
}

/// The first letter of an entry.
pub(super) fn first(entry: u64) -> Place {
    Place { entry, letter: 1 }
}

/// Where the `Want` letter of entry 1 stands.
pub(super) const WANTED: Place = Place {
    entry: 1,
    letter: 2,
};

/// What entries 4 and 6 publish: low and full at the version of time 2, done at that of time 1.
pub(super) fn vector() -> Result<Vector, Fail> {
    let marks = Marks {
        low: version(2)?.number(),
        full: version(2)?.number(),
        done: version(1)?.number(),
    };
    Ok(Vector::of(&[marks]))
}

/// The letter of entries 4 and 6.
pub(super) fn gossip() -> Result<Letter, Fail> {
    Ok(Letter::Gossip {
        gate: 0,
        vector: vector()?,
    })
}

/// Entry 8.
pub(super) fn asked() -> Result<Entry, Fail> {
    Ok(entry(Kind::Asked {
        round: 1,
        mode: Mode::Quorum,
        from: 0,
        below: version(2)?.number(),
    }))
}

/// The transaction `put x 5`.
fn put_x(alloc: Global) -> Result<Transaction, Fail> {
    let put = Part::Put {
        key: key()?,
        amount: five()?,
    };
    let parts = Vec::from_slice(alloc, &[put])?;
    Ok(Transaction::new(parts).ok().ok_or("a transaction")?)
}

/// The items of `put x 5` at the version of time 1.
fn items(alloc: Global) -> Result<Shared<Item>, Fail> {
    let items = items_of(alloc, version(1)?, &put_x(alloc)?)?;
    Ok(Shared::of(items.into_vec())?)
}

/// The letter of entry 9, but to the round of this number.
pub(super) fn answer(alloc: Global, round: u64) -> Result<Letter, Fail> {
    Ok(Letter::Answer {
        settler: 0,
        round,
        centre: 0,
        part: 0,
        items: items(alloc)?,
    })
}

/// Entry 10.
pub(super) fn taken(alloc: Global) -> Result<Entry, Fail> {
    Ok(entry(Kind::Taken {
        place: first(9),
        round: 1,
        centre: 0,
        part: 0,
        items: items(alloc)?,
    }))
}

/// Entry 11.
pub(super) fn settled(alloc: Global) -> Result<Entry, Fail> {
    let value = Valued {
        version: version(1)?,
        key: key()?,
        value: Value::Number(five()?),
    };
    let values = Sequence::from_vec(Vec::from_slice(alloc, &[value])?);
    Ok(entry(Kind::Settled { values }))
}

/// The letter that wants, of gateway 0, the reply to command 1 of session 0.
pub(super) fn want(start: Start) -> Letter {
    Letter::Want {
        session: 0,
        seq: 1,
        gate: 0,
        start,
    }
}

/// How `put x 5` starts, at the version of time 1.
pub(super) fn put(alloc: Global) -> Result<Start, Fail> {
    Ok(Start::Draw {
        version: version(1)?,
        transaction: put_x(alloc)?,
    })
}

/// How `get x` starts, at the version of this time.
pub(super) fn get(alloc: Global, time: u64) -> Result<Start, Fail> {
    let parts = Vec::from_slice(alloc, &[Part::Get { key: key()? }])?;
    Ok(Start::Draw {
        version: version(time)?,
        transaction: Transaction::new(parts).ok().ok_or("a transaction")?,
    })
}

/// How `snap x` starts, with the version of this time as its floor.
pub(super) fn look(alloc: Global, time: u64) -> Result<Start, Fail> {
    let keys = Vec::from_slice(alloc, &[key()?])?;
    Ok(Start::Look {
        floor: version(time)?.number(),
        keys: Sequence::from_vec(keys),
    })
}

/// The reply of a transaction without gets, done at the version of time 1.
pub(super) fn done(alloc: Global) -> Result<Reply, Fail> {
    Ok(Reply::Done {
        version: version(1)?,
        gets: Sequence::new(alloc),
    })
}

/// The same, but aborted.
pub(super) fn aborted(alloc: Global) -> Result<Reply, Fail> {
    Ok(Reply::Aborted {
        version: version(1)?,
        gets: Sequence::new(alloc),
    })
}

/// The snapshot at the version of time 2, of x alone, which has 5.
pub(super) fn snapshot(alloc: Global) -> Result<Reply, Fail> {
    let one = Shown {
        key: key()?,
        value: Value::Number(five()?),
    };
    Ok(Reply::Snap {
        watermark: version(2)?.number(),
        shown: Sequence::from_vec(Vec::from_slice(alloc, &[one])?),
    })
}

/// Entry 12, but with this reply.
pub(super) fn resulted(reply: Reply) -> Entry {
    entry(Kind::Resulted {
        place: WANTED,
        session: 0,
        seq: 1,
        gate: 0,
        reply,
    })
}
