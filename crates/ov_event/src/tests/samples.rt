//! Entries of all kinds, and the letters that they make.
ghost use Rattle.std.specs.Prelude.{◌≡◌};
ghost use Rattle.std.specs.List.{list_all};
ghost use Rattle.ov_functor.specs.Transaction.{is_positive};

use crate::{Entry, Kind, Letter, Start, Valued};
use ov_base::{Key, Sequence, Shared, Value, Version};
use ov_functor::{Item, Part, Reply, Transaction, items_of, parse_parts};
use ov_gossip::{Marks, Vector};
use ov_topology::{Actor, Mode, Place};
use std::alloc::Global;
use std::test::Fail;

const PLACE: Place = Place {
    entry: 7,
    letter: 2,
};

fn version(time: u64, gate: u32) -> Result<Version, Fail> {
    Ok(Version::new(time, gate).ok_or("a version")?)
}

fn key(name: &[u8]) -> Result<Key, Fail> {
    Ok(Key::from_bytes(name).ok_or("a key")?)
}

fn is_positive(part: &Part) -> bool
    ensures { result ≡ is_positive part.now }
{
    match part {
        Part::Move { amount, .. } => amount.get() >= 1,
        _ => true,
    }
}

fn are_positive(parts: &[Part]) -> bool
    ensures { result ≡ list_all is_positive parts.now }
{
    parts.iter().all(|part| is_positive(part))
}

fn transaction(alloc: Global, parts: &[u8]) -> Result<Transaction, Fail> {
    let parts = parse_parts(alloc, parts)?.ok_or("parts")?;
    let made = if are_positive(parts.as_slice()) {
        Transaction::new(parts).ok()
    } else {
        None
    };
    Ok(made.ok_or("a transaction")?)
}

/// The items of `put q 1` at version 1.0.
fn items(alloc: Global) -> Result<Shared<Item>, Fail> {
    let items = items_of(alloc, version(1, 0)?, &transaction(alloc, b"put q 1")?)?;
    Ok(Shared::of(items.into_vec())?)
}

fn values(alloc: Global) -> Result<Sequence<Valued>, Fail> {
    let mut values = Sequence::new(alloc);
    values.push(Valued {
        version: version(1, 0)?,
        key: key(b"p")?,
        value: Value::Absent,
    })?;
    Ok(values)
}

fn vector() -> Vector {
    let mut vector = Vector::new(3);
    if vector.count() == 3 {
        vector.raise(
            1,
            Marks {
                low: 5,
                full: 4,
                done: 3,
            },
        );
    }
    vector
}

fn reply(alloc: Global) -> Result<Reply, Fail> {
    Ok(Reply::Done {
        version: version(1, 0)?,
        gets: Sequence::new(alloc),
    })
}

/// The draw of these parts at version 1.0.
fn draw(alloc: Global, parts: &[u8]) -> Result<Start, Fail> {
    Ok(Start::Draw {
        version: version(1, 0)?,
        transaction: transaction(alloc, parts)?,
    })
}

fn look(alloc: Global) -> Result<Start, Fail> {
    let mut keys = Sequence::new(alloc);
    keys.push(key(b"b")?)?;
    Ok(Start::Look { floor: 9, keys })
}

/// How the samples 0 to 3 begin. The first writes `d`, `p` and `t` of the first partition, and `q` of the second one.
fn start(alloc: Global, number: u32) -> Result<Start, Fail> {
    match number {
        0 => draw(alloc, b"put t 1 ; get r ; move q p 1 ; del d"),
        1 => draw(alloc, b"get p ; get q"),
        2 => draw(alloc, b"put s 1 ; put r 1 ; put q 1 ; put p 1"),
        _ => look(alloc),
    }
}

fn began(alloc: Global, number: u32) -> Result<Kind, Fail> {
    Ok(Kind::Began {
        session: 2,
        seq: 3,
        start: start(alloc, number)?,
    })
}

fn stored(alloc: Global) -> Result<Kind, Fail> {
    Ok(Kind::Stored {
        place: PLACE,
        version: version(4, 1)?,
        items: items(alloc)?,
    })
}

fn published() -> Kind {
    Kind::Published {
        time: 6,
        vector: vector(),
    }
}

fn asked(mode: Mode) -> Kind {
    Kind::Asked {
        round: 8,
        mode,
        from: 3,
        below: 9,
    }
}

fn answered(alloc: Global) -> Result<Kind, Fail> {
    Ok(Kind::Answered {
        place: PLACE,
        settler: 2,
        round: 8,
        items: items(alloc)?,
    })
}

fn resulted(alloc: Global) -> Result<Kind, Fail> {
    Ok(Kind::Resulted {
        place: PLACE,
        session: 5,
        seq: 6,
        gate: 2,
        reply: reply(alloc)?,
    })
}

fn replied(alloc: Global) -> Result<Kind, Fail> {
    Ok(Kind::Replied {
        place: PLACE,
        session: 5,
        seq: 6,
        reply: reply(alloc)?,
    })
}

fn acked() -> Result<Kind, Fail> {
    Ok(Kind::Acked {
        place: PLACE,
        version: version(4, 0)?,
        centre: 2,
        part: 1,
    })
}

fn heard() -> Kind {
    Kind::Heard {
        place: PLACE,
        vector: vector(),
    }
}

fn taken(alloc: Global) -> Result<Kind, Fail> {
    Ok(Kind::Taken {
        place: PLACE,
        round: 8,
        centre: 2,
        part: 1,
        items: items(alloc)?,
    })
}

fn settled(alloc: Global) -> Result<Kind, Fail> {
    Ok(Kind::Settled {
        values: values(alloc)?,
    })
}

fn told() -> Kind {
    Kind::Told {
        place: PLACE,
        session: 5,
        seq: 6,
    }
}

/// What the sample of this number says.
fn kind(alloc: Global, number: u32) -> Result<Kind, Fail> {
    match number {
        4 => stored(alloc),
        5 => Ok(published()),
        6 => Ok(asked(Mode::Quorum)),
        7 => Ok(asked(Mode::One)),
        8 => answered(alloc),
        9 => resulted(alloc),
        10 => replied(alloc),
        11 => acked(),
        12 => Ok(heard()),
        13 => taken(alloc),
        14 => settled(alloc),
        15 => Ok(told()),
        16 => Ok(Kind::Stopped),
        _ => began(alloc, number),
    }
}

/// Whose the sample of this number is.
fn actor(number: u32) -> Actor {
    match number {
        3 | 5 => Actor::Gate(1),
        4 => Actor::Node { centre: 2, part: 0 },
        6 | 7 => Actor::Settler(1),
        8 | 16 => Actor::Node { centre: 0, part: 1 },
        9 | 12 | 13 | 14 => Actor::Settler(0),
        10 => Actor::Gate(2),
        _ => Actor::Gate(0),
    }
}

/// The sample of this number, from 0 to 16.
pub fn sample(alloc: Global, number: u32) -> Result<Entry, Fail> {
    Ok(Entry {
        actor: actor(number),
        kind: kind(alloc, number)?,
    })
}

/// The last letter that the sample of this number makes, of those before 11 but for 7.
pub fn last_letter(alloc: Global, number: u32) -> Result<Letter, Fail> {
    match number {
        4 => ack(),
        5 => Ok(gossip()),
        6 => Ok(ask()),
        8 => answer(alloc),
        9 => result(alloc),
        10 => Ok(told_letter()),
        3 => Ok(want(1, look(alloc)?)),
        _ => Ok(want(0, start(alloc, number)?)),
    }
}

fn ack() -> Result<Letter, Fail> {
    Ok(Letter::Ack {
        version: version(4, 1)?,
        centre: 2,
        part: 0,
    })
}

fn gossip() -> Letter {
    Letter::Gossip {
        gate: 1,
        vector: vector(),
    }
}

fn ask() -> Letter {
    Letter::Ask {
        settler: 1,
        round: 8,
        mode: Mode::Quorum,
        from: 3,
        below: 9,
    }
}

fn answer(alloc: Global) -> Result<Letter, Fail> {
    Ok(Letter::Answer {
        settler: 2,
        round: 8,
        centre: 0,
        part: 1,
        items: items(alloc)?,
    })
}

fn result(alloc: Global) -> Result<Letter, Fail> {
    Ok(Letter::Result {
        session: 5,
        seq: 6,
        gate: 2,
        reply: reply(alloc)?,
    })
}

fn told_letter() -> Letter {
    Letter::Told {
        session: 5,
        seq: 6,
        gate: 2,
    }
}

fn want(gate: u32, start: Start) -> Letter {
    Letter::Want {
        session: 2,
        seq: 3,
        gate,
        start,
    }
}
