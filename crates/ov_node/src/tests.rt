//! The node of partition 0 in centre 1: what its calls answer, one after another, and which entries it admits.
mod admitted;
mod calls;

use crate::NodeCore;
use ov_base::{Amount, Key, Shared, Version};
use ov_event::{Entry, Kind, Letter};
use ov_functor::{Effect, Functor, Item};
use ov_topology::{Actor, Mode, Place};
use std::alloc::Global;
use std::test::Fail;

/// The number of the version 1.0.
const ONE: u64 = 65536;

/// The number of the version 2.1.
const TWO: u64 = 131073;

/// Where letters stand.
const HERE: Place = Place {
    entry: 7,
    letter: 2,
};

/// An item: the number of its version, its key, and the amount that it puts.
type Row = (u64, u8, i64);

fn version(number: u64) -> Result<Version, Fail> {
    Ok(Version::from_number(number).ok_or("a version")?)
}

fn item(alloc: Global, row: &Row) -> Result<Item, Fail> {
    let key = Key::from_bytes(&[row.1]).ok_or("a key")?;
    let amount = Amount::new(row.2).ok_or("an amount")?;
    let functor = Functor::new(key, Effect::Put(amount), Vec::new(alloc)).ok();
    Ok(Item {
        version: version(row.0)?,
        key,
        functor: functor.ok_or("a functor")?,
    })
}

fn items(alloc: Global, rows: &[Row]) -> Result<Shared<Item>, Fail> {
    let mut items = Vec::new(alloc);
    for row in rows {
        items.push(item(alloc, row)?)?;
    }
    Ok(Shared::of(items)?)
}

/// The letter that says to write these items at the version of this number.
fn write(alloc: Global, number: u64, part: u32, rows: &[Row]) -> Result<Letter, Fail> {
    Ok(Letter::Write {
        version: version(number)?,
        part,
        items: items(alloc, rows)?,
    })
}

/// The letter by which a settler asks for a window in its round 3.
fn ask(settler: u32, mode: Mode, from: u64, below: u64) -> Letter {
    Letter::Ask {
        settler,
        round: 3,
        mode,
        from,
        below,
    }
}

fn by_node(kind: Kind) -> Entry {
    Entry {
        actor: Actor::Node { centre: 1, part: 0 },
        kind,
    }
}

/// The entry of the node that stored these items.
fn stored(alloc: Global, number: u64, rows: &[Row]) -> Result<Entry, Fail> {
    Ok(by_node(Kind::Stored {
        place: HERE,
        version: version(number)?,
        items: items(alloc, rows)?,
    }))
}

/// The entry of the node that answered round 3 of a settler with these items.
fn answered(alloc: Global, settler: u32, rows: &[Row]) -> Result<Entry, Fail> {
    Ok(by_node(Kind::Answered {
        place: HERE,
        settler,
        round: 3,
        items: items(alloc, rows)?,
    }))
}

/// The node that holds `x` at 1.0 alone.
fn with_x(alloc: Global) -> Result<NodeCore, Fail> {
    let mut core = NodeCore::new(alloc, 1, 0);
    let _ = core.store(HERE, &write(alloc, ONE, 0, &[(ONE, b'x', 5)])?)?;
    Ok(core)
}
