//! A world that follows a put and a get, and another one that admits what it did.
use crate::{Story, World};
use ov_base::{Plain, Version, same};
use ov_event::{Entry, Kind, Start};
use ov_functor::{Reply, Transaction};
use ov_script::{Script, Step};
use ov_serial::{are_distinct, run_serial};
use ov_topology::Topology;
use std::alloc::Global;
use std::test::Fail;

/// What is asked of the actors, of which each gives an entry.
const LINES: [&str; 24] = [
    "begin a 0",
    "take n0.0 1 1",
    "take g0 2 1",
    "publish g0 0",
    "take e0 4 1",
    "publish g0 0",
    "take e0 6 1",
    "ask e0 quorum",
    "take n0.0 8 1",
    "take e0 9 1",
    "settle e0",
    "take e0 1 2",
    "take g0 12 1",
    "begin a 0",
    "publish g0 0",
    "take e0 15 1",
    "publish g0 0",
    "take e0 17 1",
    "ask e0 quorum",
    "take n0.0 19 1",
    "take e0 20 1",
    "settle e0",
    "take e0 14 1",
    "take g0 23 1",
];

/// The world of one gateway and one node in which nothing was done.
fn world(alloc: Global) -> Result<World, Fail> {
    let topology = Topology::of(alloc, 1, 1, &[0], 1, 1)?;
    let script = Script::read(alloc, b"session a g0\na do put x 5\na do get x\n", 1)?;
    Ok(World::start(alloc, topology, script)?)
}

/// Whether each line gives an entry.
fn follows_all(world: &mut World) -> Result<bool, Fail> {
    for line in &LINES {
        let step = Step::parse(line.as_bytes()).ok_or("a line of a schedule")?;
        if !world.follow(&step)? {
            return Ok(false);
        }
    }
    Ok(true)
}

/// Whether each of these entries may follow.
fn admits_all(world: &mut World, entries: &[Entry]) -> Result<bool, Fail> {
    for entry in entries {
        if !world.admit(entry)? {
            return Ok(false);
        }
    }
    Ok(true)
}

/// The begun transactions.
fn begun(alloc: Global, entries: &[Entry]) -> Result<Vec<(Version, Transaction)>, Fail> {
    let mut list = Vec::new(alloc);
    for entry in entries {
        if let Kind::Began { start, .. } = &entry.kind {
            if let Start::Draw {
                version,
                transaction,
            } = start
            {
                list.push((*version, transaction.copy()?))?;
            }
        }
    }
    Ok(list)
}

/// Whether the entries have these replies, in this order.
fn has_replies(entries: &[Entry], wanted: &[Reply]) -> bool {
    let mut rest = wanted;
    for entry in entries {
        if let Kind::Replied { reply, .. } = &entry.kind {
            match rest {
                [first, others @ ..] if same(first, reply) => rest = others,
                _ => return false,
            }
        }
    }
    rest.is_empty()
}

/// Whether the replies are those of the serial executor.
fn is_serial(alloc: Global, entries: &[Entry]) -> Result<bool, Fail> {
    let list = begun(alloc, entries)?;
    if !are_distinct(list.as_slice()) {
        return Ok(false);
    }
    let serial = run_serial(alloc, list.as_slice())?;
    Ok(has_replies(entries, serial.replies.as_slice()))
}

#[test]
fn what_a_world_follows_another_admits_and_the_replies_are_serial(
    rt: HostRuntime,
) -> Result<(), Fail> {
    let mut first = world(rt.alloc())?;
    assert!(rt; follows_all(&mut first)?);
    assert!(rt; is_serial(rt.alloc(), first.entries())?);
    let mut second = world(rt.alloc())?;
    assert!(rt; admits_all(&mut second, first.entries())?);
    let mut story = Story::empty(rt.alloc());
    second.tell(&mut story);
    assert!(rt; story.entries.len() == LINES.len());
    Ok(())
}
