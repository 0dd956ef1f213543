//! What a node answers to letters that come in any order or twice, to letters of others, and after it stopped.
use super::{HERE, ONE, Row, TWO, answered, ask, by_node, stored, with_x, write};
use crate::NodeCore;
use ov_base::same;
use ov_event::{Entry, Kind, Letter};
use ov_topology::Mode;
use std::alloc::Global;
use std::test::Fail;

fn is_entry(answer: Option<Entry>, wanted: &Entry) -> bool {
    match answer {
        Some(entry) => same(&entry, wanted),
        None => false,
    }
}

/// Whether the node answers that it stored the item.
fn stores(alloc: Global, core: &mut NodeCore, row: &Row) -> Result<bool, Fail> {
    let given = core.store(HERE, &write(alloc, row.0, 0, &[*row])?)?;
    Ok(is_entry(given, &stored(alloc, row.0, &[*row])?))
}

/// Whether the node answers the letter with this entry.
fn answers(core: &mut NodeCore, letter: &Letter, wanted: &Entry) -> Result<bool, Fail> {
    Ok(is_entry(core.answer(HERE, letter)?, wanted))
}

/// Writes in the order in which they come: the last one comes again with another amount, which is not held.
const WRITES: [Row; 4] = [
    (ONE, b'y', 6),
    (TWO, b'x', 7),
    (ONE, b'x', 5),
    (ONE, b'x', 8),
];

/// The node that answered each of the writes.
fn with_all(alloc: Global) -> Result<NodeCore, Fail> {
    let mut core = NodeCore::new(alloc, 1, 0);
    for row in &WRITES {
        if !stores(alloc, &mut core, row)? {
            return Err("the entry of what is stored".into());
        }
    }
    Ok(core)
}

/// Whether the node that has the writes answers the window with just these items.
fn has_window(alloc: Global, from: u64, below: u64, rows: &[Row]) -> Result<bool, Fail> {
    let letter = ask(1, Mode::One, from, below);
    answers(&mut with_all(alloc)?, &letter, &answered(alloc, 1, rows)?)
}

/// What is held, by version and then key.
const HELD: [Row; 3] = [(ONE, b'x', 5), (ONE, b'y', 6), (TWO, b'x', 7)];

#[test]
fn what_is_written_is_held_once_and_answered_in_order(rt: HostRuntime) -> Result<(), Fail> {
    assert!(rt; has_window(rt.alloc(), ONE, TWO + 1, &HELD)?);
    assert!(rt; has_window(rt.alloc(), ONE, TWO, &[(ONE, b'x', 5), (ONE, b'y', 6)])?);
    Ok(())
}

/// Whether the node neither stores nor answers the letter.
fn leaves(core: &mut NodeCore, letter: &Letter) -> Result<bool, Fail> {
    Ok(core.store(HERE, letter)?.is_none() && core.answer(HERE, letter)?.is_none())
}

/// Whether the node leaves a write in this partition, and a question of settler 0 in this mode.
fn leaves_both(core: &mut NodeCore, write: &Letter, mode: Mode) -> Result<bool, Fail> {
    Ok(leaves(core, write)? && leaves(core, &ask(0, mode, 0, TWO))?)
}

/// Whether a running node leaves a write in another partition, and a question to another centre.
fn leaves_others(alloc: Global) -> Result<bool, Fail> {
    let write = write(alloc, TWO, 1, &[(TWO, b'x', 5)])?;
    leaves_both(&mut with_x(alloc)?, &write, Mode::One)
}

fn stopped(alloc: Global) -> Result<NodeCore, Fail> {
    let mut core = with_x(alloc)?;
    let _ = core.stop();
    Ok(core)
}

/// Whether a stopped node leaves a write and a question to it.
fn leaves_all(alloc: Global) -> Result<bool, Fail> {
    let write = write(alloc, ONE, 0, &[(ONE, b'y', 5)])?;
    leaves_both(&mut stopped(alloc)?, &write, Mode::Quorum)
}

#[test]
fn letters_of_others_or_after_a_stop_are_left(rt: HostRuntime) -> Result<(), Fail> {
    assert!(rt; leaves_others(rt.alloc())?);
    assert!(rt; leaves_all(rt.alloc())?);
    Ok(())
}

#[test]
fn a_node_stops_once(rt: HostRuntime) -> Result<(), Fail> {
    assert!(rt; is_entry(with_x(rt.alloc())?.stop(), &by_node(Kind::Stopped)));
    assert!(rt; stopped(rt.alloc())?.stop().is_none());
    Ok(())
}
