//! Which entries of the node may follow, where it holds `x` at 1.0.
use super::{ONE, Row, TWO, answered, ask, stored, with_x, write};
use ov_topology::Mode;
use std::alloc::Global;
use std::test::Fail;

const X: Row = (ONE, b'x', 5);

const Y: Row = (TWO, b'y', 6);

/// The partition of the letter that writes `y` at 2.1, the version and the items that are stored, and whether they may be.
const STORES: [(u32, u64, &[Row], bool); 5] = [
    (0, TWO, &[Y], true),
    (1, TWO, &[Y], false),
    (0, ONE, &[Y], false),
    (0, TWO, &[X], false),
    (0, TWO, &[], false),
];

/// Whether the node may store these items at this version by a letter to this partition.
fn may_store(alloc: Global, part: u32, number: u64, rows: &[Row]) -> Result<bool, Fail> {
    let letter = write(alloc, TWO, part, &[Y])?;
    Ok(with_x(alloc)?.admits(Some(&letter), &stored(alloc, number, rows)?)?)
}

#[test]
fn what_is_written_and_nothing_else_may_be_stored(rt: HostRuntime) -> Result<(), Fail> {
    for (part, number, rows, may) in &STORES {
        assert!(rt; may_store(rt.alloc(), *part, *number, rows)? == *may);
    }
    Ok(())
}

/// Whose round it is, its mode, the items that settler 0 is answered, and whether it may be.
const ANSWERS: [(u32, Mode, &[Row], bool); 5] = [
    (0, Mode::Quorum, &[X], true),
    (0, Mode::Quorum, &[], false),
    (0, Mode::Quorum, &[Y], false),
    (1, Mode::Quorum, &[X], false),
    (0, Mode::One, &[X], false),
];

/// Whether the node may answer settler 0 with these items by a letter of this round.
fn may_answer(alloc: Global, settler: u32, mode: Mode, rows: &[Row]) -> Result<bool, Fail> {
    let letter = ask(settler, mode, 0, TWO);
    Ok(with_x(alloc)?.admits(Some(&letter), &answered(alloc, 0, rows)?)?)
}

#[test]
fn all_that_is_asked_for_and_nothing_else_may_be_answered(rt: HostRuntime) -> Result<(), Fail> {
    for (settler, mode, rows, may) in &ANSWERS {
        assert!(rt; may_answer(rt.alloc(), *settler, *mode, rows)? == *may);
    }
    Ok(())
}
