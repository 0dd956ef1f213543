//! Version lists of numbers on worked examples: five insertions, of which one is repeated, and four of which some go.
use crate::VersionLists;
use ov_base::{Key, Version};
use std::alloc::Global;
use std::process::Abort;
use std::test::Fail;

/// A key's byte, a version's number and the item; whether the pair is new.
const INSERTED: [(u8, u64, u64, bool); 5] = [
    (b'x', 30, 1, true),
    (b'y', 20, 2, true),
    (b'x', 10, 3, true),
    (b'x', 30, 4, false),
    (b'a', 20, 5, true),
];

/// Inserts the five, and says of each whether it was new.
fn filled(rt: &impl Abort, alloc: Global) -> Result<VersionLists<u64>, Fail> {
    let mut lists = VersionLists::new(alloc);
    lists.reserve(4)?;
    for (key, number, item, is_new) in INSERTED {
        let key = Key::from_bytes(&[key]).ok_or("a key")?;
        let version = Version::from_number(number).ok_or("a version")?;
        assert_eq!(rt; lists.insert(key, version, item)?, is_new);
    }
    Ok(lists)
}

#[test]
fn the_newest_of_a_key_stands_below_the_number(rt: HostRuntime) -> Result<(), Fail> {
    let lists = filled(&rt, rt.alloc())?;
    for (key, below, item) in [
        (b'x', 31, Some(1u64)),
        (b'x', 30, Some(3)),
        (b'x', 10, None),
        (b'y', 99, Some(2)),
        (b'z', 99, None),
    ] {
        let key = Key::from_bytes(&[key]).ok_or("a key")?;
        match lists.latest(key, below) {
            Some((_, found)) => assert_eq!(rt; Some(*found), item, "{below}"),
            None => assert_eq!(rt; None, item, "{below}"),
        }
    }
    Ok(())
}

#[test]
fn a_window_has_its_lower_end_and_lacks_its_upper_one(rt: HostRuntime) -> Result<(), Fail> {
    let lists = filled(&rt, rt.alloc())?;
    for (from, below, items) in [
        (10, 30, [3u64, 5, 2].as_slice()),
        (20, 31, [5u64, 2, 1].as_slice()),
        (30, 30, [].as_slice()),
    ] {
        let mut found = Vec::new(rt.alloc());
        for (_, _, item) in lists.window(from, below)?.as_slice() {
            found.push(**item)?;
        }
        assert_eq!(rt; found.as_slice(), items, "{from} {below}");
    }
    Ok(())
}

#[test]
fn the_next_key_is_found_and_old_versions_go(rt: HostRuntime) -> Result<(), Fail> {
    let mut lists = VersionLists::new(rt.alloc());
    let x = Key::from_bytes(b"x").ok_or("a key")?;
    let y = Key::from_bytes(b"y").ok_or("a key")?;
    for (key, time) in [(x, 1), (x, 2), (x, 3), (y, 1)] {
        let version = Version::new(time, 0).ok_or("a version")?;
        assert!(rt; lists.insert(key, version, time)?);
    }
    assert!(rt; lists.next_key(x, false) == Some(x));
    assert!(rt; lists.next_key(x, true) == Some(y));
    assert!(rt; lists.next_key(y, true) == None);
    for (keep_last, gone, left) in [
        (true, 1, [(y, 1u64), (x, 2), (x, 3)].as_slice()),
        (false, 2, [(x, 3u64)].as_slice()),
    ] {
        assert_eq!(rt; lists.thin(196_608, keep_last), gone);
        let mut found = Vec::new(rt.alloc());
        for (_, key, item) in lists.window(0, 1 << 63)?.as_slice() {
            found.push((*key, **item))?;
        }
        assert!(rt; found.as_slice() == left);
    }
    Ok(())
}
