//! For each sample how many letters it has, to whom each is addressed, and what it says; and copies.
use super::samples::{last_letter, sample};
use super::{addressees, count_of, three};
use crate::{Letter, is_of, letter_of};
use ov_base::{Plain, print_number};
use ov_topology::Actor;
use std::alloc::Global;
use std::test::Fail;

/// For each sample the addressees of its letters by number, each letter behind a comma: gateways 0 to 2, nodes 3 to 14 by centre and
/// then partition, settlers 15 to 17.
const ADDRESSEES: [&str; 17] = [
    ", 3 7 11, 4 8 12, 15",
    ", 15",
    ", 3 7 11, 4 8 12, 5 9 13, 6 10 14, 15",
    ", 16",
    ", 1",
    ", 0 2 15 16 17",
    ", 3 4 5 6 7 8 9 10 11 12 13 14",
    ", 7 8 9 10",
    ", 17",
    ", 2",
    ", 0 1",
    "",
    "",
    "",
    "",
    "",
    "",
];

/// Whether the letters of the sample of this number have these addressees.
fn has_addressees(alloc: Global, number: u32, expected: &str) -> Result<bool, Fail> {
    let found = addressees(alloc, &three(alloc)?, &sample(alloc, number)?)?;
    Ok(found.as_slice() == expected.as_bytes())
}

#[test]
fn each_letter_has_its_addressees(rt: HostRuntime) -> Result<(), Fail> {
    let mut number = 0u32;
    for expected in &ADDRESSEES {
        assert!(rt; has_addressees(rt.alloc(), number, expected)?, "{number}");
        number = number.wrapping_add(1);
    }
    Ok(())
}

/// The last letter of the sample of this number.
fn last_of(alloc: Global, number: u32) -> Result<Letter, Fail> {
    let (topology, entry) = (three(alloc)?, sample(alloc, number)?);
    let last = count_of(&topology, &entry)?;
    Ok(letter_of(alloc, &topology, &entry, last)?.ok_or("a letter")?)
}

/// Whether the last letter of the sample is the one that is expected, and its copy too.
fn says(alloc: Global, number: u32) -> Result<bool, Fail> {
    let (found, expected) = (last_of(alloc, number)?, last_letter(alloc, number)?);
    Ok(found.copy()? == expected && found == expected)
}

#[test]
fn each_last_letter_says_what_its_entry_says(rt: HostRuntime) -> Result<(), Fail> {
    for number in [0, 3, 4, 5, 6, 8, 9, 10] {
        assert!(rt; says(rt.alloc(), number)?, "{number}");
    }
    Ok(())
}

/// Writes the version, the partition and the keys of a `Write` letter.
fn print_write(letter: &Letter, text: &mut Vec<u8>) -> Result<(), Fail> {
    if let Letter::Write {
        version,
        part,
        items,
    } = letter
    {
        version.print_to(text)?;
        text.push(b' ')?;
        print_number(u64::from(*part), text)?;
        text.push(b' ')?;
        for item in items.as_slice() {
            text.extend_from_slice(item.key.bytes())?;
        }
    }
    Ok(())
}

/// The letter of this number of the first sample.
fn of_first(alloc: Global, number: u32) -> Result<Option<Letter>, Fail> {
    Ok(letter_of(alloc, &three(alloc)?, &sample(alloc, 0)?, number)?)
}

/// What the letters of the first sample write, each in front of a comma; the last one writes nothing.
fn written(alloc: Global) -> Result<Vec<u8>, Fail> {
    let mut text = Vec::new(alloc);
    for number in 1..4u32 {
        print_write(&of_first(alloc, number)?.ok_or("a letter")?, &mut text)?;
        text.push(b',')?;
    }
    Ok(text)
}

#[test]
fn each_write_has_the_items_of_its_partition_by_key(rt: HostRuntime) -> Result<(), Fail> {
    let text = written(rt.alloc())?;
    assert_eq!(rt; str::from_utf8(text.as_slice())?, "1.0 0 dpt,1.0 1 q,,");
    Ok(())
}

#[test]
fn there_is_no_letter_0_and_none_behind_the_last(rt: HostRuntime) -> Result<(), Fail> {
    for number in [0, 4, 4_294_967_295] {
        assert!(rt; of_first(rt.alloc(), number)?.is_none(), "{number}");
    }
    Ok(())
}

/// Whether the copy of the sample of this number is equal to it, and the next sample is not.
fn is_equal_alone(alloc: Global, number: u32) -> Result<bool, Fail> {
    let (entry, next) = (
        sample(alloc, number)?,
        sample(alloc, number.wrapping_add(1))?,
    );
    Ok(entry.copy()? == entry && next != entry)
}

/// Whether the copy of a `Write` letter is equal to it.
fn is_write_equal(alloc: Global) -> Result<bool, Fail> {
    let write = of_first(alloc, 1)?.ok_or("a letter")?;
    Ok(write.copy()? == write)
}

#[test]
fn copies_are_equal_and_other_entries_are_not(rt: HostRuntime) -> Result<(), Fail> {
    for number in 0..17 {
        assert!(rt; is_equal_alone(rt.alloc(), number)?, "{number}");
    }
    assert!(rt; is_write_equal(rt.alloc())?);
    Ok(())
}

/// Whether this actor may make the entry `Told`.
fn may_be_told(alloc: Global, actor: Actor) -> Result<bool, Fail> {
    let mut entry = sample(alloc, 15)?;
    entry.actor = actor;
    Ok(is_of(&three(alloc)?, &entry))
}

#[test]
fn an_entry_is_of_its_sort_of_actor_in_the_topology(rt: HostRuntime) -> Result<(), Fail> {
    assert!(rt; may_be_told(rt.alloc(), Actor::Gate(2))?);
    assert!(rt; !may_be_told(rt.alloc(), Actor::Settler(2))?);
    assert!(rt; !may_be_told(rt.alloc(), Actor::Gate(3))?);
    Ok(())
}
