//! The letters of entries of all kinds, on three data centres with four partitions, a gateway in each centre, and quorums of two.
mod letters;
mod samples;

use crate::{Entry, addressed, is_of, letter_count};
use ov_base::print_number;
use ov_topology::Topology;
use std::alloc::Global;
use std::test::Fail;

fn three(alloc: Global) -> Result<Topology, Fail> {
    Ok(Topology::of(alloc, 3, 4, &[0, 1, 2], 2, 2)?)
}

/// How many letters the entry has.
fn count_of(topology: &Topology, entry: &Entry) -> Result<u32, Fail> {
    if is_of(topology, entry) {
        return Ok(letter_count(topology, entry));
    }
    Err("an entry of the topology".into())
}

/// Whether the letter of this number is addressed to the actor of that number.
fn is_sent_to(topology: &Topology, entry: &Entry, number: u32, actor: u32) -> Result<bool, Fail> {
    let actor = topology.actor(actor).ok_or("an actor")?;
    if is_of(topology, entry) {
        return Ok(addressed(topology, entry, number, actor));
    }
    Err("an entry of the topology".into())
}

/// Writes the numbers of the actors to whom the letter of this number is addressed, each behind a space.
fn write_addressees(
    alloc: Global,
    topology: &Topology,
    entry: &Entry,
    number: u32,
    text: &mut Vec<u8>,
) -> Result<(), Fail> {
    for actor in 0..topology.actors() {
        if is_sent_to(topology, entry, number, actor)? {
            text.push(b' ')?;
            print_number(u64::from(actor), text)?;
        }
    }
    Ok(())
}

/// The addressees of all letters of an entry, each letter behind a comma. The numbers 0 and above the count have none.
fn addressees(alloc: Global, topology: &Topology, entry: &Entry) -> Result<Vec<u8>, Fail> {
    let mut text = Vec::new(alloc);
    write_addressees(alloc, topology, entry, 0, &mut text)?;
    let count = count_of(topology, entry)?;
    for index in 0..count {
        text.push(b',')?;
        write_addressees(alloc, topology, entry, index.wrapping_add(1), &mut text)?;
    }
    write_addressees(alloc, topology, entry, count.wrapping_add(1), &mut text)?;
    Ok(text)
}
