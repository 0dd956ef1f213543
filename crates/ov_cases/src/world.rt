//! Cases of worlds: a schedule that is followed, and a journal whose entries are admitted.
use crate::block::{Block, blocks_of};
use crate::case::Case;
use crate::fault::CaseFault;
use crate::line::{bytes_of, print_count};
use ov_base::Memory;
use ov_event::Entry;
use ov_journal::{JournalError, has_line, print_entry, read_journal};
use ov_script::{Schedule, ScheduleError, Script, ScriptError, Step};
use ov_topology::{Topology, TopologyError};
use ov_world::World;
use std::alloc::Global;

/// The entry that each line of the schedule gives, or `none`.
pub fn followed(alloc: Global, case: &Case) -> Result<Vec<u8>, CaseFault> {
    let blocks = blocks_of(alloc, case.input.as_slice())?;
    let mut world = world_of(alloc, case, blocks.as_slice())?;
    let schedule = schedule_of(alloc, case, blocks.as_slice())?;
    let mut printed = Vec::new(alloc);
    for step in schedule.steps() {
        print_step(alloc, &mut world, step, &mut printed)?;
    }
    Ok(printed)
}

/// The schedule of a case.
fn schedule_of(alloc: Global, case: &Case, blocks: &[Block]) -> Result<Schedule, CaseFault> {
    let text = text_of(alloc, case, blocks, "schedule")?;
    match Schedule::read(alloc, text.as_slice()) {
        Ok(schedule) => Ok(schedule),
        Err(ScheduleError::Memory) => Err(CaseFault::Memory),
        Err(_) => Err(case.head.fault("its schedule is not accepted")),
    }
}

/// `lawful N`, where all N entries of the journal are admitted, or `entry N`, the first that may not follow.
pub fn admitted(alloc: Global, case: &Case) -> Result<Vec<u8>, CaseFault> {
    let blocks = blocks_of(alloc, case.input.as_slice())?;
    let mut world = world_of(alloc, case, blocks.as_slice())?;
    let entries = entries_of(alloc, case, blocks.as_slice())?;
    verdict(alloc, &mut world, entries.as_slice())
}

/// `yes` for each entry of the journal that may follow those that were admitted before it, and `no` for each other.
pub fn admitted_each(alloc: Global, case: &Case) -> Result<Vec<u8>, CaseFault> {
    let blocks = blocks_of(alloc, case.input.as_slice())?;
    let mut world = world_of(alloc, case, blocks.as_slice())?;
    let mut printed = Vec::new(alloc);
    for entry in entries_of(alloc, case, blocks.as_slice())?.as_slice() {
        if world.admit(entry)? {
            printed.extend_from_slice(b"yes\n")?;
        } else {
            printed.extend_from_slice(b"no\n")?;
        }
    }
    Ok(printed)
}

/// The entries of the journal of a case.
fn entries_of(alloc: Global, case: &Case, blocks: &[Block]) -> Result<Vec<Entry>, CaseFault> {
    let text = text_of(alloc, case, blocks, "journal")?;
    match read_journal(alloc, text.as_slice()) {
        Ok(entries) => Ok(entries),
        Err(JournalError::Memory) => Err(CaseFault::Memory),
        Err(JournalError::Line(_)) => Err(case.head.fault("its journal is not accepted")),
    }
}

/// Admits entries up to the first that may not follow, and says how that went.
fn verdict(alloc: Global, world: &mut World, entries: &[Entry]) -> Result<Vec<u8>, CaseFault> {
    let mut printed = Vec::new(alloc);
    for entry in entries {
        if !world.admit(entry)? {
            let number = (world.entries().len() as u64).saturating_add(1);
            print_count("entry", number, &mut printed)?;
            return Ok(printed);
        }
    }
    print_count("lawful", world.entries().len() as u64, &mut printed)?;
    Ok(printed)
}

/// Follows a line, and prints the entry that it gives, or `none`.
fn print_step(
    alloc: Global,
    world: &mut World,
    step: &Step,
    printed: &mut Vec<u8>,
) -> Result<(), Memory> {
    if world.follow(step)? {
        print_last(alloc, world.entries(), printed)?;
    } else {
        printed.extend_from_slice(b"none")?;
    }
    Ok(printed.push(b'\n')?)
}

/// Prints the last entry, which has a line, as those of every world.
fn print_last(alloc: Global, entries: &[Entry], printed: &mut Vec<u8>) -> Result<(), Memory> {
    match entries.last() {
        Some(entry) if has_line(entry) => print_entry(alloc, entry, printed),
        _ => Ok(()),
    }
}

/// The world of the topology and the script of a case.
fn world_of(alloc: Global, case: &Case, blocks: &[Block]) -> Result<World, CaseFault> {
    let text = text_of(alloc, case, blocks, "topology")?;
    let topology = match Topology::read(alloc, text.as_slice()) {
        Ok(topology) => topology,
        Err(TopologyError::Memory) => return Err(CaseFault::Memory),
        Err(_) => return Err(case.head.fault("its topology is not accepted")),
    };
    let text = text_of(alloc, case, blocks, "script")?;
    match Script::read(alloc, text.as_slice(), topology.gateways()) {
        Ok(script) => Ok(World::start(alloc, topology, script)?),
        Err(ScriptError::Memory) => Err(CaseFault::Memory),
        Err(_) => Err(case.head.fault("its script is not accepted")),
    }
}

/// The bytes of the file of this name in a case.
fn text_of(alloc: Global, case: &Case, blocks: &[Block], name: &str) -> Result<Vec<u8>, CaseFault> {
    for block in blocks {
        if block.name == name {
            return bytes_of(alloc, block.lines.as_slice());
        }
    }
    Err(case.head.fault("a topology, a script, and a schedule or a journal are wanted"))
}
