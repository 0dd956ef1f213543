//! Writes are stored: pass 3 of a calm round.
ghost use Rattle.std.specs.Prelude.{◌≡◌, ◌++◌, ℕ, map, OnOk};
ghost use Rattle.ov_event.specs.Letters.{start_writes, touched, write_of};
ghost use Rattle.ov_follow.specs.Passes.{each, over, write_lines};
ghost use Rattle.ov_world.specs.Acts.{line_in};
ghost use Rattle.ov_world.specs.World.{setting_of};
ghost use Rattle.ov_step.specs.Deeds.{AllDone};
ghost use Rattle.ov_step.specs.declared.deeds.Deed.TheVariants.{Stored};
ghost use Rattle.ov_step.specs.Gathered.{stored_by};
ghost use Rattle.ov_step.specs.Storing.{node_stores};
ghost use Rattle.ov_step.specs.QuietStores.{stores_stay};

use crate::deeds::{Deed, Deeds};
use crate::gather::EntryPass;
use crate::lines::push_take;
use ov_base::Memory;
use ov_event::{Entry, Kind, Start, touched_parts};
use ov_functor::Part;
use ov_topology::{Actor, Place};
use ov_world::{Line, World};

/// Each `Write` letter is taken by each node of its partition that has not stopped and has not stored it (docs/STORE.md, Calm rounds).
pub(crate) struct Storing;

impl EntryPass for Storing {
    ghost lister = { stored_by };

    ghost stays = { stores_stay };

    fn list(
        world: &World,
        deeds: &Deeds,
        number: u64,
        entry: &Entry,
        lines: &mut Vec<Line>,
    ) -> Result<(), Memory> {
        match entry.actor {
            Actor::Gate(_) => match &entry.kind {
                Kind::Began { start, .. } => list_start(world, deeds, number, start, lines),
                _ => Ok(()),
            },
            Actor::Node { .. } => Ok(()),
            Actor::Settler(_) => Ok(()),
        }
    }
}

/// Lists the lines for the `Write` letters of the entry of a number, by which a gateway begins a command with this start. Condition: these are the
/// deeds of the world's history. The only error is out of memory.
fn list_start(
    world: &World,
    deeds: &Deeds,
    number: u64,
    start: &Start,
    lines: &mut Vec<Line>,
) -> Result<(), Memory>
    requires { AllDone world.now.history deeds.now }
    ensures { OnOk result (map line_in lines.new.items ≡ map line_in lines.old.items ++ over (write_lines (setting_of world.now) world.now.history number) 1 (start_writes world.now.topology start.now)) }
{
    match start {
        Start::Draw { transaction, .. } => list_writes(
            world,
            deeds,
            number,
            transaction.parts(),
            lines,
        ),
        Start::Look { .. } => Ok(()),
    }
}

/// Lists the lines for the `Write` letters of the entry of a number, which begins a transaction of these parts, whatever its version: one letter for
/// each partition that they touch, upwards. Condition: these are the deeds of the world's history. The only error is out of memory.
fn list_writes(
    world: &World,
    deeds: &Deeds,
    number: u64,
    parts: &[Part],
    lines: &mut Vec<Line>,
) -> Result<(), Memory>
    requires { AllDone world.now.history deeds.now }
    ensures { OnOk result ((version : ℕ) → map line_in lines.new.items ≡ map line_in lines.old.items ++ over (write_lines (setting_of world.now) world.now.history number) 1 (map (write_of world.now.topology version parts.now) (touched world.now.topology parts.now))) }
{
    let topology = world.topology();
    let touched = touched_parts(topology, parts);
    let mut letter = 0;
    for part in 0..topology.partitions() {
        if touched.has(part) {
            letter += 1;
            list_write(world, deeds, number, letter, part, lines)?;
        }
    }
    Ok(())
}

/// Lists the lines for the letter of this number of the entry of a number, which is the `Write` letter of the partition. Condition: these are the
/// deeds of the world's history. The only error is out of memory.
fn list_write(
    world: &World,
    deeds: &Deeds,
    number: u64,
    letter: u32,
    part: u32,
    lines: &mut Vec<Line>,
) -> Result<(), Memory>
    requires { AllDone world.now.history deeds.now }
    ensures { OnOk result (map line_in lines.new.items ≡ map line_in lines.old.items ++ each (node_stores number letter part world.now.history) world.now.topology.centres) }
{
    let place = Place {
        entry: number,
        letter,
    };
    let mut last = deeds.look_up(stored(place, 0, part));
    for centre in 0..world.topology().centres() {
        if !deeds.has_next(stored(place, centre, part), &mut last) {
            push_take(world, Actor::Node { centre, part }, place, lines)?;
        }
    }
    Ok(())
}

/// That a node stored the letter of this place. Does not allocate.
fn stored(place: Place, centre: u32, part: u32) -> Deed
    ensures { result ≡ Stored place.entry place.letter centre part }
{
    Deed::Stored {
        entry: place.entry,
        letter: place.letter,
        centre,
        part,
    }
}
