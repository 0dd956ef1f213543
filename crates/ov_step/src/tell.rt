//! What was replied is told: pass 1 of a calm round.
ghost use Rattle.std.specs.Prelude.{◌≡◌, ◌++◌, map, OnOk};
ghost use Rattle.ov_topology.specs.Shape.{gates};
ghost use Rattle.ov_follow.specs.Passes.{each};
ghost use Rattle.ov_world.specs.Acts.{line_in};
ghost use Rattle.ov_world.specs.World.{setting_of};
ghost use Rattle.ov_step.specs.Deeds.{AllDone, IsLookup};
ghost use Rattle.ov_step.specs.declared.deeds.Deed.TheVariants.{Told};
ghost use Rattle.ov_step.specs.Gathered.{told_by};
ghost use Rattle.ov_step.specs.Quiet.{tells_stay};
ghost use Rattle.ov_step.specs.Telling.{told_line};

use crate::deeds::{Deed, Deeds, Lookup};
use crate::gather::EntryPass;
use crate::lines::push_take;
use ov_base::Memory;
use ov_event::{Entry, Kind};
use ov_topology::{Actor, Place};
use ov_world::{Line, World};

/// Each `Replied` entry is told to each other gateway that has not stopped and was not told of that command (docs/STORE.md, Calm rounds).
pub(crate) struct Telling;

/// A `Replied` entry of a gateway, by its number.
#[derive(Clone, Copy, Debug)]
struct RepliedEntry {
    number: u64,
    gate: u32,
    session: u32,
    seq: u32,
}

impl EntryPass for Telling {
    ghost lister = { told_by };

    ghost stays = { tells_stay };

    fn list(
        world: &World,
        deeds: &Deeds,
        number: u64,
        entry: &Entry,
        lines: &mut Vec<Line>,
    ) -> Result<(), Memory> {
        match (entry.actor, &entry.kind) {
            (Actor::Gate(gate), Kind::Replied { session, seq, .. }) => {
                let replied = RepliedEntry {
                    number,
                    gate,
                    session: *session,
                    seq: *seq,
                };
                list_tolds(world, deeds, &replied, lines)
            }
            _ => Ok(()),
        }
    }
}

/// Lists the lines by which the gateways are told of the entry. Condition: these are the deeds of the world's history. The only error is out of
/// memory.
fn list_tolds(
    world: &World,
    deeds: &Deeds,
    replied: &RepliedEntry,
    lines: &mut Vec<Line>,
) -> Result<(), Memory>
    requires { AllDone world.now.history deeds.now }
    ensures { OnOk result (map line_in lines.new.items ≡ map line_in lines.old.items ++ each (told_line world.now.history replied.now) (gates world.now.topology)) }
{
    let mut last = deeds.look_up(told(replied, 0));
    for gate in 0..world.topology().gateways() {
        list_told(world, deeds, replied, gate, &mut last, lines)?;
    }
    Ok(())
}

/// Lists the line by which a gateway is told of the entry, where there is one. Conditions: these are the deeds of the world's history, of which one
/// was looked up last; then one was again. The only error is out of memory.
fn list_told(
    world: &World,
    deeds: &Deeds,
    replied: &RepliedEntry,
    gate: u32,
    last: &mut Lookup,
    lines: &mut Vec<Line>,
) -> Result<(), Memory>
    requires deeds { AllDone world.now.history deeds.now }
    requires last { IsLookup deeds.now last.old }
    ensures last { OnOk result (IsLookup deeds.now last.new) }
    ensures lines { OnOk result (map line_in lines.new.items ≡ map line_in lines.old.items ++ told_line world.now.history replied.now gate) }
{
    if gate == replied.gate || deeds.has_next(told(replied, gate), last) {
        return Ok(());
    }
    let place = Place {
        entry: replied.number,
        letter: 1,
    };
    push_take(world, Actor::Gate(gate), place, lines)
}

/// That a gateway was told of the entry. Does not allocate.
fn told(replied: &RepliedEntry, gate: u32) -> Deed
    ensures { result ≡ Told gate replied.now.session replied.now.seq }
{
    Deed::Told {
        gate,
        session: replied.session,
        seq: replied.seq,
    }
}
