//! Stores are acknowledged: pass 4 of a calm round.
ghost use Rattle.std.specs.Prelude.{◌≡◌, ◌++◌, map, OnOk};
ghost use Rattle.ov_world.specs.Acts.{line_in};
ghost use Rattle.ov_world.specs.World.{setting_of};
ghost use Rattle.ov_step.specs.Deeds.{AllDone};
ghost use Rattle.ov_step.specs.Gathered.{acked_by};
ghost use Rattle.ov_step.specs.Quiet.{acks_stay};

use crate::deeds::{Deed, Deeds};
use crate::gather::EntryPass;
use crate::lines::push_take;
use ov_base::Memory;
use ov_event::{Entry, Kind};
use ov_topology::{Actor, Place};
use ov_world::{Line, World};

/// Each acknowledgement is taken by its gateway, where that has not stopped and has none of that version by that node (docs/STORE.md, Calm rounds).
pub(crate) struct Acknowledging;

impl EntryPass for Acknowledging {
    ghost lister = { acked_by };

    ghost stays = { acks_stay };

    fn list(
        world: &World,
        deeds: &Deeds,
        number: u64,
        entry: &Entry,
        lines: &mut Vec<Line>,
    ) -> Result<(), Memory> {
        match (entry.actor, &entry.kind) {
            (Actor::Node { centre, part }, Kind::Stored { version, .. }) => {
                let gate = version.gate();
                let acked = Deed::Acked {
                    gate,
                    version: version.number(),
                    centre,
                    part,
                };
                if deeds.has(acked) {
                    return Ok(());
                }
                let place = Place {
                    entry: number,
                    letter: 1,
                };
                push_take(world, Actor::Gate(gate), place, lines)
            }
            _ => Ok(()),
        }
    }
}
