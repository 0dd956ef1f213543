//! Commands are replied: pass 14 of a calm round.
ghost use Rattle.std.specs.Prelude.{◌≡◌, ◌++◌, map, OnOk};
ghost use Rattle.ov_world.specs.Acts.{line_in};
ghost use Rattle.ov_world.specs.World.{setting_of};
ghost use Rattle.ov_step.specs.Deeds.{AllDone};
ghost use Rattle.ov_step.specs.Gathered.{replied_by};
ghost use Rattle.ov_step.specs.Quiet.{replies_stay};

use crate::deeds::{Deed, Deeds};
use crate::gather::EntryPass;
use crate::lines::push_take;
use ov_base::Memory;
use ov_event::{Entry, Kind};
use ov_topology::{Actor, Place};
use ov_world::{Line, World};

/// Each result of a command that is not replied is taken by its gateway, where that has not stopped (docs/STORE.md, Calm rounds).
pub(crate) struct Replying;

impl EntryPass for Replying {
    ghost lister = { replied_by };

    ghost stays = { replies_stay };

    fn list(
        world: &World,
        deeds: &Deeds,
        number: u64,
        entry: &Entry,
        lines: &mut Vec<Line>,
    ) -> Result<(), Memory> {
        match &entry.kind {
            Kind::Resulted {
                session,
                seq,
                gate,
                ..
            } => {
                let replied = Deed::Replied {
                    session: *session,
                    seq: *seq,
                };
                if deeds.has(replied) {
                    return Ok(());
                }
                let place = Place {
                    entry: number,
                    letter: 1,
                };
                push_take(world, Actor::Gate(*gate), place, lines)
            }
            _ => Ok(()),
        }
    }
}
