//! Judging entries: the actors of a topology do what the entries say, one after another.
ghost use Rattle.std.specs.Prelude.{◌≡◌, ◌∷◌, ◌↔◌, reverse, IfOk, IsTrue};
ghost use Rattle.ov_session.specs.Standing.{IsRoster};
ghost use Rattle.ov_topology.specs.Shape.{IsShape};
ghost use Rattle.ov_history.specs.May.{May};
ghost use Rattle.ov_world.specs.Judging.{Judged};
ghost use Rattle.ov_world.specs.World.{Keeps, setting_by};

use crate::act::act_of;
use crate::actor_core::ActorCore;
use crate::delivered::{Delivered, keep_letter, kept_letter};
use crate::world::cores_of;
use ov_base::{Memory, same};
use ov_event::Entry;
use ov_script::Script;
use ov_session::Roster;
use ov_topology::Topology;
use std::alloc::Global;

/// The number, from 1, of the first of these entries, the oldest first, that may not follow those before it (docs/STORE.md, When an entry may
/// follow). None exactly where each may. The only error is out of memory.
pub fn first_refused(
    alloc: Global,
    topology: &Topology,
    script: &Script,
    entries: &[Entry],
) -> Result<Option<u64>, Memory>
    ensures { IfOk result (λ number. Judged (setting_by topology.now script.now) entries.now number) }
{
    let roster = script.roster();
    assure_form(topology);
    let mut cores = cores_of(alloc, topology, roster)?;
    let mut last = None;
    let mut index = 0;
    while index < entries.len() {
        let before = &entries[..index];
        let entry = &entries[index];
        if !follows(
            alloc, topology, roster, before, entry, &mut cores, &mut last,
        )? {
            return Ok(Some(index as u64 + 1));
        }
        index += 1;
    }
    Ok(None)
}

/// Does nothing: where it is called, it is known that the topology is in form.
fn assure_form(topology: &Topology)
    ensures { IsShape topology.now }
{
    let _ = topology.centres();
}

/// Has the actor of an entry do what the entry says. True exactly where it gives that entry, which is where the entry may follow those before
/// it; the cores then stand for all of them. The only error is out of memory. Conditions: the cores stand for the entries before it, of which
/// the letter that is kept is one, and the roster fits.
fn follows(
    alloc: Global,
    topology: &Topology,
    roster: &Roster,
    before: &[Entry],
    entry: &Entry,
    cores: &mut Vec<ActorCore>,
    last: &mut Option<Delivered>,
) -> Result<bool, Memory>
    requires roster { IsRoster roster.now }
    requires keeps { Keeps (record { topology = topology.now; roster = roster.now }) (reverse before.now) cores.old.items last.old }
    ensures may { IfOk result (λ follows. IsTrue follows ↔ May (record { topology = topology.now; roster = roster.now }) (reverse before.now) entry.now) }
    ensures keeps { IfOk result (λ follows. IsTrue follows → Keeps (record { topology = topology.now; roster = roster.now }) (entry.now ∷ reverse before.now) cores.new.items last.new) }
{
    let Some(number) = topology.number_of(entry.actor) else {
        return Ok(false);
    };
    let act = act_of(&entry.kind);
    keep_letter(alloc, topology, before, act, last)?;
    let letter = kept_letter(last, act);
    let core = &mut cores[number as usize];
    match core.act(alloc, roster, act, letter)? {
        None => Ok(false),
        Some(given) => Ok(same(&given, entry)),
    }
}
