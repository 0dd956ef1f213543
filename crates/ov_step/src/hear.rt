//! What gateways published last is heard: the passes 6 and 8 of a calm round.
ghost use Rattle.std.specs.Prelude.{◌≡◌, ◌==◌, ◌||◌, [], ◌++◌, map, if◌then◌else◌, IfOk, OnOk};
ghost use Rattle.ov_topology.specs.Shape.{gates};
ghost use Rattle.ov_topology.specs.declared.actor.Actor.TheVariants.{Gate, Settler};
ghost use Rattle.ov_history.specs.Past.{stopped};
ghost use Rattle.ov_follow.specs.Passes.{hears, hear_lines, last_published, each, running, take};
ghost use Rattle.ov_world.specs.Acts.{line_in};
ghost use Rattle.ov_world.specs.World.{setting_of};
ghost use Rattle.ov_step.specs.Rounds.{AreLast};

use crate::lines::{allocator_of, push_take};
use crate::publications::Publications;
use ov_base::Memory;
use ov_topology::{Actor, Place};
use ov_world::{Line, World};

/// Lists that what each gateway that has not stopped published last is heard by each other gateway and then by each settler, where it
/// has published (docs/STORE.md, Calm rounds). Condition: these are the publications of the world's history. The only error is out of
/// memory.
pub(crate) fn list_hears(world: &World, publications: &Publications) -> Result<Vec<Line>, Memory>
    requires { AreLast world.now.history (gates world.now.topology) publications.now }
    ensures { IfOk result (λ lines. map line_in lines.items ≡ hears (setting_of world.now) world.now.history) }
{
    let mut lines = Vec::new(allocator_of(world));
    for gate in 0..world.topology().gateways() {
        let number = publications.last_of(gate);
        list_last(world, gate, number, &mut lines)?;
    }
    Ok(lines)
}

/// Lists that what a gateway published last is heard, where it has published and has not stopped. Condition: this is the number of its
/// last `Published` entry, 0 where it has none. The only error is out of memory.
fn list_last(world: &World, gate: u32, number: u64, lines: &mut Vec<Line>) -> Result<(), Memory>
    requires { number ≡ last_published gate world.now.history }
    ensures { OnOk result (map line_in lines.new.items ≡ map line_in lines.old.items ++ (if stopped (Gate gate) world.now.history || (last_published gate world.now.history == 0) then [] else hear_lines (setting_of world.now) world.now.history gate (last_published gate world.now.history))) }
{
    if world.has_stopped(Actor::Gate(gate)) || number == 0 {
        return Ok(());
    }
    list_hear(world, gate, number, lines)
}

/// Lists that the entry of this number of a gateway is heard by each other gateway and then by each settler. The only error is out of
/// memory.
fn list_hear(world: &World, gate: u32, number: u64, lines: &mut Vec<Line>) -> Result<(), Memory>
    ensures { OnOk result (map line_in lines.new.items ≡ map line_in lines.old.items ++ hear_lines (setting_of world.now) world.now.history gate number) }
{
    list_by_gates(world, gate, number, lines)?;
    list_by_settlers(world, number, lines)
}

/// Lists that the entry of this number of a gateway is heard by each other gateway. The only error is out of memory.
fn list_by_gates(world: &World, gate: u32, number: u64, lines: &mut Vec<Line>) -> Result<(), Memory>
    ensures { OnOk result (map line_in lines.new.items ≡ map line_in lines.old.items ++ each (λ k. if k == gate then [] else running world.now.history (take (Gate k) number 1)) (gates world.now.topology)) }
{
    for hearer in 0..world.topology().gateways() {
        list_by_gate(world, hearer, gate, number, lines)?;
    }
    Ok(())
}

/// Lists that the entry of this number of a gateway is heard by a gateway, where that is another one. The only error is out of memory.
fn list_by_gate(
    world: &World,
    hearer: u32,
    gate: u32,
    number: u64,
    lines: &mut Vec<Line>,
) -> Result<(), Memory>
    ensures { OnOk result (map line_in lines.new.items ≡ map line_in lines.old.items ++ (if hearer == gate then [] else running world.now.history (take (Gate hearer) number 1))) }
{
    if hearer == gate {
        return Ok(());
    }
    let place = Place {
        entry: number,
        letter: 1,
    };
    push_take(world, Actor::Gate(hearer), place, lines)
}

/// Lists that the entry of this number is heard by each settler. The only error is out of memory.
fn list_by_settlers(world: &World, number: u64, lines: &mut Vec<Line>) -> Result<(), Memory>
    ensures { OnOk result (map line_in lines.new.items ≡ map line_in lines.old.items ++ each (λ s. running world.now.history (take (Settler s) number 1)) world.now.topology.centres) }
{
    let place = Place {
        entry: number,
        letter: 1,
    };
    for centre in 0..world.topology().centres() {
        push_take(world, Actor::Settler(centre), place, lines)?;
    }
    Ok(())
}
