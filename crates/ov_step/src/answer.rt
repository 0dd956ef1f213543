//! Open rounds are answered: pass 10 of a calm round.
ghost use Rattle.std.specs.Prelude.{◌≡◌, [], ◌++◌, map, if◌then◌else◌, IfOk, OnOk};
ghost use Rattle.std.specs.Option.{option_map};
ghost use Rattle.ov_topology.specs.declared.actor.Actor.TheVariants.{Node};
ghost use Rattle.ov_event.specs.Letters.{is_asked};
ghost use Rattle.ov_history.specs.Settlers.{open_round};
ghost use Rattle.ov_follow.specs.Passes.{answers, answer_lines, is_waiting, last_asked, each, running, take};
ghost use Rattle.ov_world.specs.Acts.{line_in};
ghost use Rattle.ov_world.specs.World.{setting_of};
ghost use Rattle.ov_step.specs.Rounds.{AreRounds, kept_round};

use crate::lines::{allocator_of, push_take};
use crate::rounds::{Rounds, SettlerRounds};
use ov_base::Memory;
use ov_topology::{Actor, Mode, Place};
use ov_world::{Line, World};

/// Lists that each open round of a settler that has not stopped is answered by each node that is asked and has not stopped
/// (docs/STORE.md, Calm rounds). Condition: these are the rounds of the world's history. The only error is out of memory.
pub(crate) fn list_answers(world: &World, rounds: &Rounds) -> Result<Vec<Line>, Memory>
    requires { AreRounds world.now.history world.now.topology.centres rounds.now }
    ensures { IfOk result (λ lines. map line_in lines.items ≡ answers (setting_of world.now) world.now.history) }
{
    let mut lines = Vec::new(allocator_of(world));
    for settler in 0..world.topology().centres() {
        let of = rounds.of(settler);
        list_by_asked(world, settler, of, &mut lines)?;
    }
    Ok(lines)
}

/// Lists that the open round of a settler is answered, where it has one and has not stopped. Conditions: these are its rounds. The only
/// error is out of memory.
fn list_by_asked(
    world: &World,
    settler: u32,
    rounds: SettlerRounds,
    lines: &mut Vec<Line>,
) -> Result<(), Memory>
    requires asked { rounds.asked ≡ last_asked settler world.now.history }
    requires current { rounds.open ≡ option_map kept_round (open_round settler world.now.history) }
    ensures { OnOk result (map line_in lines.new.items ≡ map line_in lines.old.items ++ (if is_waiting world.now.history settler then answer_lines (setting_of world.now) world.now.history settler else [])) }
{
    let Some(round) = rounds.open else {
        return Ok(());
    };
    if world.has_stopped(Actor::Settler(settler)) {
        return Ok(());
    }
    list_by_centres(world, settler, round.mode, rounds.asked, lines)
}

/// Lists that the nodes that a settler asks in a round of this mode take the first letter of the entry of this number. The only error
/// is out of memory.
fn list_by_centres(
    world: &World,
    settler: u32,
    mode: Mode,
    number: u64,
    lines: &mut Vec<Line>,
) -> Result<(), Memory>
    ensures { OnOk result (map line_in lines.new.items ≡ map line_in lines.old.items ++ each (λ c. if is_asked settler mode (Node c 0) then each (λ p. running world.now.history (take (Node c p) number 1)) world.now.topology.partitions else []) world.now.topology.centres) }
{
    for centre in 0..world.topology().centres() {
        list_by_centre(world, settler, mode, centre, number, lines)?;
    }
    Ok(())
}

/// Lists that the nodes of a centre take the first letter of the entry of this number, where a settler asks them in a round of this
/// mode. The only error is out of memory.
fn list_by_centre(
    world: &World,
    settler: u32,
    mode: Mode,
    centre: u32,
    number: u64,
    lines: &mut Vec<Line>,
) -> Result<(), Memory>
    ensures { OnOk result (map line_in lines.new.items ≡ map line_in lines.old.items ++ (if is_asked settler mode (Node centre 0) then each (λ p. running world.now.history (take (Node centre p) number 1)) world.now.topology.partitions else [])) }
{
    if !asks(settler, mode, centre) {
        return Ok(());
    }
    list_by_parts(world, centre, number, lines)
}

/// Whether a settler asks the nodes of a centre in a round of this mode.
fn asks(settler: u32, mode: Mode, centre: u32) -> bool
    ensures { result ≡ is_asked settler mode (Node centre 0) }
{
    match mode {
        Mode::Quorum => true,
        Mode::One => centre == settler,
    }
}

/// Lists that each node of a centre takes the first letter of the entry of this number. The only error is out of memory.
fn list_by_parts(
    world: &World,
    centre: u32,
    number: u64,
    lines: &mut Vec<Line>,
) -> Result<(), Memory>
    ensures { OnOk result (map line_in lines.new.items ≡ map line_in lines.old.items ++ each (λ p. running world.now.history (take (Node centre p) number 1)) world.now.topology.partitions) }
{
    let place = Place {
        entry: number,
        letter: 1,
    };
    for part in 0..world.topology().partitions() {
        push_take(world, Actor::Node { centre, part }, place, lines)?;
    }
    Ok(())
}
