//! Answers are taken: pass 11 of a calm round.
ghost use Rattle.std.specs.Prelude.{◌≡◌, Some, [], ◌++◌, map, if◌then◌else◌, IfOk, OnOk};
ghost use Rattle.std.specs.Option.{option_map};
ghost use Rattle.ov_topology.specs.declared.actor.Actor.TheVariants.{Settler};
ghost use Rattle.ov_history.specs.Settlers.{Round, open_round};
ghost use Rattle.ov_follow.specs.Passes.{takes, gather, only, take, is_to, is_waiting, last_asked};
ghost use Rattle.ov_world.specs.Acts.{line_in};
ghost use Rattle.ov_world.specs.World.{setting_of};
ghost use Rattle.ov_step.specs.Rounds.{AreRounds, kept_round};

use crate::lines::allocator_of;
use crate::rounds::{OpenRound, Rounds, SettlerRounds};
use ov_base::Memory;
use ov_event::{Entry, Kind};
use ov_topology::{Actor, Place};
use ov_world::{Act, Line, World};

/// Lists that each answer to an open round is taken by its settler, where that has not stopped (docs/STORE.md, Calm rounds). Condition:
/// these are the rounds of the world's history. Looks at no entry before the one that asked for the round. The only error is out of
/// memory.
pub(crate) fn list_takes(world: &World, rounds: &Rounds) -> Result<Vec<Line>, Memory>
    requires { AreRounds world.now.history world.now.topology.centres rounds.now }
    ensures { IfOk result (λ lines. map line_in lines.items ≡ takes (setting_of world.now) world.now.history) }
{
    let mut lines = Vec::new(allocator_of(world));
    for settler in 0..world.topology().centres() {
        let of = rounds.of(settler);
        list_by_settler(world, settler, of, &mut lines)?;
    }
    Ok(lines)
}

/// Lists that a settler takes each answer to its open round, where it has one and has not stopped. Conditions: these are its rounds. The
/// only error is out of memory.
fn list_by_settler(
    world: &World,
    settler: u32,
    rounds: SettlerRounds,
    lines: &mut Vec<Line>,
) -> Result<(), Memory>
    requires asked { rounds.asked ≡ last_asked settler world.now.history }
    requires current { rounds.open ≡ option_map kept_round (open_round settler world.now.history) }
    ensures { OnOk result (map line_in lines.new.items ≡ map line_in lines.old.items ++ (if is_waiting world.now.history settler then gather (λ number e. only (is_to settler (open_round settler world.now.history) e.kind) (take (Settler settler) number 1)) world.now.history else [])) }
{
    let Some(round) = rounds.open else {
        return Ok(());
    };
    if world.has_stopped(Actor::Settler(settler)) {
        return Ok(());
    }
    list_from(world, settler, round, rounds.asked, lines)
}

/// Lists that a settler takes each answer to its open round. Conditions: this is that round, and this the number of the settler's last
/// `Asked` entry. Looks at the entries behind that one; the only error is out of memory.
fn list_from(
    world: &World,
    settler: u32,
    round: OpenRound,
    asked: u64,
    lines: &mut Vec<Line>,
) -> Result<(), Memory>
    requires asked { asked ≡ last_asked settler world.now.history }
    requires current { Some round ≡ option_map kept_round (open_round settler world.now.history) }
    ensures { OnOk result (map line_in lines.new.items ≡ map line_in lines.old.items ++ gather (λ number e. only (is_to settler (open_round settler world.now.history) e.kind) (take (Settler settler) number 1)) world.now.history) }
{
    let entries = world.entries();
    for place in asked as usize..entries.len() {
        let number = place as u64 + 1;
        list_entry(settler, round, number, &entries[place], lines)?;
    }
    Ok(())
}

/// Lists that a settler takes the answer that the entry of this number is, where it answers a round of the settler. The only error is
/// out of memory.
fn list_entry(
    settler: u32,
    round: OpenRound,
    number: u64,
    entry: &Entry,
    lines: &mut Vec<Line>,
) -> Result<(), Memory>
    ensures { OnOk result ((current : Round) → round ≡ kept_round current → map line_in lines.new.items ≡ map line_in lines.old.items ++ only (is_to settler (Some current) entry.now.kind) (take (Settler settler) number 1)) }
{
    if !is_to(settler, round, &entry.kind) {
        return Ok(());
    }
    let place = Place {
        entry: number,
        letter: 1,
    };
    lines.push(Line {
        actor: Actor::Settler(settler),
        act: Act::Take { place },
    })?;
    Ok(())
}

/// Whether an entry answers a round of a settler.
fn is_to(settler: u32, round: OpenRound, kind: &Kind) -> bool
    ensures { (current : Round) → round ≡ kept_round current → result ≡ is_to settler (Some current) kind.now }
{
    match kind {
        Kind::Answered {
            settler: asker,
            round: number,
            ..
        } => *asker == settler && *number == round.number,
        _ => false,
    }
}
