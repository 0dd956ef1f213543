//! What a gateway does for an act.
ghost use Rattle.std.specs.Prelude.{◌≡◌, None, Some, IfOk, OnErr};
ghost use Rattle.std.specs.Option.{option_map};
ghost use Rattle.ov_topology.specs.declared.actor.Actor as actors;
ghost use Rattle.ov_session.specs.Standing.{IsRoster};
ghost use Rattle.ov_history.specs.Past.{History};
ghost use Rattle.ov_history.specs.May.{Setting, Lawful};
ghost use Rattle.ov_history.specs.Letters.{letter as letter_at};
ghost use Rattle.ov_history.specs.Gives as gives;
ghost use Rattle.ov_history.specs.Cores.{letter_for};
ghost use Rattle.ov_gate.specs.Gate.{IsGate};
ghost use Rattle.ov_world.specs.Acts.{act_in};
ghost use Rattle.ov_world.specs.Actors.{Does};

use crate::act::Act;
use ov_base::Memory;
use ov_event::{Entry, Letter};
use ov_gate::GateCore;
use ov_session::Roster;
use ov_topology::Place;

/// Does what a gateway is asked to do, with its entry. None exactly where it gives none.
pub(super) fn act(
    core: &mut GateCore,
    roster: &Roster,
    act: Act,
    letter: Option<&Letter>,
) -> Result<Option<Entry>, Memory>
    requires { IsRoster roster.now }
    ensures does { IfOk result (λ answer. (t : Setting) (h : History) (actor : actors.Actor) → t.roster ≡ roster.now → Lawful t h → IsGate t h actor core.old → option_map (λ one. one.now) letter.entry ≡ letter_for t.topology h (act_in act) → Does IsGate t h actor (act_in act) answer core.new) }
    ensures none { IfOk result (λ answer. answer ≡ None → core.new ≡ core.old) }
    ensures err { OnErr result (core.new ≡ core.old) }
{
    match act {
        Act::Begin { session, clock } => core.begin(roster, session, clock),
        Act::Take { place } => match letter {
            Some(letter) => take(core, place, letter),
            None => Ok(None),
        },
        Act::Publish { clock } => Ok(core.publish(clock)),
        Act::Stop => Ok(core.stop()),
        Act::Ask { .. } | Act::Settle => Ok(None),
    }
}

/// Takes the letter at the place, with its entry. None exactly where the gateway gives none.
fn take(core: &mut GateCore, place: Place, letter: &Letter) -> Result<Option<Entry>, Memory>
    ensures does { IfOk result (λ answer. (t : Setting) (h : History) (actor : actors.Actor) → Lawful t h → IsGate t h actor core.old → letter_at t.topology h place ≡ Some letter.now → Does IsGate t h actor (gives.Take place) answer core.new) }
    ensures none { IfOk result (λ answer. answer ≡ None → core.new ≡ core.old) }
    ensures err { OnErr result (core.new ≡ core.old) }
{
    match letter {
        Letter::Ack { .. } => Ok(core.acked(place, letter)),
        Letter::Gossip { .. } => Ok(core.heard(place, letter)),
        Letter::Result { .. } => core.replied(place, letter),
        Letter::Told { .. } => Ok(core.told(place, letter)),
        _ => Ok(None),
    }
}
