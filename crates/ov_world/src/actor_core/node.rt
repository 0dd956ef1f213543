//! What a node does for an act.
ghost use Rattle.std.specs.Prelude.{◌≡◌, None, Some, IfOk, OnErr};
ghost use Rattle.std.specs.Option.{option_map};
ghost use Rattle.ov_topology.specs.declared.actor.Actor as actors;
ghost use Rattle.ov_history.specs.Past.{History};
ghost use Rattle.ov_history.specs.May.{Setting};
ghost use Rattle.ov_history.specs.Letters.{letter as letter_at};
ghost use Rattle.ov_history.specs.Gives as gives;
ghost use Rattle.ov_history.specs.Cores.{letter_for};
ghost use Rattle.ov_node.specs.Node.{IsNode};
ghost use Rattle.ov_world.specs.Acts.{act_in};
ghost use Rattle.ov_world.specs.Actors.{Does};

use crate::act::Act;
use ov_base::Memory;
use ov_event::{Entry, Letter};
use ov_node::NodeCore;
use ov_topology::Place;

/// Does what a node is asked to do, with its entry. None exactly where it gives none.
pub(super) fn act(
    core: &mut NodeCore,
    act: Act,
    letter: Option<&Letter>,
) -> Result<Option<Entry>, Memory>
    ensures does { IfOk result (λ answer. (t : Setting) (h : History) (actor : actors.Actor) → IsNode t h actor core.old → option_map (λ one. one.now) letter.entry ≡ letter_for t.topology h (act_in act) → Does IsNode t h actor (act_in act) answer core.new) }
    ensures none { IfOk result (λ answer. answer ≡ None → core.new ≡ core.old) }
    ensures err { OnErr result (core.new ≡ core.old) }
{
    match act {
        Act::Take { place } => match letter {
            Some(letter) => take(core, place, letter),
            None => Ok(None),
        },
        Act::Stop => Ok(core.stop()),
        _ => Ok(None),
    }
}

/// Takes the letter at the place, with its entry. None exactly where the node gives none.
fn take(core: &mut NodeCore, place: Place, letter: &Letter) -> Result<Option<Entry>, Memory>
    ensures does { IfOk result (λ answer. (t : Setting) (h : History) (actor : actors.Actor) → IsNode t h actor core.old → letter_at t.topology h place ≡ Some letter.now → Does IsNode t h actor (gives.Take place) answer core.new) }
    ensures none { IfOk result (λ answer. answer ≡ None → core.new ≡ core.old) }
    ensures err { OnErr result (core.new ≡ core.old) }
{
    match letter {
        Letter::Write { .. } => core.store(place, letter),
        Letter::Ask { .. } => core.answer(place, letter),
        _ => Ok(None),
    }
}
