//! What a settler does for an act.
ghost use Rattle.std.specs.Prelude.{◌≡◌, None, Some, IfOk, OnErr};
ghost use Rattle.std.specs.Option.{option_map};
ghost use Rattle.ov_topology.specs.declared.actor.Actor as actors;
ghost use Rattle.ov_history.specs.Past.{History};
ghost use Rattle.ov_history.specs.May.{Setting, Lawful};
ghost use Rattle.ov_history.specs.Letters.{letter as letter_at};
ghost use Rattle.ov_history.specs.Gives as gives;
ghost use Rattle.ov_history.specs.Cores.{letter_for};
ghost use Rattle.ov_settler.specs.Settler.{IsSettler};
ghost use Rattle.ov_world.specs.Acts.{act_in};
ghost use Rattle.ov_world.specs.Actors.{Does};

use crate::act::Act;
use ov_base::Memory;
use ov_event::{Entry, Letter};
use ov_settler::SettlerCore;
use ov_topology::Place;
use ov_window::eval_all;
use std::alloc::Global;

/// Does what a settler is asked to do, with its entry. None exactly where it gives none.
pub(super) fn act(
    core: &mut SettlerCore,
    alloc: Global,
    act: Act,
    letter: Option<&Letter>,
) -> Result<Option<Entry>, Memory>
    ensures does { IfOk result (λ answer. (t : Setting) (h : History) (actor : actors.Actor) → Lawful t h → IsSettler t h actor core.old → option_map (λ one. one.now) letter.entry ≡ letter_for t.topology h (act_in act) → Does IsSettler t h actor (act_in act) answer core.new) }
    ensures none { IfOk result (λ answer. answer ≡ None → core.new ≡ core.old) }
    ensures err { OnErr result (core.new ≡ core.old) }
{
    match act {
        Act::Take { place } => match letter {
            Some(letter) => take(core, place, letter),
            None => Ok(None),
        },
        Act::Ask { mode } => core.ask(mode),
        Act::Settle => settle(core, alloc),
        Act::Stop => Ok(core.stop()),
        Act::Begin { .. } | Act::Publish { .. } => Ok(None),
    }
}

/// Takes the letter at the place, with its entry. None exactly where the settler gives none.
fn take(core: &mut SettlerCore, place: Place, letter: &Letter) -> Result<Option<Entry>, Memory>
    ensures does { IfOk result (λ answer. (t : Setting) (h : History) (actor : actors.Actor) → Lawful t h → IsSettler t h actor core.old → letter_at t.topology h place ≡ Some letter.now → Does IsSettler t h actor (gives.Take place) answer core.new) }
    ensures none { IfOk result (λ answer. answer ≡ None → core.new ≡ core.old) }
    ensures err { OnErr result (core.new ≡ core.old) }
{
    match letter {
        Letter::Gossip { .. } => Ok(core.heard(place, letter)),
        Letter::Answer { .. } => core.take(place, letter),
        Letter::Want { .. } => core.result(place, letter),
        _ => Ok(None),
    }
}

/// Settles the open round by evaluating its plan, with its entry. None exactly where the settler gives none.
fn settle(core: &mut SettlerCore, alloc: Global) -> Result<Option<Entry>, Memory>
    ensures does { IfOk result (λ answer. (t : Setting) (h : History) (actor : actors.Actor) → IsSettler t h actor core.old → Does IsSettler t h actor gives.Settle answer core.new) }
    ensures none { IfOk result (λ answer. answer ≡ None → core.new ≡ core.old) }
    ensures err { OnErr result (core.new ≡ core.old) }
{
    let Some(harvest) = core.harvest() else {
        return Ok(None);
    };
    if !harvest.whole() {
        return Ok(None);
    }
    let plan = core.plan(alloc, harvest)?;
    let values = eval_all(alloc, &plan)?;
    core.settle(&plan, values.as_slice())
}
