//! Which entries of a settler may follow.
ghost use Rattle.std.specs.Prelude.{◌≡◌, IfOk, IsTrue, ◌↔◌, Some};
ghost use Rattle.std.specs.Option.{option_map};
ghost use Rattle.ov_topology.specs.declared.actor.Actor as actors;
ghost use Rattle.ov_topology.specs.declared.place.Place as places;
ghost use Rattle.ov_event.specs.declared.letter.Letter.TheVariants.{Answer};
ghost use Rattle.ov_history.specs.Past.{History};
ghost use Rattle.ov_history.specs.Letters.{letter as letter_at};
ghost use Rattle.ov_history.specs.May.{Setting, MayAsk, MaySettle, MayResult, SettlerGuard, May};
ghost use Rattle.ov_history.specs.Gives.{act_of};
ghost use Rattle.ov_history.specs.Cores.{letter_for};
ghost use Rattle.ov_settler.specs.Settler.{IsSettler};
ghost use Rattle.ov_settler.specs.Calls.{IsOpen, IsTold};

use super::SettlerCore;
use super::settle::valued;
use ov_base::{Memory, Sequence, Shared, same};
use ov_event::{Entry, Kind, Letter};
use ov_functor::{Item, Reply, Valued};
use ov_gossip::Vector;
use ov_topology::Mode;
use ov_window::eval_all;

impl SettlerCore {
    /// Whether an entry of this settler may follow: exactly then it is true. `letter` is the history's letter at the entry's place, and
    /// None where there is no such letter. For settled values it builds and evaluates the plan of the open round, and for a reply it
    /// computes that, and compares. The only error is out of memory.
    pub fn admits(&self, letter: Option<&Letter>, entry: &Entry) -> Result<bool, Memory>
        ensures { IfOk result (λ admits. (t : Setting) (h : History) (actor : actors.Actor) → IsSettler t h actor self.now → entry.now.actor ≡ actor → option_map (λ one. one.now) letter.entry ≡ letter_for t.topology h (act_of entry.now.kind) → IsTrue admits ↔ May t h entry.now) }
    {
        if self.stopped {
            return Ok(false);
        }
        self.admits_kind(letter, &entry.kind)
    }

    /// Whether an entry of this kind may follow, where the settler has not stopped.
    fn admits_kind(&self, letter: Option<&Letter>, kind: &Kind) -> Result<bool, Memory>
        ensures { IfOk result (λ admits. (t : Setting) (h : History) (actor : actors.Actor) → IsSettler t h actor self.now → option_map (λ one. one.now) letter.entry ≡ letter_for t.topology h (act_of kind.now) → IsTrue admits ↔ SettlerGuard t.topology h self.now.centre kind.now) }
    {
        match kind {
            Kind::Heard { vector, .. } => Ok(may_hear(letter, vector)),
            Kind::Asked {
                round,
                mode,
                from,
                below,
            } => Ok(self.may_ask(*round, *mode, *from, *below)),
            Kind::Taken {
                round,
                centre,
                part,
                items,
                ..
            } => Ok(self.may_take(letter, *round, *centre, *part, items)),
            Kind::Settled { values } => self.may_settle(values),
            Kind::Resulted {
                session,
                seq,
                gate,
                reply,
                ..
            } => self.may_reply(letter, *session, *seq, *gate, reply),
            Kind::Stopped => Ok(true),
            _ => Ok(false),
        }
    }

    /// Whether it may open this round.
    fn may_ask(&self, round: u64, mode: Mode, from: u64, below: u64) -> bool
        ensures { (t : Setting) (h : History) (actor : actors.Actor) → IsSettler t h actor self.now → IsTrue result ↔ MayAsk t.topology h self.now.centre round mode from below }
    {
        if self.rounds == u64::MAX || round != self.rounds + 1 {
            return false;
        }
        if from != self.settled || below != self.upper(mode) {
            return false;
        }
        from < below
    }

    /// Whether a letter answers the open round, of which this is the number, with these items.
    fn may_take(
        &self,
        letter: Option<&Letter>,
        round: u64,
        centre: u32,
        part: u32,
        items: &Shared<Item>,
    ) -> bool
        ensures { IsTrue result ↔ ((option_map (λ one. one.now) letter.entry ≡ Some (Answer self.now.centre round centre part items.now)) × IsOpen self.now round) }
    {
        let Some(
            Letter::Answer {
                settler,
                round: number,
                centre: at,
                part: of,
                items: sent,
            },
        ) = letter
        else {
            return false;
        };
        let Some(_) = &self.harvest else {
            return false;
        };
        if *settler != self.centre || *number != round || *at != centre || *of != part {
            return false;
        }
        round == self.rounds && same(items, sent)
    }

    /// Whether its open round may be settled with these values. The only error is out of memory.
    fn may_settle(&self, values: &Sequence<Valued>) -> Result<bool, Memory>
        ensures { IfOk result (λ may. (t : Setting) (h : History) (actor : actors.Actor) → IsSettler t h actor self.now → IsTrue may ↔ MaySettle t.topology h self.now.centre values.now) }
    {
        let Some(harvest) = &self.harvest else {
            return Ok(false);
        };
        if !harvest.whole() {
            return Ok(false);
        }
        let plan = self.plan(self.alloc, harvest)?;
        let computed = eval_all(self.alloc, &plan)?;
        let own = valued(self.alloc, plan.tasks(), computed.as_slice())?;
        Ok(same(values, &own))
    }

    /// Whether a letter asks it for the reply to this command, and this is the reply that it computes. The only error is out of memory.
    fn may_reply(
        &self,
        letter: Option<&Letter>,
        session: u32,
        seq: u32,
        gate: u32,
        reply: &Reply,
    ) -> Result<bool, Memory>
        ensures { IfOk result (λ may. (t : Setting) (h : History) (actor : actors.Actor) (place : places.Place) → IsSettler t h actor self.now → option_map (λ one. one.now) letter.entry ≡ letter_at t.topology h place → IsTrue may ↔ MayResult t.topology h place self.now.centre session seq gate reply.now) }
    {
        let Some(
            Letter::Want {
                session: of,
                seq: number,
                gate: sender,
                start,
            },
        ) = letter
        else {
            return Ok(false);
        };
        if *of != session || *number != seq || *sender != gate || !self.serves(gate) {
            return Ok(false);
        }
        match self.reply_to(start)? {
            None => Ok(false),
            Some(own) => Ok(same(reply, &own)),
        }
    }
}

/// Whether a letter tells of these marks.
fn may_hear(letter: Option<&Letter>, vector: &Vector) -> bool
    ensures { IsTrue result ↔ IsTold (option_map (λ one. one.now) letter.entry) vector.now }
{
    match letter {
        Some(Letter::Gossip { vector: sent, .. }) => same(sent, vector),
        _ => false,
    }
}
