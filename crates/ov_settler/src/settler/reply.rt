//! The replies that a settler computes.
ghost use Rattle.std.specs.Prelude.{◌≡◌, IfOk, get_or};
ghost use Rattle.ov_topology.specs.declared.actor.Actor as actors;
ghost use Rattle.ov_topology.specs.declared.actor.Actor.TheVariants.{Settler};
ghost use Rattle.ov_event.specs.Letters.{is_settler};
ghost use Rattle.ov_history.specs.Past.{History};
ghost use Rattle.ov_history.specs.Letters.{letter as letter_at};
ghost use Rattle.ov_history.specs.May.{Setting};
ghost use Rattle.ov_history.specs.Gives.{Take};
ghost use Rattle.ov_history.specs.Cores.{Steps};
ghost use Rattle.ov_history.specs.Settlers.{shown};
ghost use Rattle.ov_settler.specs.Settler.{IsSettler, is_resulted};
ghost use Rattle.ov_settler.specs.Calls.{map_of, reply_to};

use super::SettlerCore;
use ov_base::{Key, Memory, Sequence, Value};
use ov_event::{Entry, Kind, Letter, Start};
use ov_functor::{Lookup, Reply, Shown, reply_on};
use ov_lists::VersionLists;
use ov_topology::Place;
use std::alloc::Global;
use std::marker::Model;

impl SettlerCore {
    /// Computes the reply that a `Want` letter asks for, with its `Resulted` entry. None exactly where no such entry may follow: the
    /// settler has stopped, the letter is not a `Want` to it, or what the reply shows is not settled: a transaction's version is not below the
    /// number up to which all is settled, or that number is below a snapshot's floor. Nothing of the settler changes, whatever comes. The
    /// letter stands at the place in the history. The only error is out of memory.
    pub fn result(&mut self, place: Place, letter: &Letter) -> Result<Option<Entry>, Memory>
        ensures steps { IfOk result (λ answer. (t : Setting) (h : History) (actor : actors.Actor) → IsSettler t h actor self.old → letter_at t.topology h place ≡ Some letter.now → Steps IsSettler is_resulted t h actor (Take place) answer self.new) }
        ensures same { self.new ≡ self.old }
    {
        let Letter::Want {
            session,
            seq,
            gate,
            start,
        } = letter
        else {
            return Ok(None);
        };
        if self.stopped || !self.serves(*gate) {
            return Ok(None);
        }
        let Some(reply) = self.reply_to(start)? else {
            return Ok(None);
        };
        Ok(Some(self.entry(Kind::Resulted {
            place,
            session: *session,
            seq: *seq,
            gate: *gate,
            reply,
        })))
    }

    /// The reply to a command that begins so. None exactly where what it shows is not settled. The only error is out of memory.
    pub(super) fn reply_to(&self, start: &Start) -> Result<Option<Reply>, Memory>
        ensures { IfOk result (λ reply. reply ≡ reply_to self.now start.now) }
    {
        match start {
            Start::Draw {
                version,
                transaction,
            } => {
                let below = version.number();
                if self.settled <= below {
                    return Ok(None);
                }
                let reply = reply_on(self.alloc, *version, transaction, &self.values_below(below))?;
                Ok(Some(reply))
            }
            Start::Look { floor, keys } => {
                if self.settled < *floor {
                    return Ok(None);
                }
                let shown = shown_of(
                    self.alloc,
                    keys.as_slice(),
                    &self.values_below(self.settled),
                )?;
                Ok(Some(Reply::Snap {
                    watermark: self.settled,
                    shown,
                }))
            }
        }
    }

    /// Whether it is the settler of the gateway's centre, to which what the gateway wants is addressed.
    pub(super) fn serves(&self, gate: u32) -> bool
        ensures { result ≡ is_settler (get_or self.now.topology.gateways gate 0) (Settler self.now.centre) }
    {
        if gate < self.topology.gateways() {
            self.topology.centre_of(gate) == self.centre
        } else {
            self.centre == 0
        }
    }

    /// Its values just below a number.
    pub(super) fn values_below(&self, below: u64) -> ValuesBelow<'_>
        ensures { result ≡ record { below = below; values = self.now.values } }
    {
        ValuesBelow {
            values: &self.values,
            below,
        }
    }
}

/// The values of a settler just below a number. Contracts see what is settled, and that number.
#[derive(Drop)]
pub(super) struct ValuesBelow<'a> {
    values: &'a VersionLists<Value>,
    below: u64,
}

impl<'a> Model for ValuesBelow<'a> {
    ghost use Rattle.ov_settler.specs.Calls.{Below};

    ghost Value = { Below };

    ghost view = { λ v. record { below = v.below; values = v.values.now.entries } };
}

impl<'a> Lookup for ValuesBelow<'a> {
    ghost map = { map_of };

    fn value_of(&self, key: &Key) -> Value {
        match self.values.latest(*key, self.below) {
            Some((_, value)) => *value,
            None => Value::Absent,
        }
    }
}

/// These keys with their values. The only error is out of memory.
fn shown_of<L: Lookup>(alloc: Global, keys: &[Key], values: &L) -> Result<Sequence<Shown>, Memory>
    ensures { IfOk result (λ all. all ≡ shown (L.map values.now) keys.now) }
{
    let mut all = Sequence::new(alloc);
    for key in keys {
        all.push(Shown {
            key: *key,
            value: values.value_of(key),
        })?;
    }
    Ok(all)
}
