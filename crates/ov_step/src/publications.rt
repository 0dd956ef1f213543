//! What gateways published last, as calm rounds ask for it.
ghost use Rattle.std.specs.Prelude.{◌≡◌, ◌∷◌, [], ◌+◌, ◌<◌, ℕ, length, IfOk};
ghost use Rattle.ov_topology.specs.declared.actor.Actor.TheVariants.{Gate};
ghost use Rattle.ov_history.specs.Past.{History};
ghost use Rattle.ov_follow.specs.Passes.{is_published, last_published};
ghost use Rattle.ov_step.specs.Rounds.{AreLast};

use ov_base::Memory;
use ov_event::{Entry, Kind};
use ov_topology::Actor;
use std::alloc::Global;
use std::marker::Model;

/// Of each gateway the number of its last `Published` entry.
#[derive(Drop)]
pub(crate) struct Publications {
    /// By gateway; 0 where it has not published.
    last: Vec<u64>,
}

impl Model for Publications {
    ghost use Rattle.std.specs.Prelude.{List, ℕ};

    ghost Value = { List ℕ };

    ghost view = { λ publications. publications.last.items };
}

impl Publications {
    /// Those of the empty history. The only error is out of memory.
    pub(crate) fn new(alloc: Global, gateways: u32) -> Result<Publications, Memory>
        ensures { IfOk result (λ publications. AreLast [] gateways publications) }
    {
        Ok(Publications {
            last: vec![in alloc; 0; gateways as usize]?,
        })
    }

    /// Notes one entry more, of this number. Does not allocate.
    pub(crate) fn note(&mut self, number: u64, entry: &Entry)
        ensures { (h : History) (count : ℕ) → number ≡ length h + 1 → AreLast h count self.old → AreLast (entry.now ∷ h) count self.new }
    {
        match entry.actor {
            Actor::Gate(gate) => self.note_of(gate, number, &entry.kind),
            Actor::Node { .. } => {}
            Actor::Settler(_) => {}
        }
    }

    /// Notes what a gateway did in the entry of this number.
    fn note_of(&mut self, gate: u32, number: u64, kind: &Kind)
        ensures { (h : History) (count : ℕ) → number ≡ length h + 1 → AreLast h count self.old → AreLast (record { actor = Gate gate; kind = kind.now } ∷ h) count self.new }
    {
        if !is_publication(kind) {
            return;
        }
        let Some(last) = self.last.get_mut(gate as usize) else {
            return;
        };
        *last = number;
    }

    /// The number of the last `Published` entry of a gateway, 0 where it has none. Condition: there is such a gateway. Does not allocate.
    pub(crate) fn last_of(&self, gate: u32) -> u64
        requires { gate < length self.now }
        ensures { (h : History) → AreLast h (length self.now) self.now → result ≡ last_published gate h }
    {
        self.last[gate as usize]
    }
}

/// Whether an entry publishes.
fn is_publication(kind: &Kind) -> bool
    ensures { result ≡ is_published kind.now }
{
    matches!(kind, Kind::Published { .. })
}
