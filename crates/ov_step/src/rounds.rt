//! The rounds of settlers, as calm rounds ask for them.
ghost use Rattle.std.specs.Prelude.{◌≡◌, ◌∷◌, [], ◌+◌, ◌<◌, ℕ, length, slice_get, Some, IfOk};
ghost use Rattle.ov_topology.specs.declared.actor.Actor.TheVariants.{Settler};
ghost use Rattle.ov_history.specs.Past.{History};
ghost use Rattle.ov_step.specs.Reading.{rounds_next};
ghost use Rattle.ov_step.specs.Rounds.{AreRounds};

use ov_base::Memory;
use ov_event::{Entry, Kind};
use ov_topology::{Actor, Mode};
use std::alloc::Global;
use std::marker::Model;

/// A round that a settler has opened and not settled.
#[derive(Clone, Copy, Debug)]
pub(crate) struct OpenRound {
    pub(crate) number: u64,
    pub(crate) mode: Mode,
}

/// The rounds of a settler.
#[derive(Clone, Copy, Debug)]
pub(crate) struct SettlerRounds {
    /// The number of its last `Asked` entry, 0 where it has none.
    pub(crate) asked: u64,
    pub(crate) open: Option<OpenRound>,
}

/// The rounds of all settlers, by centre.
#[derive(Drop)]
pub(crate) struct Rounds {
    settlers: Vec<SettlerRounds>,
}

impl Model for Rounds {
    ghost use Rattle.std.specs.Prelude.{List};
    ghost use Rattle.ov_step.specs.declared.rounds.SettlerRounds.{SettlerRounds};

    ghost Value = { List SettlerRounds };

    ghost view = { λ rounds. rounds.settlers.items };
}

impl Rounds {
    /// Those of the empty history. The only error is out of memory.
    pub(crate) fn new(alloc: Global, centres: u32) -> Result<Rounds, Memory>
        ensures { IfOk result (λ rounds. AreRounds [] centres rounds) }
    {
        let none = SettlerRounds {
            asked: 0,
            open: None,
        };
        Ok(Rounds {
            settlers: vec![in alloc; none; centres as usize]?,
        })
    }

    /// Notes one entry more, of this number. Does not allocate.
    pub(crate) fn note(&mut self, number: u64, entry: &Entry)
        ensures { (h : History) (count : ℕ) → number ≡ length h + 1 → AreRounds h count self.old → AreRounds (entry.now ∷ h) count self.new }
    {
        match entry.actor {
            Actor::Settler(settler) => self.note_of(settler, number, &entry.kind),
            Actor::Gate(_) => {}
            Actor::Node { .. } => {}
        }
    }

    /// Notes what a settler did in the entry of this number.
    fn note_of(&mut self, settler: u32, number: u64, kind: &Kind)
        ensures { (h : History) (count : ℕ) → number ≡ length h + 1 → AreRounds h count self.old → AreRounds (record { actor = Settler settler; kind = kind.now } ∷ h) count self.new }
    {
        let Some(rounds) = self.settlers.get_mut(settler as usize) else {
            return;
        };
        *rounds = rounds_after(*rounds, number, kind);
    }

    /// The rounds of a settler. Condition: there is such a settler. Does not allocate.
    pub(crate) fn of(&self, settler: u32) -> SettlerRounds
        requires { settler < length self.now }
        ensures { slice_get self.now settler ≡ Some result }
    {
        self.settlers[settler as usize]
    }
}

/// The rounds of a settler after its entry of this number, where they were these before it.
fn rounds_after(rounds: SettlerRounds, number: u64, kind: &Kind) -> SettlerRounds
    ensures { result ≡ rounds_next number kind.now rounds }
{
    match kind {
        Kind::Asked { round, mode, .. } => SettlerRounds {
            asked: number,
            open: Some(OpenRound {
                number: *round,
                mode: *mode,
            }),
        },
        Kind::Settled { .. } => SettlerRounds {
            asked: rounds.asked,
            open: None,
        },
        _ => rounds,
    }
}
