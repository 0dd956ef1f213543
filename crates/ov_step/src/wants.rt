//! Commands that were begun and are not replied, as calm rounds ask for them.
ghost use Rattle.std.specs.Prelude.{◌≡◌, ◌∷◌, ◌+◌, [], length, get_or, filter, OnOk};
ghost use Rattle.std.specs.Option.{option_to_list};
ghost use Rattle.ov_event.specs.Letters.{letters_of, gate_letter, listed};
ghost use Rattle.ov_history.specs.Past.{History};
ghost use Rattle.ov_step.specs.Deeds.{AllDone};
ghost use Rattle.ov_step.specs.Wants.{AreWants, is_wanting, wants_over};

use crate::deeds::{Deed, Deeds};
use ov_base::Memory;
use ov_event::{Entry, Kind, write_count};
use ov_topology::{Actor, Topology};
use std::alloc::Global;
use std::marker::Model;

/// What wants the reply to a command: a letter of the entry that began it.
#[derive(Clone, Copy, Debug)]
pub(crate) struct Want {
    pub(crate) entry: u64,
    pub(crate) letter: u32,
    /// The centre of its settler.
    pub(crate) settler: u32,
    pub(crate) session: u32,
    pub(crate) seq: u32,
}

/// What of a history wants a reply, the oldest first. Some of them may be replied.
#[derive(Drop)]
pub(crate) struct Wants {
    wants: Vec<Want>,
}

impl Model for Wants {
    ghost use Rattle.std.specs.Prelude.{List};
    ghost use Rattle.ov_step.specs.declared.wants.Want.{Want};

    ghost Value = { List Want };

    ghost view = { λ wants. wants.wants.items };
}

impl Wants {
    /// Those of the empty history. Does not allocate.
    pub(crate) fn new(alloc: Global) -> Wants
        ensures { result ≡ [] }
    {
        Wants {
            wants: Vec::new(alloc),
        }
    }

    /// Notes one entry more, of this number. The only error is out of memory.
    pub(crate) fn note(
        &mut self,
        topology: &Topology,
        number: u64,
        entry: &Entry,
    ) -> Result<(), Memory>
        ensures { OnOk result ((h : History) → number ≡ length h + 1 → AreWants topology.now h self.old → AreWants topology.now (entry.now ∷ h) self.new) }
    {
        if let Some(want) = want_in(topology, number, entry) {
            self.wants.push(want)?;
        }
        Ok(())
    }

    /// Drops those that are replied. Condition: these are the deeds of a history. Does not allocate.
    pub(crate) fn drop_replied(&mut self, deeds: &Deeds)
        ensures { (h : History) → AllDone h deeds.now → self.new ≡ filter (is_wanting h) self.old }
    {
        self.wants.retain(|want| {
            !deeds.has(Deed::Replied {
                session: want.session,
                seq: want.seq,
            })
        });
    }

    /// They, the oldest first.
    pub(crate) fn as_slice(&self) -> &[Want]
        ensures { result.now ≡ self.now }
    {
        self.wants.as_slice()
    }
}

/// What of an entry of this number wants a reply. None where nothing does. Does not allocate.
fn want_in(topology: &Topology, number: u64, entry: &Entry) -> Option<Want>
    ensures { option_to_list result ≡ wants_over topology.now number 1 (letters_of topology.now entry.now) }
{
    let letter = write_count(topology, entry) + 1;
    match entry.actor {
        Actor::Gate(gate) => want_of(topology, number, letter, gate, &entry.kind),
        _ => None,
    }
}

/// What of a gateway's entry of this number wants a reply, where its last letter has this number. None where nothing does. Does not
/// allocate.
fn want_of(topology: &Topology, number: u64, letter: u32, gate: u32, kind: &Kind) -> Option<Want>
    ensures { option_to_list result ≡ wants_over topology.now number letter (listed (gate_letter gate kind.now)) }
{
    match kind {
        Kind::Began { session, seq, .. } => Some(Want {
            entry: number,
            letter,
            settler: centre_of(topology, gate),
            session: *session,
            seq: *seq,
        }),
        _ => None,
    }
}

/// The centre of a gateway, 0 where there is no such gateway. Does not allocate.
fn centre_of(topology: &Topology, gate: u32) -> u32
    ensures { result ≡ get_or topology.now.gateways gate 0 }
{
    if gate < topology.gateways() {
        topology.centre_of(gate)
    } else {
        0
    }
}
