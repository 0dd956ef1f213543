//! What calm rounds keep beside a world.
ghost use Rattle.std.specs.Prelude.{◌≡◌, ◌≤◌, ◌<◌, ◌+◌, ◌-◌, ◌^◌, ◌++◌, ◌∷◌, [], List, IfOk, OnOk, if◌then◌else◌};
ghost use Rattle.ov_event.specs.declared.entry.Entry as entries;
ghost use Rattle.ov_history.specs.Past.{History};
ghost use Rattle.ov_history.specs.May.{Setting};
ghost use Rattle.ov_follow.specs.Calm.{all_replied, is_reply};
ghost use Rattle.ov_laws.specs.Runs.{IsRun};
ghost use Rattle.ov_world.specs.World.{setting_of};
ghost use Rattle.ov_step.specs.Outstanding.{IsOutstanding};

use crate::deeds::Deeds;
use crate::lines::allocator_of;
use crate::publications::Publications;
use crate::replied::Replied;
use crate::rounds::Rounds;
use crate::wants::Wants;
use ov_base::Memory;
use ov_event::{Entry, Kind};
use ov_topology::Topology;
use ov_world::World;

/// What was read of a world's history, so that no pass of a calm round looks through it (docs/MAP.md, How a pass knows where to begin).
#[derive(Drop)]
pub(crate) struct Outstanding {
    /// How many entries were read.
    pub(crate) read: u64,
    /// How many of them reply.
    pub(crate) replies: u64,
    pub(crate) deeds: Deeds,
    pub(crate) publications: Publications,
    pub(crate) rounds: Rounds,
    pub(crate) wants: Wants,
    /// Up to the entry of this number nothing is left to be told.
    pub(crate) told: u64,
    /// Up to the entry of this number nothing is left to be stored.
    pub(crate) stored: u64,
    /// Up to the entry of this number nothing is left to be acknowledged.
    pub(crate) acked: u64,
    /// Up to the entry of this number no result is left to be taken.
    pub(crate) answered: u64,
    pub(crate) replied: Replied,
}

impl Outstanding {
    /// What is kept of a world. The only error is out of memory.
    pub(crate) fn of(world: &World) -> Result<Outstanding, Memory>
        ensures kept { IfOk result (λ kept. IsOutstanding (setting_of world.now) world.now.history kept) }
        ensures lawful { OnOk result (IsRun (setting_of world.now) world.now.history) }
    {
        let mut kept = Outstanding::new(world)?;
        kept.catch_up(world)?;
        Ok(kept)
    }

    /// What is kept of a world in which nothing was done. The only error is out of memory.
    fn new(world: &World) -> Result<Outstanding, Memory>
        ensures { IfOk result (λ kept. IsOutstanding (setting_of world.now) [] kept) }
    {
        let alloc = allocator_of(world);
        let topology = world.topology();
        Ok(Outstanding {
            read: 0,
            replies: 0,
            deeds: Deeds::new(alloc),
            publications: Publications::new(alloc, topology.gateways())?,
            rounds: Rounds::new(alloc, topology.centres())?,
            wants: Wants::new(alloc),
            told: 0,
            stored: 0,
            acked: 0,
            answered: 0,
            replied: Replied::new(),
        })
    }

    /// Whether every command is replied. Condition: what is kept is of the world's history; then it is again. Does not allocate.
    pub(crate) fn are_all_replied(&mut self, world: &World) -> bool
        requires { IsOutstanding (setting_of world.now) world.now.history self.old }
        ensures all { result ≡ all_replied (setting_of world.now) world.now.history }
        ensures kept { IsOutstanding (setting_of world.now) world.now.history self.new }
    {
        self.replied.are_all(world.script().roster(), &self.deeds)
    }

    /// Reads the entries that follow those that were read. Those that were read are the world's first ones. The only error is out of memory.
    pub(crate) fn catch_up(&mut self, world: &World) -> Result<(), Memory>
        requires { self.old.replies ≤ self.old.read }
        ensures lawful { OnOk result (IsRun (setting_of world.now) world.now.history) }
        ensures kept { OnOk result ((h : History) (more : List entries.Entry) → world.now.history ≡ more ++ h → IsOutstanding (setting_of world.now) h self.old → IsOutstanding (setting_of world.now) world.now.history self.new) }
    {
        let entries = world.entries();
        for place in self.read as usize..entries.len() {
            match self.note(world.topology(), &entries[place]) {
                Ok(()) => {}
                Err(error) => return Err(error),
            }
        }
        Ok(())
    }

    /// Notes one entry more. The only error is out of memory.
    fn note(&mut self, topology: &Topology, entry: &Entry) -> Result<(), Memory>
        requires { (self.old.replies ≤ self.old.read) × (self.old.read < 2 ^ 64 - 1) }
        ensures read { OnOk result ((self.new.replies ≤ self.new.read) × (self.new.read ≡ self.old.read + 1)) }
        ensures kept { OnOk result ((t : Setting) (h : History) → t.topology ≡ topology.now → IsOutstanding t h self.old → IsOutstanding t (entry.now ∷ h) self.new) }
    {
        self.read += 1;
        self.replies += replies_in(&entry.kind);
        self.publications.note(self.read, entry);
        self.rounds.note(self.read, entry);
        self.deeds.note(entry)?;
        self.wants.note(topology, self.read, entry)?;
        Ok(())
    }
}

/// How many replies an entry of this kind is: one or none. Does not allocate.
fn replies_in(kind: &Kind) -> u64
    ensures { result ≡ (if is_reply kind.now then 1 else 0) }
{
    match kind {
        Kind::Replied { .. } => 1,
        _ => 0,
    }
}
