//! Judging the entries of a journal.
ghost use Rattle.std.specs.Prelude.{IfOk};
ghost use Rattle.ov_world.specs.World.{setting_by};
ghost use Rattle.ov_journal.specs.Audit.{Judges};

use ov_base::Memory;
use ov_event::Entry;
use ov_script::Script;
use ov_topology::Topology;
use ov_world::first_refused;
use std::alloc::Global;

/// What is found of entries that are judged.
#[derive(Clone, Copy, Debug, PartialEq, Eq)]
pub enum Verdict {
    /// Each may follow those before it.
    Lawful,
    /// The entry of this number, from 1, is the first that may not follow those before it.
    Refused { entry: u64 },
}

/// Whether each of the entries, the oldest first, may follow those before it, over the topology and the script (docs/STORE.md,
/// When an entry may follow); else the number of the first that may not. The only error is out of memory.
pub fn audit(
    alloc: Global,
    topology: &Topology,
    script: &Script,
    entries: &[Entry],
) -> Result<Verdict, Memory>
    ensures { IfOk result (λ verdict. Judges (setting_by topology.now script.now) entries.now verdict) }
{
    match first_refused(alloc, topology, script, entries)? {
        None => Ok(Verdict::Lawful),
        Some(entry) => Ok(Verdict::Refused { entry }),
    }
}
