//! Gathering a round over a link.
ghost use Rattle.std.specs.Prelude.{◌≡◌, ◌<◌, ◌+◌, false, IfOk, IfErr, OnOk};
ghost use Rattle.ov_topology.specs.Shape.{IsShape};
ghost use Rattle.ov_window.specs.Harvest.{IsMarked, IsWhole, has_answered};
ghost use Rattle.ov_link.specs.Links.{AreAlike, AreAmong, AreInside, NoneFell, SameTold, TellsAll};
ghost use Rattle.ov_link.specs.Gathering.{HasCause, IsGathered, IsUnionOf, Made};
ghost use Rattle.ov_link.specs.Progress.{Advances, IsCall, IsLater, IsSpan, Stops, seen_of};

use crate::link::{Link, LinkError};
use ov_base::Shared;
use ov_topology::{Mode, Topology};
use ov_window::{Harvest, Round};
use std::alloc::Global;

/// Why a round was not gathered.
#[derive(Clone, Copy, Debug, PartialEq, Eq)]
pub enum HarvestError {
    /// Out of memory.
    Memory,
    /// The first partition that gave fewer answers than the round needs, and how many it gave.
    NoQuorum {
        /// The partition.
        partition: u32,
        /// How many of its nodes answered.
        answers: u32,
    },
}

/// Gathers a round: asks for each partition upwards the nodes in the order of their centres, until so many have answered as a read
/// asks, or in a round of mode `one` the node of the settler's own centre. The harvest is whole. `NoQuorum` comes only where so many
/// calls of nodes of that partition failed that too few are left, each node counted once. Condition: the settler is in the topology.
pub fn harvest<L: Link>(
    alloc: Global,
    link: &mut L,
    round: &Round,
    topology: &Topology,
) -> Result<Harvest, HarvestError>
    requires settler { round.now.settler < topology.now.centres }
    ensures whole { IfOk result (λ harvest. (harvest.topology ≡ topology.now) × (harvest.round ≡ round.now) × IsMarked harvest.topology harvest.answered × IsWhole harvest) }
    ensures items { IfOk result (λ harvest. AreInside round.now harvest.items × AreAmong harvest.items (L.book link.new) × AreAlike harvest.items) }
    ensures told { IfOk result (λ harvest. TellsAll topology.now (L.told link.old) → IsUnionOf (L.told link.old) harvest) }
    ensures calls { IfOk result (λ harvest. Made topology.now round.now (L.asked link.old) (L.asked link.new) (IsGathered harvest)) }
    ensures cause { IfErr result (λ error. HasCause topology.now round.now (L.faults link.old) (L.faults link.new) (L.asked link.old) (L.asked link.new) error) }
    ensures later { NoneFell (L.faults link.old) (L.faults link.new) }
    ensures grows { AreAmong (L.book link.old) (L.book link.new) }
    ensures same { SameTold (L.told link.old) (L.told link.new) }
{
    let Ok(mut harvest) = Harvest::new(alloc, topology, *round) else {
        return Err(HarvestError::Memory);
    };
    let (first, end) = centres_of(round, topology);
    for part in 0..topology.partitions() {
        if let Err(error) = gather(alloc, link, round, part, first, end, &mut harvest) {
            return Err(error);
        }
    }
    Ok(harvest)
}

/// The centres whose nodes a round asks, from one up to and without another. Condition: the settler is in the topology.
fn centres_of(round: &Round, topology: &Topology) -> (u32, u32)
    requires { round.now.settler < topology.now.centres }
    ensures { IsSpan topology.now round.now result.0 result.1 }
{
    let centres = topology.centres();
    match round.mode {
        Mode::Quorum => (0, centres),
        Mode::One => (round.settler, round.settler + 1),
    }
}

/// Asks the nodes of a partition, from one centre up to and without another, until so many have answered as the round needs.
fn gather<L: Link>(
    alloc: Global,
    link: &mut L,
    round: &Round,
    part: u32,
    first: u32,
    end: u32,
    harvest: &mut Harvest,
) -> Result<(), HarvestError>
    requires shape { IsShape harvest.old.topology }
    requires part { part < harvest.old.topology.partitions }
    requires span { IsSpan harvest.old.topology round.now first end }
    ensures done { OnOk result (Advances harvest.old.topology round.now (seen_of (L.told link.old) (L.faults link.old) (L.book link.old) (L.asked link.old)) (seen_of (L.told link.new) (L.faults link.new) (L.book link.new) (L.asked link.new)) harvest.old harvest.new first part first (part + 1) 0) }
    ensures cause { IfErr result (Stops harvest.old.topology round.now (seen_of (L.told link.old) (L.faults link.old) (L.book link.old) (L.asked link.old)) (seen_of (L.told link.new) (L.faults link.new) (L.book link.new) (L.asked link.new)) harvest.old first part) }
    ensures topology { OnOk result (harvest.new.topology ≡ harvest.old.topology) }
    ensures later { IsLater (seen_of (L.told link.old) (L.faults link.old) (L.book link.old) (L.asked link.old)) (seen_of (L.told link.new) (L.faults link.new) (L.book link.new) (L.asked link.new)) }
{
    let mut answers = 0;
    for centre in first..end {
        if harvest.complete(part) {
            return Ok(());
        }
        if answered(alloc, link, round, centre, part, harvest)? {
            answers += 1;
        }
    }
    if harvest.complete(part) {
        return Ok(());
    }
    Err(HarvestError::NoQuorum {
        partition: part,
        answers,
    })
}

/// Asks a node, and adds its answer; false where the call failed. The only error is out of memory. Condition: the node is in the
/// topology.
fn answered<L: Link>(
    alloc: Global,
    link: &mut L,
    round: &Round,
    centre: u32,
    part: u32,
    harvest: &mut Harvest,
) -> Result<bool, HarvestError>
    requires shape { IsShape harvest.old.topology }
    requires node { (centre < harvest.old.topology.centres) × (part < harvest.old.topology.partitions) }
    ensures call { has_answered harvest.old centre part ≡ false → IfOk result (IsCall round.now centre part (seen_of (L.told link.old) (L.faults link.old) (L.book link.old) (L.asked link.old)) (seen_of (L.told link.new) (L.faults link.new) (L.book link.new) (L.asked link.new)) harvest.old harvest.new) }
    ensures topology { OnOk result (harvest.new.topology ≡ harvest.old.topology) }
    ensures memory { IfErr result (λ error. error ≡ HarvestError.Memory) }
    ensures later { IsLater (seen_of (L.told link.old) (L.faults link.old) (L.book link.old) (L.asked link.old)) (seen_of (L.told link.new) (L.faults link.new) (L.book link.new) (L.asked link.new)) }
{
    let items = match link.ask(alloc, centre, part, round) {
        Ok(items) => items,
        Err(LinkError::Failed) => return Ok(false),
        Err(LinkError::Memory) => return Err(HarvestError::Memory),
    };
    let Ok(items) = Shared::of(items) else {
        return Err(HarvestError::Memory);
    };
    match harvest.add_shared(centre, part, items) {
        Ok(_) => Ok(true),
        Err(_) => Err(HarvestError::Memory),
    }
}
