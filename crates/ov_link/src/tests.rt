//! Rounds over links to few nodes, of whose calls none, one or two fail.

ghost use Rattle.std.specs.Prelude.{◌≡◌, ◌<◌};

use crate::{HarvestError, Held, MemoryLink, SureLink, harvest};
use ov_base::{Amount, Key, Sequence, Value, Version};
use ov_functor::{Effect, Functor, Item};
use ov_lists::VersionLists;
use ov_topology::{Mode, Topology};
use ov_window::{Plan, Round};
use std::alloc::Global;
use std::test::Fail;

/// A round over all items.
fn round(mode: Mode) -> Round
    ensures { result.settler ≡ 0 }
{
    Round {
        mode,
        settler: 0,
        from: 0,
        below: 1 << 62,
    }
}

/// What a round of mode `quorum` over nodes that hold nothing gives where these calls fail: how many calls made the harvest whole.
fn gathered(
    alloc: Global,
    topology: &Topology,
    failing: Vec<u64>,
) -> Result<Result<u64, HarvestError>, Fail>
    requires { 0 < topology.now.centres }
{
    let mut link = MemoryLink::of(Vec::new(alloc), failing);
    match harvest(alloc, &mut link, &round(Mode::Quorum), topology) {
        Ok(harvest) => {
            if !harvest.whole() {
                return Err(Fail::from("a whole harvest"));
            }
            Ok(Ok(link.calls()))
        }
        Err(error) => Ok(Err(error)),
    }
}

/// What the round gives over one partition where the first call fails, and where the first two fail.
fn of_one_partition(alloc: Global) -> Result<Vec<Result<u64, HarvestError>>, Fail> {
    let topology = Topology::of(alloc, 3, 1, &[0], 2, 2)?;
    let one = gathered(alloc, &topology, Vec::from_array(alloc, [1])?)?;
    let two = gathered(alloc, &topology, Vec::from_array(alloc, [1, 2])?)?;
    Ok(Vec::from_array(alloc, [one, two])?)
}

/// What the round gives over four partitions where no call fails, then for each of eight calls where it alone fails, and where the
/// next fails too.
fn of_four_partitions(alloc: Global) -> Result<Vec<Result<u64, HarvestError>>, Fail> {
    let topology = Topology::of(alloc, 3, 4, &[0, 1, 2], 2, 2)?;
    let mut found = Vec::new(alloc);
    found.push(gathered(alloc, &topology, Vec::new(alloc))?)?;
    for call in 1..9 {
        let one = Vec::from_array(alloc, [call])?;
        found.push(gathered(alloc, &topology, one)?)?;
        let both = Vec::from_array(alloc, [call, call + 1])?;
        found.push(gathered(alloc, &topology, both)?)?;
    }
    Ok(found)
}

/// Whether the harvest of a node that holds one item is whole, and how many tasks its plan has.
fn of_one_item(alloc: Global) -> Result<(bool, usize), Fail> {
    let topology = Topology::of(alloc, 1, 1, &[0], 1, 1)?;
    let key = Key::from_bytes(b"x").ok_or("a key")?;
    let amount = Amount::new(3).ok_or("an amount")?;
    let functor = Functor::new(key, Effect::Put(amount), Vec::new(alloc));
    let item = Item {
        version: Version::new(1, 0).ok_or("a version")?,
        key,
        functor: functor.ok().ok_or("a functor")?,
    };
    let held = Held {
        centre: 0,
        part: 0,
        items: Sequence::from_vec(Vec::from_array(alloc, [item])?),
    };
    let mut link = SureLink::of(Vec::from_array(alloc, [held])?);
    let gathered = harvest(alloc, &mut link, &round(Mode::One), &topology)
        .ok()
        .ok_or("a harvest")?;
    let base: VersionLists<Value> = VersionLists::new(alloc);
    let plan = Plan::build(alloc, &gathered, &base)?;
    Ok((gathered.whole(), plan.tasks().len()))
}

/// The error of a partition of which one node answered.
fn short(partition: u32) -> HarvestError {
    HarvestError::NoQuorum {
        partition,
        answers: 1,
    }
}

#[test]
fn one_failure_costs_a_call_and_two_a_quorum(rt: HostRuntime) -> Result<(), Fail> {
    let found = of_one_partition(rt.alloc())?;
    assert_eq!(rt; found.as_slice(), [Ok(3), Err(short(0))].as_slice());
    Ok(())
}

#[test]
fn each_partition_bears_one_failure(rt: HostRuntime) -> Result<(), Fail> {
    let found = of_four_partitions(rt.alloc())?;
    let mut expected = Vec::new(rt.alloc());
    expected.push(Ok(8))?;
    for call in 0..8 {
        expected.push(Ok(9))?;
        expected.push(Err(short(call / 2)))?;
    }
    assert_eq!(rt; found.as_slice(), expected.as_slice());
    Ok(())
}

#[test]
fn a_sure_node_gives_its_item(rt: HostRuntime) -> Result<(), Fail> {
    assert_eq!(rt; of_one_item(rt.alloc())?, (true, 1));
    Ok(())
}
