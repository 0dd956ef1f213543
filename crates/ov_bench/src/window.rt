//! Gathering a window, planning it and computing its values.
use crate::sum::{key_of, sum_on};
use crate::task::Task;
use anyhow::{Context, Result, bail};
use ov_base::Version;
use ov_functor::Item;
use ov_lists::VersionLists;
use ov_topology::{Mode, Topology};
use ov_window::{Harvest, Plan, Round, eval_all};

const ROUND: Round = Round {
    mode: Mode::One,
    settler: 0,
    from: 0,
    below: 1 << 62,
};

/// Gathers, plans and evaluates so often a window of SIZE sums on so many keys; how many values it has.
pub fn plan(rt: &HostRuntime, task: &Task, keys: usize) -> Result<usize> {
    let items = items_of(rt, task.size, keys)?;
    let mut count = 0;
    for _ in 0..task.times {
        let plan = planned(rt, items.as_slice())?;
        count = evaluated(rt, &plan)?;
    }
    Ok(count)
}

/// Evaluates so often the plan of SIZE sums on so many keys; how many values it has.
pub fn evaluate(rt: &HostRuntime, task: &Task) -> Result<usize> {
    let [keys] = task.words else {
        bail!("usage: ov_bench eval_plan SIZE TIMES KEYS");
    };
    let plan = plan_of(rt, task.size, keys.as_str())?;
    let mut count = 0;
    for _ in 0..task.times {
        count = evaluated(rt, &plan)?;
    }
    Ok(count)
}

/// The plan of a window of so many sums on so many keys.
pub fn plan_of(rt: &HostRuntime, size: usize, keys: &str) -> Result<Plan> {
    let keys = keys.parse::<usize>().context("KEYS")?;
    let items = items_of(rt, size, keys)?;
    planned(rt, items.as_slice())
}

/// Gathers and plans the items.
fn planned(rt: &HostRuntime, items: &[Item]) -> Result<Plan> {
    let Ok(topology) = Topology::of(rt.alloc(), 1, 1, &[0], 1, 1) else {
        bail!("out of memory");
    };
    let harvest = Harvest::new(rt.alloc(), &topology, ROUND);
    let mut harvest = harvest.ok().context("out of memory")?;
    if topology.partitions() > 0 && topology.centres() > 0 {
        harvest.add(0, 0, items).ok().context("out of memory")?;
    }
    let base = VersionLists::new(rt.alloc());
    let plan = Plan::build(rt.alloc(), &harvest, &base);
    plan.ok().context("out of memory")
}

/// Evaluates a plan; how many values it has.
fn evaluated(rt: &HostRuntime, plan: &Plan) -> Result<usize> {
    let values = eval_all(rt.alloc(), plan).ok().context("out of memory")?;
    Ok(values.len())
}

/// So many sums, one after another, on each of the keys in turn.
fn items_of(rt: &HostRuntime, size: usize, keys: usize) -> Result<Vec<Item>> {
    let mut items = Vec::new(rt.alloc());
    for place in 0..size {
        items.push(item_at(rt, place, keys)?)?;
    }
    Ok(items)
}

/// The sum at a place.
fn item_at(rt: &HostRuntime, place: usize, keys: usize) -> Result<Item> {
    let key = key_of(rt, place.checked_rem(keys).unwrap_or(0) as u64)?;
    Ok(Item {
        version: Version::new(place as u64, 0).context("a version")?,
        key,
        functor: sum_on(rt, key)?,
    })
}
