//! Filling version lists.
use crate::sum::{key_of, sum_on};
use crate::task::Task;
use anyhow::{Context, Result, bail};
use ov_base::{Key, Version};
use ov_functor::Functor;
use ov_lists::VersionLists;

/// How many windows are asked at the end.
const WINDOWS: u64 = 10;

/// The numbers below a size in an order: behind each comes `factor * number + step`, less the multiples of the size.
#[derive(Drop)]
struct Order {
    first: u64,
    factor: u64,
    step: u64,
}

/// Fills lists so often, in the order and on as many keys as the two words say; how many items the windows give in all.
/// The orders are `rising`, `falling` and `scattered`, which has each number once where the size is a power of ten.
pub fn fill(rt: &HostRuntime, task: &Task) -> Result<usize> {
    let [order, keys] = task.words else {
        bail!("usage: ov_bench fill_lists SIZE TIMES ORDER KEYS");
    };
    let size = task.size as u64;
    let order = order_of(order.as_str(), size).context("ORDER")?;
    let keys = keys.as_str().parse::<u64>().context("KEYS")?;
    let entries = entries_of(rt, &order, size, keys)?;
    let ends = ends_of(rt, size)?;
    let mut count = 0;
    for _ in 0..task.times {
        let lists = filled(rt, entries.as_slice())?;
        count = count_in_windows(&lists, ends.as_slice())?;
    }
    Ok(count)
}

/// The order of that name. None where it is no name.
fn order_of(name: &str, size: u64) -> Option<Order> {
    let last = size.saturating_sub(1);
    let (first, factor, step) = match name {
        "rising" => (0, 1, 1),
        "falling" => (last, 1, last),
        "scattered" => (0, 4141, 7919),
        _ => return None,
    };
    Some(Order {
        first,
        factor,
        step,
    })
}

/// So many keys and versions, with the numbers in an order; the key is that of the number, less the multiples of `keys`.
fn entries_of(
    rt: &HostRuntime,
    order: &Order,
    size: u64,
    keys: u64,
) -> Result<Vec<(Key, Version)>> {
    let mut entries = Vec::new(rt.alloc());
    let mut number = order.first;
    for _ in 0..size {
        let key = key_of(rt, number.checked_rem(keys).unwrap_or(0))?;
        entries.push((key, Version::new(number, 0).context("a version")?))?;
        let next = number.wrapping_mul(order.factor).wrapping_add(order.step);
        number = next.checked_rem(size).unwrap_or(0);
    }
    Ok(entries)
}

/// The ends of ten windows, one behind another, each with a tenth of the numbers below a size.
fn ends_of(rt: &HostRuntime, size: u64) -> Result<Vec<(u64, u64)>> {
    let mut ends = Vec::new(rt.alloc());
    for window in 0..WINDOWS {
        let from = Version::new(size.saturating_mul(window) / WINDOWS, 0);
        let below = Version::new(size.saturating_mul(window + 1) / WINDOWS, 0);
        ends.push((
            from.context("a version")?.number(),
            below.context("a version")?.number(),
        ))?;
    }
    Ok(ends)
}

/// Lists with a sum at each key and version, where each insertion is followed by a question for the newest.
fn filled(rt: &HostRuntime, entries: &[(Key, Version)]) -> Result<VersionLists<Functor>> {
    let mut lists = VersionLists::new(rt.alloc());
    for (key, version) in entries {
        let is_new = lists.insert(*key, *version, sum_on(rt, *key)?);
        is_new.ok().context("out of memory")?;
        if lists.latest(*key, version.number() + 1).is_none() {
            bail!("the newest is none");
        }
    }
    Ok(lists)
}

/// How many items the windows between these ends give in all.
fn count_in_windows(lists: &VersionLists<Functor>, ends: &[(u64, u64)]) -> Result<usize> {
    let mut count = 0usize;
    for (from, below) in ends {
        let found = lists.window(*from, *below).ok().context("out of memory")?;
        count = count.saturating_add(found.len());
    }
    Ok(count)
}
