//! Keeping functors, for the memory that they take.
use crate::sum::{key_of, sum_on};
use crate::task::Task;
use anyhow::{Context, Result, bail};
use ov_base::{Key, Version};
use ov_functor::Functor;
use ov_lists::VersionLists;

/// How many keys there are, and for how many functors room is made at a time.
const KEYS: usize = 8;

/// Keeps so many functors of rising versions in version lists, with room made for eight at a time; how many are kept.
pub fn in_lists(rt: &HostRuntime, task: &Task) -> Result<usize> {
    let keys = keys_of(rt)?;
    let mut count = 0;
    for _ in 0..task.times {
        count = listed(rt, task.size, keys.as_slice())?;
    }
    Ok(count)
}

/// Keeps so many functors of rising versions in one vector; how many are kept.
pub fn in_vector(rt: &HostRuntime, task: &Task) -> Result<usize> {
    let keys = keys_of(rt)?;
    let mut count = 0;
    for _ in 0..task.times {
        let kept = pushed(rt, task.size, keys.as_slice())?;
        count = kept.len();
    }
    Ok(count)
}

/// The eight keys.
fn keys_of(rt: &HostRuntime) -> Result<Vec<Key>> {
    let mut keys = Vec::new(rt.alloc());
    for number in 0..KEYS {
        keys.push(key_of(rt, number as u64)?)?;
    }
    Ok(keys)
}

/// Lists of so many functors on the keys in turn; how many were new.
fn listed(rt: &HostRuntime, size: usize, keys: &[Key]) -> Result<usize> {
    let mut lists = VersionLists::new(rt.alloc());
    let mut count = 0usize;
    for place in 0..size {
        if place % KEYS == 0 {
            lists.reserve(KEYS).ok().context("out of memory")?;
        }
        let (version, key, functor) = entry_at(rt, place, keys)?;
        let is_new = lists.insert(key, version, functor);
        if is_new.ok().context("out of memory")? {
            count = count.saturating_add(1);
        }
    }
    Ok(count)
}

/// A vector of so many functors on the keys in turn.
fn pushed(rt: &HostRuntime, size: usize, keys: &[Key]) -> Result<Vec<(Version, Key, Functor)>> {
    let mut kept = Vec::new(rt.alloc());
    for place in 0..size {
        let entry = entry_at(rt, place, keys)?;
        if kept.push(entry).is_err() {
            bail!("out of memory");
        }
    }
    Ok(kept)
}

/// The version, the key and the functor at a place.
fn entry_at(rt: &HostRuntime, place: usize, keys: &[Key]) -> Result<(Version, Key, Functor)> {
    let version = Version::new(place as u64, 0).context("a version")?;
    let key = *keys.get(place % KEYS).context("a key")?;
    Ok((version, key, sum_on(rt, key)?))
}
