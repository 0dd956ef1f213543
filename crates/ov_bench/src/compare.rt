//! Version lists compared with plain code, call by call.
use crate::sorted::SortedEntries;
use crate::sum::key_of;
use crate::task::Task;
use anyhow::{Context, Result, bail};
use ov_base::{Key, Version};
use ov_lists::VersionLists;

/// The versions of the calls are below this number.
const VERSIONS: u64 = 128;

/// A sequence of numbers that look random.
#[derive(Drop)]
struct Numbers {
    state: u64,
}

/// Version lists and sorted entries, to which the same was done.
#[derive(Drop)]
struct Both {
    lists: VersionLists<u64>,
    sorted: SortedEntries,
}

/// Does so many calls on both, for so many sequences of calls; how many answers were compared in all. An error at the first
/// difference.
pub fn lists(rt: &HostRuntime, task: &Task) -> Result<usize> {
    let keys = keys_of(rt)?;
    let mut count = 0usize;
    for sequence in 0..task.times {
        let mut numbers = Numbers { state: sequence };
        let mut both = Both {
            lists: VersionLists::new(rt.alloc()),
            sorted: SortedEntries::new(rt.alloc()),
        };
        for place in 0..task.size {
            let key = *numbers.one_of(keys.as_slice()).context("a key")?;
            if !both.agree_on_a_call(key, place as u64, &mut numbers)? {
                bail!("sequence {sequence}, call {place}: the answers differ");
            }
            count = count.saturating_add(1);
        }
    }
    Ok(count)
}

/// A few keys, of which some begin with others.
fn keys_of(rt: &HostRuntime) -> Result<Vec<Key>> {
    let mut keys = Vec::new(rt.alloc());
    for number in [1u64, 10, 11, 100, 2, 20, 3, 30] {
        keys.push(key_of(rt, number)?)?;
    }
    Ok(keys)
}

impl Numbers {
    /// The next number, below a limit above 0.
    fn below(&mut self, limit: u64) -> u64 {
        let product = self.state.wrapping_mul(6_364_136_223_846_793_005);
        self.state = product.wrapping_add(1_442_695_040_888_963_407);
        (self.state >> 33).checked_rem(limit).unwrap_or(0)
    }

    /// Whether the next number is odd.
    fn coin(&mut self) -> bool {
        self.below(2) == 1
    }

    /// One of the keys. None where there are none.
    fn one_of<'a>(&mut self, keys: &'a [Key]) -> Option<&'a Key> {
        keys.get(self.below(keys.len() as u64) as usize)
    }

    /// The end of a window, which may be past all versions.
    fn end(&mut self) -> u64 {
        match self.below(8) {
            0 => u64::MAX,
            1 => 1 << 63,
            _ => self.below(VERSIONS + 2),
        }
    }
}

impl Both {
    /// Does the next call on both, on a key; whether the answers are equal.
    fn agree_on_a_call(&mut self, key: Key, item: u64, numbers: &mut Numbers) -> Result<bool> {
        match numbers.below(512) {
            0 => self.agree_on_thin(numbers.below(VERSIONS + 2), numbers.coin()),
            1..40 => self.agree_on_window(numbers.end(), numbers.end()),
            40..100 => Ok(self.agree_on_next_key(key, numbers.coin())),
            100..240 => Ok(self.agree_on_latest(key, numbers.end())),
            240..260 => self.agree_on_reserve(numbers.below(20) as usize),
            _ => self.agree_on_insert(key, numbers.below(VERSIONS), item),
        }
    }

    /// An insertion.
    fn agree_on_insert(&mut self, key: Key, number: u64, item: u64) -> Result<bool> {
        let version = Version::from_number(number).context("a version")?;
        let answer = self.lists.insert(key, version, item);
        let is_new = answer.ok().context("out of memory")?;
        Ok(self.sorted.insert(key, version, item)? == is_new)
    }

    /// Room for more, which changes no entry.
    fn agree_on_reserve(&mut self, more: usize) -> Result<bool> {
        self.lists.reserve(more).ok().context("out of memory")?;
        self.agree_on_window(0, u64::MAX)
    }

    /// The newest below a number.
    fn agree_on_latest(&self, key: Key, below: u64) -> bool {
        match (
            self.lists.latest(key, below),
            self.sorted.latest(key, below),
        ) {
            (Some((version, item)), Some((other, same))) => version == other && *item == same,
            (None, None) => true,
            _ => false,
        }
    }

    /// A window.
    fn agree_on_window(&self, from: u64, below: u64) -> Result<bool> {
        let found = self
            .lists
            .window(from, below)
            .ok()
            .context("out of memory")?;
        let other = self.sorted.window(from, below)?;
        Ok(are_equal(found.as_slice(), other.as_slice()))
    }

    /// The next key.
    fn agree_on_next_key(&self, from: Key, past: bool) -> bool {
        self.lists.next_key(from, past) == self.sorted.next_key(from, past)
    }

    /// What goes, and then all that stays.
    fn agree_on_thin(&mut self, below: u64, keep_last: bool) -> Result<bool> {
        let gone = self.lists.thin(below, keep_last);
        if self.sorted.thin(below, keep_last)? != gone {
            return Ok(false);
        }
        self.agree_on_window(0, u64::MAX)
    }
}

/// Whether what was found in the lists is what was found in the sorted entries.
fn are_equal(found: &[(Version, Key, &u64)], other: &[(Version, Key, u64)]) -> bool {
    if found.len() != other.len() {
        return false;
    }
    for ((version, key, item), (same, name, number)) in found.iter().zip(other) {
        if version != same || key != name || *item != number {
            return false;
        }
    }
    true
}
