//! What version lists do, by the simplest code.
use anyhow::Result;
use ov_base::{Key, Version};
use std::alloc::Global;

/// Entries in the order of key and version. What the methods answer is what those of `VersionLists` say.
#[derive(Drop)]
pub struct SortedEntries {
    entries: Vec<(Key, Version, u64)>,
}

impl SortedEntries {
    /// No entries.
    pub fn new(alloc: Global) -> SortedEntries {
        SortedEntries {
            entries: Vec::new(alloc),
        }
    }

    /// Adds an item at a key and version; whether there was none.
    pub fn insert(&mut self, key: Key, version: Version, item: u64) -> Result<bool> {
        for (other, there, _) in self.entries.as_slice() {
            if *other == key && *there == version {
                return Ok(false);
            }
        }
        self.entries.push((key, version, item))?;
        self.entries.sort_unstable();
        Ok(true)
    }

    /// The greatest version of the key below the number, and its item.
    pub fn latest(&self, key: Key, below: u64) -> Option<(Version, u64)> {
        let mut newest = None;
        for (other, version, item) in self.entries.as_slice() {
            if *other == key && version.number() < below {
                newest = Some((*version, *item));
            }
        }
        newest
    }

    /// All entries from the one number on and below the other, by version and then key.
    pub fn window(&self, from: u64, below: u64) -> Result<Vec<(Version, Key, u64)>> {
        let mut found = Vec::new(*self.entries.allocator());
        for (key, version, item) in self.entries.as_slice() {
            if from <= version.number() && version.number() < below {
                found.push((*version, *key, *item))?;
            }
        }
        found.sort_unstable();
        Ok(found)
    }

    /// The least key that is at least another, or above it where `past`.
    pub fn next_key(&self, from: Key, past: bool) -> Option<Key> {
        for (key, _, _) in self.entries.as_slice() {
            if *key > from || (*key == from && !past) {
                return Some(*key);
            }
        }
        None
    }

    /// Takes out the entries below a number, but for the newest of each key among them where `keep_last`; how many went.
    pub fn thin(&mut self, below: u64, keep_last: bool) -> Result<u64> {
        let mut kept = Vec::new(*self.entries.allocator());
        let mut gone = 0u64;
        for (key, version, item) in self.entries.as_slice() {
            let is_last = keep_last && self.is_latest(*key, *version, below);
            if version.number() >= below || is_last {
                kept.push((*key, *version, *item))?;
            } else {
                gone = gone.saturating_add(1);
            }
        }
        self.entries = kept;
        Ok(gone)
    }

    /// Whether the version is the greatest of its key below the number.
    fn is_latest(&self, key: Key, version: Version, below: u64) -> bool {
        match self.latest(key, below) {
            Some((newest, _)) => newest == version,
            None => false,
        }
    }
}
