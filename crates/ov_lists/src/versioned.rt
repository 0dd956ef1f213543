//! One entry of version lists.
ghost use Rattle.std.specs.Prelude.{◌≡◌};
ghost use Rattle.ov_lists.specs.Entries.{is_before, is_at, is_below, is_inside};

use ov_base::{Key, Version};
use std::cmp::Ordering;
use std::marker::Model;

/// The number that is above all versions.
pub const PAST_ALL: u64 = 1 << 63;

/// A key, a version and the item there. Contracts see the bytes of the key and the number of the version.
#[derive(Drop)]
pub struct Versioned<T> {
    pub key: Key,
    pub version: Version,
    pub item: T,
}

impl<T> Model for Versioned<T> {
    ghost use Rattle.ov_lists.specs.Entries.{Entry};

    ghost Value = { Entry T };

    ghost view = { λ a. record { key = a.key; version = a.version; item = a.item } };
}

impl<T> Versioned<T> {
    /// Whether it stands before a key and number.
    pub fn is_before(&self, key: &Key, number: u64) -> bool
        ensures { result ≡ is_before self.now.key self.now.version key.now number }
    {
        match self.key.cmp(key) {
            Ordering::Less => true,
            Ordering::Equal => self.version.number() < number,
            Ordering::Greater => false,
        }
    }

    /// Whether it is of this key and version.
    pub fn is_at(&self, key: &Key, version: Version) -> bool
        ensures { result ≡ is_at key.now version self.now }
    {
        self.key == *key && self.version.number() == version.number()
    }

    /// Whether it is of this key and below the number.
    pub fn is_below(&self, key: &Key, below: u64) -> bool
        ensures { result ≡ is_below key.now below self.now }
    {
        self.key == *key && self.version.number() < below
    }

    /// Whether it lies in the window.
    pub fn is_inside(&self, from: u64, below: u64) -> bool
        ensures { result ≡ is_inside from below self.now }
    {
        let number = self.version.number();
        from <= number && number < below
    }
}
