//! The next key.
ghost use Rattle.std.specs.Prelude.{◌≡◌, true, false};
ghost use Rattle.ov_lists.specs.Entries.{next_key_of};
ghost use Rattle.ov_lists.specs.Parts.{listed, IsIndex};

use crate::blocks::Blocks;
use crate::search::{entry_at, position_of};
use crate::versioned::{PAST_ALL, Versioned};
use ov_base::Key;

/// The least key that is at least another.
pub fn key_from<T>(items: &[Versioned<T>], blocks: &Blocks, from: &Key) -> Option<Key>
    requires { IsIndex items.now blocks.now.parts }
    ensures { result ≡ next_key_of from.now false (listed items.now blocks.now.parts) }
{
    let at = blocks.forward(position_of(items, blocks, from, 0));
    if at.block >= blocks.count() {
        return None;
    }
    Some(entry_at(items, blocks, at).key)
}

/// The least key that is above another.
pub fn key_past<T>(items: &[Versioned<T>], blocks: &Blocks, from: &Key) -> Option<Key>
    requires { IsIndex items.now blocks.now.parts }
    ensures { result ≡ next_key_of from.now true (listed items.now blocks.now.parts) }
{
    let at = blocks.forward(position_of(items, blocks, from, PAST_ALL));
    if at.block >= blocks.count() {
        return None;
    }
    let entry = entry_at(items, blocks, at);
    prove!(entry.version.number() < PAST_ALL);
    Some(entry.key)
}
