//! Entries that go: those below a number, but for the newest of each key where it is kept.
ghost use Rattle.std.specs.Prelude.{◌≡◌, ◌<◌, ◌+◌, length, IsPermutation, IsSortedBy, vec_len, vec_capacity};
ghost use Rattle.ov_lists.specs.Entries.{pair_cmp, stands_before, IsOrdered, thinned};
ghost use Rattle.ov_lists.specs.Thin.{stays_at};

use crate::versioned::Versioned;
use std::cmp::Ordering;

/// How two entries compare by key, and of one key by version.
pub fn compare_pairs<T>(left: &Versioned<T>, right: &Versioned<T>) -> Ordering
    ensures { result ≡ pair_cmp left.now.key left.now.version right.now.key right.now.version }
{
    match left.key.cmp(&right.key) {
        Ordering::Less => Ordering::Less,
        Ordering::Equal => left.version.cmp(&right.version),
        Ordering::Greater => Ordering::Greater,
    }
}

/// Sorts items by key and version.
pub fn sort_items<T>(items: &mut Vec<Versioned<T>>)
    ensures permutation { IsPermutation items.old.items items.new.items }
    ensures sorted { IsSortedBy stands_before items.new.items }
    ensures len { vec_len items.new ≡ vec_len items.old }
    ensures capacity { vec_capacity items.new ≡ vec_capacity items.old }
{
    items.sort_unstable_by(|left, right| compare_pairs(left, right));
}

/// Keeps those of the items that stay, in their order. The answer is how many went.
pub fn keep_items<T: Drop>(items: &mut Vec<Versioned<T>>, below: u64, keep_last: bool) -> usize
    requires { IsOrdered items.old.items }
    ensures items { items.new.items ≡ thinned below keep_last items.old.items }
    ensures count { result + length items.new.items ≡ length items.old.items }
    ensures len { result + vec_len items.new ≡ vec_len items.old }
    ensures capacity { vec_capacity items.new ≡ vec_capacity items.old }
{
    let len = items.len();
    let mut kept = 0;
    let mut place = 0;
    while place < len {
        if stays(items.as_slice(), place, below, keep_last) {
            items.swap(kept, place);
            kept += 1;
        }
        place += 1;
    }
    items.truncate(kept);
    len - kept
}

/// Whether the item at a place of those in order stays.
fn stays<T>(items: &[Versioned<T>], place: usize, below: u64, keep_last: bool) -> bool
    requires { place < length items.now }
    ensures { result ≡ stays_at below keep_last items.now place }
{
    let item = &items[place];
    if item.version.number() >= below {
        return true;
    }
    if place + 1 == items.len() {
        return keep_last;
    }
    keep_last && !items[place + 1].is_below(&item.key, below)
}
