//! The union of items: by version and then key, each version and key once.
ghost use Rattle.std.specs.Prelude.{◌≡◌, map, IfOk};
ghost use Rattle.std.specs.Cmp.Lexicographic.{slice_cmp};
ghost use Rattle.std.specs.Ordering.{nat_cmp, ordering_then};
ghost use Rattle.ov_functor.specs.Unions as unions;

use ov_base::Memory;
use ov_functor::Item;
use std::cmp::Ordering;

/// The union of items: by version and then key, of one version and key the first.
pub fn united<'a>(items: Vec<&'a Item>) -> Result<Vec<&'a Item>, Memory>
    ensures { IfOk result (λ v. map (λ one. one.now) v.items ≡ unions.union (map (λ one. one.now) items.entry.items)) }
{
    let mut all = items;
    all.sort_by(|left, right| compared(*left, *right))?;
    all.dedup_by(|item, kept| is_same_place(*item, *kept));
    Ok(all)
}

/// How two items compare by version, and of one version by key.
fn compared(left: &Item, right: &Item) -> Ordering
    ensures { result ≡ ordering_then (nat_cmp left.now.version right.now.version) (slice_cmp nat_cmp left.now.key right.now.key) }
{
    match left.version.cmp(&right.version) {
        Ordering::Less => Ordering::Less,
        Ordering::Equal => left.key.cmp(&right.key),
        Ordering::Greater => Ordering::Greater,
    }
}

/// Whether two items are of one version and key.
fn is_same_place(item: &Item, other: &Item) -> bool
    ensures { result ≡ unions.same_place item.now other.now }
{
    item.version.number() == other.version.number() && item.key == other.key
}
