//! The items of a transaction: what the nodes store of it.
ghost use Rattle.std.specs.Prelude.{◌≡◌, ◌++◌, IfOk, OnOk};
ghost use Rattle.ov_functor.specs.Functor.{functor_of};
ghost use Rattle.ov_functor.specs.Items.{keys_in, written_keys, items_at, items_of, item_by};

use crate::item::Item;
use crate::part::Part;
use crate::transaction::Transaction;
use ov_base::{Key, Memory, Sequence, Version};
use std::alloc::Global;

/// The items of a transaction at its version: the functor of each key that it writes, in reading order. The
/// only error is out of memory.
pub fn items_of(
    alloc: Global,
    version: Version,
    transaction: &Transaction,
) -> Result<Sequence<Item>, Memory>
    ensures { IfOk result (λ items. items ≡ items_of version transaction.now) }
{
    let keys = written_keys(alloc, transaction.parts())?;
    items_at(alloc, version, transaction, keys.as_slice())
}

fn items_at(
    alloc: Global,
    version: Version,
    transaction: &Transaction,
    keys: &[Key],
) -> Result<Sequence<Item>, Memory>
    ensures { IfOk result (λ items. items ≡ items_at version transaction.now keys.now) }
{
    let mut items = Sequence::new(alloc);
    for key in keys {
        add_item(version, transaction, key, &mut items)?;
    }
    Ok(items)
}

fn add_item(
    version: Version,
    transaction: &Transaction,
    key: &Key,
    items: &mut Sequence<Item>,
) -> Result<(), Memory>
    ensures { OnOk result (items.new ≡ items.old ++ item_by version key.now (functor_of transaction.now key.now)) }
{
    if let Some(functor) = transaction.functor_for(*key)? {
        items.push(Item {
            version,
            key: *key,
            functor,
        })?;
    }
    Ok(())
}

fn written_keys(alloc: Global, parts: &[Part]) -> Result<Sequence<Key>, Memory>
    ensures { IfOk result (λ keys. keys ≡ written_keys parts.now) }
{
    let mut keys = Sequence::new(alloc);
    for part in parts {
        add_keys(part, &mut keys)?;
    }
    Ok(keys)
}

fn add_keys(part: &Part, keys: &mut Sequence<Key>) -> Result<(), Memory>
    ensures { OnOk result (keys.new ≡ keys.old ++ keys_in part.now) }
{
    match part {
        Part::Put { key, .. } => keys.push(*key),
        Part::Del { key } => keys.push(*key),
        Part::Add { key, .. } => keys.push(*key),
        Part::Least { key, .. } => keys.push(*key),
        Part::Greatest { key, .. } => keys.push(*key),
        Part::Move { from, to, .. } => {
            keys.push(*from)?;
            keys.push(*to)
        }
        Part::Get { .. } => Ok(()),
    }
}
