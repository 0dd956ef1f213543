//! Items as a node holds them.
ghost use Rattle.std.specs.Prelude.{◌≡◌, IfOk};

use ov_base::{Key, Memory, Plain, Shared, Version};
use ov_functor::{Functor, Item};
use std::alloc::Global;
use std::marker::Model;

/// The functor of an item of a letter, whose items all who have them share. Contracts see the functor.
#[derive(Drop)]
pub struct Held {
    items: Shared<Item>,
    place: usize,
}

impl Model for Held {
    ghost use Rattle.std.specs.Prelude.{◌<◌, length};
    ghost use Rattle.ov_functor.specs.Placeholder.{Placeholder};
    ghost use Rattle.ov_node.specs.Held.{functor_at};

    ghost Value = { Placeholder };

    ghost view = { λ held. functor_at held.items held.place };

    ghost invariant = { λ held. held.place < length held.items };
}

impl Held {
    /// The functor.
    pub fn functor(&self) -> &Functor
        ensures { result.now ≡ self.now }
    {
        &self.items.as_slice()[self.place].functor
    }
}

/// An item that comes to a node, as the node holds it. Contracts see the item.
#[derive(Drop)]
pub struct Incoming {
    pub version: Version,
    pub key: Key,
    pub held: Held,
}

impl Model for Incoming {
    ghost use Rattle.ov_functor.specs.declared.item.Item.{Item};

    ghost Value = { Item };

    ghost view = { λ one. record { version = one.version; key = one.key; functor = one.held } };
}

/// The items of a letter, as a node holds them: no functor is copied. The only error is out of memory.
pub fn all_incoming(alloc: Global, items: &Shared<Item>) -> Result<Vec<Incoming>, Memory>
    ensures { IfOk result (λ all. all.items ≡ items.now) }
{
    let mut all = Vec::with_capacity(alloc, items.len())?;
    let listed = items.as_slice();
    for place in 0..listed.len() {
        let item = &listed[place];
        all.push(Incoming {
            version: item.version,
            key: item.key,
            held: Held {
                items: items.copy()?,
                place,
            },
        })?;
    }
    Ok(all)
}
