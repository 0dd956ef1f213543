//! Nodes in memory, as lists of what they hold.
ghost use Rattle.std.specs.Prelude.{◌≡◌, IfOk};
ghost use Rattle.ov_link.specs.Nodes.{held_by};
ghost use Rattle.ov_link.specs.Links.{in_window};

use ov_base::{Memory, Plain, Sequence};
use ov_functor::Item;
use ov_window::Round;
use std::alloc::Global;

/// What a node holds. Of two lists for one node the first counts.
#[derive(Debug, Drop)]
pub struct Held {
    /// The node's centre.
    pub centre: u32,
    /// The node's partition.
    pub part: u32,
    /// Its items.
    pub items: Sequence<Item>,
}

/// The items that a node holds, none where it is not listed.
fn held_of(nodes: &[Held], centre: u32, part: u32) -> &[Item]
    ensures { result.now ≡ held_by nodes.now centre part }
{
    match nodes
        .iter()
        .find(|node| node.centre == centre && node.part == part)
    {
        Some(node) => node.items.as_slice(),
        None => &[],
    }
}

/// Copies of the items that a node holds in a round's window. The only error is out of memory.
pub(crate) fn window_of(
    alloc: Global,
    nodes: &[Held],
    centre: u32,
    part: u32,
    round: &Round,
) -> Result<Vec<Item>, Memory>
    ensures { IfOk result (λ items. items.items ≡ in_window round.now (held_by nodes.now centre part)) }
{
    let mut items = Vec::new(alloc);
    for item in held_of(nodes, centre, part) {
        let number = item.version.number();
        if round.from <= number && number < round.below {
            items.push(item.copy()?)?;
        }
    }
    Ok(items)
}
