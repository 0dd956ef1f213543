//! A link to nodes in memory that never fails.
ghost use Rattle.std.specs.Prelude.{◌≡◌, Some, None, IfErr};
ghost use Rattle.ov_link.specs.Links.{AreAlike};
ghost use Rattle.ov_link.specs.Nodes.{all_items, book_of, held_by};

use crate::link::{Link, LinkError};
use crate::nodes::{Held, window_of};
use ov_functor::Item;
use ov_window::Round;
use std::alloc::Global;
use std::marker::Model;

/// Nodes in memory, which contracts see as their list. The only error of a call is out of memory.
#[derive(Drop)]
pub struct SureLink {
    nodes: Vec<Held>,
}

impl Model for SureLink {
    ghost use Rattle.std.specs.Prelude.{List};
    ghost use Rattle.ov_link.specs.Links.{AreAlike};
    ghost use Rattle.ov_link.specs.Nodes.{all_items};
    ghost use Rattle.ov_link.specs.declared.nodes.Held.{Held};

    ghost Value = { List Held };

    ghost view = { λ l. l.nodes.items };

    ghost invariant = { λ l. AreAlike (all_items l.nodes.items) };
}

impl SureLink {
    /// A link to these nodes. A node that is not listed holds nothing. Does not allocate. Condition: two items of one version and key
    /// are equal.
    pub fn of(nodes: Vec<Held>) -> SureLink
        requires { AreAlike (all_items nodes.items) }
        ensures { result ≡ nodes.items }
    {
        SureLink { nodes }
    }
}

impl Link for SureLink {
    ghost use Rattle.ov_link.specs.Lemmas.{book_alike};

    ghost told = { λ l centre part. Some (held_by l centre part) };

    ghost faults = { λ l centre part. 0 };

    ghost book = { λ l. book_of l };

    ghost asked = { λ l. None };

    fn ask(
        &mut self,
        alloc: Global,
        centre: u32,
        part: u32,
        round: &Round,
    ) -> Result<Vec<Item>, LinkError> {
        match window_of(alloc, self.nodes.as_slice(), centre, part, round) {
            Ok(items) => Ok(items),
            Err(_) => Err(LinkError::Memory),
        }
    }

    ghost alike = { λ l. book_alike l };
}
