//! A link to nodes in memory that fails at chosen calls.
ghost use Rattle.std.specs.Prelude.{◌≡◌, ◌≤◌, Some, true, false, [], ◌∷◌, ◌++◌, length, IfOk, IfErr, OnOk, OnErr, IsErrOf};
ghost use Rattle.ov_link.specs.Calls.{WasAsked, call_of, failures};
ghost use Rattle.ov_link.specs.Links.{AreAlike, AreAmong, AreInside, IsTold, NoneFell, Rose, SameTold};
ghost use Rattle.ov_link.specs.Nodes.{all_items, book_of, held_by, is_to_fail};

use crate::link::{Call, Link, LinkError};
use crate::nodes::{Held, window_of};
use ov_functor::Item;
use ov_window::Round;
use std::alloc::Global;
use std::marker::Model;

/// Nodes in memory, of whose calls chosen ones fail. It tells what the nodes hold, and its calls.
#[derive(Drop)]
pub struct MemoryLink {
    nodes: Vec<Held>,
    failing: Vec<u64>,
    calls: Vec<Call>,
}

impl Model for MemoryLink {
    ghost use Rattle.ov_link.specs.Links.{AreAlike};
    ghost use Rattle.ov_link.specs.Nodes.{LinkState, all_items};

    ghost Value = { LinkState };

    ghost view = { λ l. record { nodes = l.nodes.items; failing = l.failing.items; calls = l.calls.items } };

    ghost invariant = { λ l. AreAlike (all_items l.nodes.items) };
}

impl MemoryLink {
    /// A link to these nodes whose calls with these numbers, from 1, are to fail. A node that is not listed holds nothing. Does not
    /// allocate. Condition: two items of one version and key are equal.
    pub fn of(nodes: Vec<Held>, failing: Vec<u64>) -> MemoryLink
        requires { AreAlike (all_items nodes.items) }
        ensures { result ≡ record { nodes = nodes.items; failing = failing.items; calls = [] } }
    {
        let calls = Vec::new(*nodes.allocator());
        MemoryLink {
            nodes,
            failing,
            calls,
        }
    }

    /// Notes a call. The only error is out of memory, and then nothing has changed.
    fn count(&mut self, centre: u32, part: u32, answered: bool) -> Result<(), LinkError>
        ensures ok { OnOk result (self.new ≡ record { nodes = self.old.nodes; failing = self.old.failing; calls = self.old.calls ++ call_of centre part answered ∷ [] }) }
        ensures err { OnErr result (self.new ≡ self.old) }
        ensures memory { IfErr result (λ e. e ≡ LinkError.Memory) }
    {
        let call = Call {
            centre,
            part,
            answered,
        };
        match self.calls.push(call) {
            Ok(()) => Ok(()),
            Err(_) => Err(LinkError::Memory),
        }
    }

    /// How many calls there were, those that ran out of memory not counted. Does not allocate.
    pub fn calls(&self) -> u64
        ensures { result ≡ length self.now.calls }
    {
        self.calls.len() as u64
    }
}

impl Link for MemoryLink {
    ghost told = { λ l centre part. Some (held_by l.nodes centre part) };

    ghost faults = { λ l centre part. failures centre part l.calls };

    ghost book = { λ l. book_of l.nodes };

    ghost asked = { λ l. Some l.calls };

    /// `Failed` comes exactly at the calls that are to fail, where memory sufficed.
    fn ask(
        &mut self,
        alloc: Global,
        centre: u32,
        part: u32,
        round: &Round,
    ) -> Result<Vec<Item>, LinkError>
        requires node { (centre ≤ 4) × (part ≤ 7) }
        ensures told { IfOk result (λ items. IsTold (Some (held_by self.old.nodes centre part)) round.now items.items) }
        ensures inside { IfOk result (λ items. AreInside round.now items.items) }
        ensures booked { IfOk result (λ items. AreAmong items.items (book_of self.new.nodes)) }
        ensures answered { OnOk result (WasAsked centre part true (Some self.old.calls) (Some self.new.calls)) }
        ensures failed { IsErrOf result LinkError.Failed → Rose (failures centre part self.old.calls) (failures centre part self.new.calls) }
        ensures counted { IsErrOf result LinkError.Failed → WasAsked centre part false (Some self.old.calls) (Some self.new.calls) }
        ensures later { NoneFell (λ c p. failures c p self.old.calls) (λ c p. failures c p self.new.calls) }
        ensures grows { AreAmong (book_of self.old.nodes) (book_of self.new.nodes) }
        ensures same { SameTold (λ c p. Some (held_by self.old.nodes c p)) (λ c p. Some (held_by self.new.nodes c p)) }
        ensures chosen { IsErrOf result LinkError.Failed → is_to_fail self.old.failing self.old.calls ≡ true }
        ensures others { OnOk result (is_to_fail self.old.failing self.old.calls ≡ false) }
        ensures memory { IsErrOf result LinkError.Memory → self.new ≡ self.old }
        ensures failing { self.new.failing ≡ self.old.failing }
    {
        let number = self.calls.len() as u64 + 1;
        if self.failing.contains(&number) {
            self.count(centre, part, false)?;
            return Err(LinkError::Failed);
        }
        let Ok(items) = window_of(alloc, self.nodes.as_slice(), centre, part, round) else {
            return Err(LinkError::Memory);
        };
        self.count(centre, part, true)?;
        Ok(items)
    }

    ghost use Rattle.ov_link.specs.Lemmas.{book_alike};

    ghost alike = { λ l. book_alike l.nodes };
}
