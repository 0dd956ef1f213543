//! What a settler asks nodes by.
ghost use Rattle.std.specs.Prelude.{◌≡◌, ◌≤◌, ℕ, true, false, List, Option, IfOk, OnOk, IsErrOf};
ghost use Rattle.ov_functor.specs.declared.item.Item as items;
ghost use Rattle.ov_link.specs.Calls.{WasAsked};
ghost use Rattle.ov_link.specs.Links.{AreAlike, AreAmong, AreInside, IsTold, NoneFell, Rose, SameTold};

use ov_functor::Item;
use ov_window::Round;
use std::alloc::Global;

/// Why a node gave no answer.
#[derive(Clone, Copy, Debug, PartialEq, Eq)]
pub enum LinkError {
    /// Out of memory.
    Memory,
    /// The call failed, and the link has counted it.
    Failed,
}

/// A call of a link that came to its end: which node was asked, and whether it answered.
#[derive(Clone, Copy, Debug, PartialEq, Eq)]
pub struct Call {
    /// The node's centre.
    pub centre: u32,
    /// The node's partition.
    pub part: u32,
    /// Whether it answered; else the call failed.
    pub answered: bool,
}

/// The way to the nodes of all centres.
pub trait Link {
    ghost use Rattle.ov_link.specs.declared.link.Call.{Call};

    /// What the node of a centre and partition holds, where the link tells it.
    ghost told: { Self → ℕ → ℕ → Option (List items.Item) };

    /// How often calls of a node have failed. A count never falls, and stands still at `2^64 - 1`.
    ghost faults: { Self → ℕ → ℕ → ℕ };

    /// All items that nodes can have answered so far. They only become more, and two of them of one version and key are equal.
    ghost book: { Self → List items.Item };

    /// The calls so far, where the link tells them.
    ghost asked: { Self → Option (List Call) };

    /// What a node holds of the round's window, which is in the book then. `Failed` comes only where the count of that node rose in
    /// this call; out of memory is free. No call changes what is told of any node. Condition: there may be such a node.
    fn ask(
        &mut self,
        alloc: Global,
        centre: u32,
        part: u32,
        round: &Round,
    ) -> Result<Vec<Item>, LinkError>
        requires node { (centre ≤ 4) × (part ≤ 7) }
        ensures told { IfOk result (λ items. IsTold (told self.old centre part) round.now items.items) }
        ensures inside { IfOk result (λ items. AreInside round.now items.items) }
        ensures booked { IfOk result (λ items. AreAmong items.items (book self.new)) }
        ensures answered { OnOk result (WasAsked centre part true (asked self.old) (asked self.new)) }
        ensures failed { IsErrOf result LinkError.Failed → Rose (faults self.old centre part) (faults self.new centre part) }
        ensures counted { IsErrOf result LinkError.Failed → WasAsked centre part false (asked self.old) (asked self.new) }
        ensures later { NoneFell (faults self.old) (faults self.new) }
        ensures grows { AreAmong (book self.old) (book self.new) }
        ensures same { SameTold (told self.old) (told self.new) };

    ghost alike: { (link : Self) → AreAlike (book link) };
}
