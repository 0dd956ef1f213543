//! The core of a node.
ghost use Rattle.std.specs.Prelude.{◌≡◌, ◌↔◌, ◌+◌, ◌<◌, ◌≤◌, List, [], length, map, true, false, Some, None, IfOk, IfSome, OnOk, OnErr, IsTrue};
ghost use Rattle.std.specs.Option.{option_map};
ghost use Rattle.std.specs.List.{filter};
ghost use Rattle.ov_topology.specs.Shape.{IsShape};
ghost use Rattle.ov_topology.specs.declared.actor.Actor as actors;
ghost use Rattle.ov_topology.specs.declared.actor.Actor.TheVariants.{Node};
ghost use Rattle.ov_event.specs.Letters.{is_in, is_asked};
ghost use Rattle.ov_event.specs.declared.letter.Letter.TheVariants.{Write};
ghost use Rattle.ov_lists.specs.Entries.{shown};
ghost use Rattle.ov_history.specs.Past.{History, stops};
ghost use Rattle.ov_history.specs.Letters.{letter as letter_at};
ghost use Rattle.ov_history.specs.May.{Setting, May};
ghost use Rattle.ov_history.specs.Gives.{Take, Stop, act_of};
ghost use Rattle.ov_history.specs.Cores.{letter_for, Steps};
ghost use Rattle.ov_functor.specs.declared.item.Item as items;
ghost use Rattle.ov_node.specs.Answer.{IsLast};
ghost use Rattle.ov_node.specs.Node.{NodeState, IsNode, Asks, item_of, items_in, stores, answers};
ghost use Rattle.ov_functor.specs.Unions.{is_inside, added, all_added};

use crate::held::{Held, Incoming, all_incoming};
use ov_base::{Key, Memory, Plain, Shared, Version, same};
use ov_event::{Entry, Kind, Letter};
use ov_functor::Item;
use ov_lists::VersionLists;
use ov_topology::{Actor, Mode, Place};
use std::alloc::Global;
use std::marker::Model;

/// A storage node as it runs (docs/STORE.md, Nodes): the items that it holds, and whether it has stopped.
#[derive(Drop)]
pub struct NodeCore {
    alloc: Global,
    centre: u32,
    part: u32,
    items: VersionLists<Held>,
    /// The answer that was given last, while nothing was stored since: other settlers often ask for the same window.
    last: Option<Answer>,
    stopped: bool,
}

/// All that a node holds in a window.
#[derive(Drop)]
pub(crate) struct Answer {
    pub from: u64,
    pub below: u64,
    pub items: Shared<Item>,
}

impl Model for NodeCore {
    ghost use Rattle.ov_node.specs.Answer.{IsLast};
    ghost use Rattle.ov_node.specs.Node.{NodeState, items_in};

    ghost Value = { NodeState };

    ghost view = { λ node. record { centre = node.centre; part = node.part; items = items_in node.items.entries; stopped = node.stopped } };

    ghost invariant = { λ node. IsLast (items_in node.items.entries) node.last };
}

impl NodeCore {
    /// A node that holds nothing. It stands for the empty history. Does not allocate.
    pub fn new(alloc: Global, centre: u32, part: u32) -> NodeCore
        ensures state { result ≡ record { centre = centre; part = part; items = []; stopped = false } }
        ensures stands { (t : Setting) → IsShape t.topology → is_in t.topology (Node centre part) ≡ true → IsNode t [] (Node centre part) result }
    {
        NodeCore {
            alloc,
            centre,
            part,
            items: VersionLists::new(alloc),
            last: None,
            stopped: false,
        }
    }

    /// Stores the items of a `Write` letter, those that it does not hold yet, and returns its `Stored` entry. None exactly where
    /// no such entry may follow: the node has stopped, or the letter is not a `Write` to it. After None, and on an error, nothing has
    /// changed. The letter stands at the place in the history. The entry and the node share the letter's items.
    pub fn store(&mut self, place: Place, letter: &Letter) -> Result<Option<Entry>, Memory>
        ensures steps { IfOk result (λ answer. (t : Setting) (h : History) (actor : actors.Actor) → IsNode t h actor self.old → letter_at t.topology h place ≡ Some letter.now → Steps IsNode stores t h actor (Take place) answer self.new) }
        ensures none { IfOk result (λ answer. answer ≡ None → self.new ≡ self.old) }
        ensures err { OnErr result (self.new ≡ self.old) }
    {
        let Letter::Write {
            version,
            part,
            items,
        } = letter
        else {
            return Ok(None);
        };
        self.store_items(place, *version, *part, items.copy()?)
    }

    /// The same with what the letter says.
    fn store_items(
        &mut self,
        place: Place,
        version: Version,
        part: u32,
        items: Shared<Item>,
    ) -> Result<Option<Entry>, Memory>
        ensures steps { IfOk result (λ answer. (t : Setting) (h : History) (actor : actors.Actor) → IsNode t h actor self.old → letter_at t.topology h place ≡ Some (Write version part items) → Steps IsNode stores t h actor (Take place) answer self.new) }
        ensures none { IfOk result (λ answer. answer ≡ None → self.new ≡ self.old) }
        ensures err { OnErr result (self.new ≡ self.old) }
    {
        if self.stopped || part != self.part {
            return Ok(None);
        }
        self.hold(&items)?;
        Ok(Some(self.entry(Kind::Stored {
            place,
            version,
            items,
        })))
    }

    /// Answers an `Ask` letter: returns its `Answered` entry, which has all that it holds in the window asked for. None exactly where no
    /// such entry may follow: the node has stopped, or the letter is not an `Ask` to it. Nothing changes that contracts see. The letter
    /// stands at the place in the history. Takes a search for each key, and time for what it gives; where the window is that of the last
    /// answer and nothing was stored since, it gives the same items again.
    pub fn answer(&mut self, place: Place, letter: &Letter) -> Result<Option<Entry>, Memory>
        ensures steps { IfOk result (λ answer. (t : Setting) (h : History) (actor : actors.Actor) → IsNode t h actor self.old → letter_at t.topology h place ≡ Some letter.now → Steps IsNode answers t h actor (Take place) answer self.new) }
        ensures same { self.new ≡ self.old }
    {
        let Letter::Ask {
            settler,
            round,
            mode,
            from,
            below,
        } = letter
        else {
            return Ok(None);
        };
        if self.stopped || !self.is_asked(*settler, *mode) {
            return Ok(None);
        }
        let items = self.window(*from, *below)?;
        Ok(Some(self.entry(Kind::Answered {
            place,
            settler: *settler,
            round: *round,
            items,
        })))
    }

    /// Whether the node has stopped. Does not allocate.
    pub fn has_stopped(&self) -> bool
        ensures { result ≡ self.now.stopped }
    {
        self.stopped
    }

    /// Stops the node. None exactly where it has stopped, and then nothing has changed. Does not allocate.
    pub fn stop(&mut self) -> Option<Entry>
        ensures steps { (t : Setting) (h : History) (actor : actors.Actor) → IsNode t h actor self.old → Steps IsNode stops t h actor Stop result self.new }
        ensures none { result ≡ None → self.new ≡ self.old }
    {
        if self.stopped {
            return None;
        }
        self.stopped = true;
        Some(self.entry(Kind::Stopped))
    }

    /// Whether an entry of this node may follow: exactly then it is true. `letter` is the history's letter at the entry's place, and
    /// None where there is no such letter. The only error is out of memory.
    pub fn admits(&self, letter: Option<&Letter>, entry: &Entry) -> Result<bool, Memory>
        ensures { IfOk result (λ admits. (t : Setting) (h : History) (actor : actors.Actor) → IsNode t h actor self.now → entry.now.actor ≡ actor → option_map (λ one. one.now) letter.entry ≡ letter_for t.topology h (act_of entry.now.kind) → IsTrue admits ↔ May t h entry.now) }
    {
        if self.stopped {
            return Ok(false);
        }
        match &entry.kind {
            Kind::Stored { version, items, .. } => Ok(self.may_store(letter, *version, items)),
            Kind::Answered {
                settler,
                round,
                items,
                ..
            } => self.may_answer(letter, *settler, *round, items),
            Kind::Stopped => Ok(true),
            _ => Ok(false),
        }
    }

    /// Whether a letter says to store these items at this version here.
    fn may_store(&self, letter: Option<&Letter>, version: Version, items: &Shared<Item>) -> bool
        ensures { IsTrue result ↔ (option_map (λ one. one.now) letter.entry ≡ Some (Write version self.now.part items.now)) }
    {
        match letter {
            Some(
                Letter::Write {
                    version: sent,
                    part,
                    items: wanted,
                },
            ) => {
                if *part != self.part || !same(sent, &version) {
                    return false;
                }
                same(items, wanted)
            }
            _ => false,
        }
    }

    /// Whether a letter asks this node in this round, and the items are all that it holds in the window asked for.
    fn may_answer(
        &self,
        letter: Option<&Letter>,
        settler: u32,
        round: u64,
        items: &Shared<Item>,
    ) -> Result<bool, Memory>
        ensures { IfOk result (λ may. IsTrue may ↔ Asks self.now (option_map (λ one. one.now) letter.entry) settler round items.now) }
    {
        match letter {
            Some(
                Letter::Ask {
                    settler: sender,
                    round: number,
                    mode,
                    from,
                    below,
                },
            ) => {
                if *sender != settler || *number != round || !self.is_asked(settler, *mode) {
                    return Ok(false);
                }
                let held = self.inside(*from, *below)?;
                Ok(same(items, &held))
            }
            _ => Ok(false),
        }
    }

    /// Whether this node is asked in such a round of the settler.
    fn is_asked(&self, settler: u32, mode: Mode) -> bool
        ensures { result ≡ is_asked settler mode (Node self.now.centre self.now.part) }
    {
        match mode {
            Mode::Quorum => true,
            Mode::One => self.centre == settler,
        }
    }

    /// The entry of this node that says this.
    fn entry(&self, kind: Kind) -> Entry
        ensures { result ≡ record { actor = Node self.now.centre self.now.part; kind = kind } }
    {
        Entry {
            actor: Actor::Node {
                centre: self.centre,
                part: self.part,
            },
            kind,
        }
    }

    /// Holds these items too, those that it does not hold yet. On an error nothing has changed.
    fn hold(&mut self, items: &Shared<Item>) -> Result<(), Memory>
        ensures ok { OnOk result (self.new ≡ record { centre = self.old.centre; part = self.old.part; items = all_added items.now self.old.items; stopped = self.old.stopped }) }
        ensures err { OnErr result (self.new ≡ self.old) }
    {
        let all = all_incoming(self.alloc, items)?;
        self.items.reserve(items.len())?;
        add_all(&mut self.items, all);
        self.last = None;
        Ok(())
    }

    /// The items that it holds in the window, by version and then key: those of the last answer, where that was for this window, and else
    /// found anew and kept as the last answer. Nothing changes that contracts see. The only error is out of memory.
    fn window(&mut self, from: u64, below: u64) -> Result<Shared<Item>, Memory>
        ensures items { IfOk result (λ items. items ≡ filter (is_inside from below) self.old.items) }
        ensures same { self.new ≡ self.old }
    {
        if let Some(items) = kept_answer(&self.last, from, below)? {
            return Ok(items);
        }
        let items = self.inside(from, below)?;
        self.last = Some(Answer {
            from,
            below,
            items: items.copy()?,
        });
        Ok(items)
    }

    /// The items that it holds in the window, by version and then key. The only error is out of memory.
    fn inside(&self, from: u64, below: u64) -> Result<Shared<Item>, Memory>
        ensures { IfOk result (λ items. items ≡ filter (is_inside from below) self.now.items) }
    {
        let found = self.items.window(from, below)?;
        Shared::of(copied(self.alloc, found.as_slice())?)
    }
}

/// The items of the answer that is kept, where that is for this window. The only error is out of memory.
fn kept_answer(last: &Option<Answer>, from: u64, below: u64) -> Result<Option<Shared<Item>>, Memory>
    ensures { IfOk result (λ found. (held : List items.Item) → IsLast held last.now → IfSome found (λ kept. kept ≡ filter (is_inside from below) held)) }
{
    match last {
        Some(answer) if answer.from == from && answer.below == below => {
            Ok(Some(answer.items.copy()?))
        }
        _ => Ok(None),
    }
}

/// Adds the items to lists that have room for them, so that nothing is allocated.
fn add_all(lists: &mut VersionLists<Held>, items: Vec<Incoming>)
    requires { length items.items ≤ lists.old.spare }
    ensures { items_in lists.new.entries ≡ all_added items.items (items_in lists.old.entries) }
{
    for item in items {
        add(lists, item);
    }
}

/// Adds an item to lists that have room for it, so that nothing is allocated.
fn add(lists: &mut VersionLists<Held>, item: Incoming)
    requires { 0 < lists.old.spare }
    ensures items { items_in lists.new.entries ≡ added item (items_in lists.old.entries) }
    ensures spare { lists.old.spare ≤ lists.new.spare + 1 }
{
    let _ = lists.insert(item.key, item.version, item.held);
}

/// Copies of the items that were found.
fn copied(alloc: Global, found: &[(Version, Key, &Held)]) -> Result<Vec<Item>, Memory>
    ensures { IfOk result (λ items. items.items ≡ map item_of (map shown found.now)) }
{
    let mut items = Vec::with_capacity(alloc, found.len())?;
    for one in found {
        let (version, key, held) = *one;
        items.push(Item {
            version,
            key,
            functor: held.functor().copy()?,
        })?;
    }
    Ok(items)
}
