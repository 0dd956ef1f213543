//! What stands behind the heads of lines, kept as it was read: in a journal many lines have the same items or the same
//! marks, and they are read once and shared.
ghost use Rattle.std.specs.Prelude.{◌≡◌, [], IfOk, OnOk};
ghost use Rattle.std.specs.Str.{bytes_eq};
ghost use Rattle.ov_base.specs.Groups.{groups_of};
ghost use Rattle.ov_base.specs.Split.{all_of};
ghost use Rattle.ov_event.specs.ItemWords.{item_of};
ghost use Rattle.ov_journal.specs.Read.{vector_of};

use crate::list::{parse_items, parse_vector};
use ov_base::{Memory, Plain, Shared, groups_at, parts_at};
use ov_functor::Item;
use ov_gossip::Vector;
use std::alloc::Global;
use std::marker::Model;

/// The most texts that are kept.
const MOST_TAILS: usize = 1024;

/// By so many bytes of a text its place is chosen.
const SAMPLES: usize = 16;

/// The text of groups, and what it is read as: as items, and as marks. Contracts see the text.
#[derive(Drop)]
struct Tail {
    text: Vec<u8>,
    items: Option<Shared<Item>>,
    vector: Option<Vector>,
}

impl Model for Tail {
    ghost use Rattle.std.specs.Prelude.{ℕ, List, ◌≡◌};
    ghost use Rattle.ov_base.specs.Groups.{groups_of};
    ghost use Rattle.ov_base.specs.Split.{all_of};
    ghost use Rattle.ov_event.specs.ItemWords.{item_of};
    ghost use Rattle.ov_journal.specs.Read.{vector_of};

    ghost Value = { List ℕ };

    ghost view = { λ t. t.text.items };

    ghost invariant = { λ t. (t.items ≡ all_of item_of (groups_of t.text.items)) × (t.vector ≡ vector_of (groups_of t.text.items)) };
}

impl Tail {
    /// The empty text. Does not allocate.
    fn empty(alloc: Global) -> Tail
        ensures { result ≡ [] }
    {
        Tail {
            text: Vec::new(alloc),
            items: None,
            vector: None,
        }
    }

    /// This text. The only error is out of memory.
    fn of(alloc: Global, text: &[u8]) -> Result<Tail, Memory>
        ensures { IfOk result (λ tail. tail ≡ text.now) }
    {
        let words = parts_at(alloc, text, b' ')?;
        let groups = groups_at(alloc, words.as_slice())?;
        let items = parse_items(alloc, groups.as_slice())?;
        let vector = parse_vector(alloc, groups.as_slice())?;
        let mut copied = Vec::with_capacity(alloc, text.len())?;
        copied.extend_from_slice(text)?;
        Ok(Tail {
            text: copied,
            items,
            vector,
        })
    }

    /// Whether it is this text.
    fn is(&self, text: &[u8]) -> bool
        ensures { result ≡ bytes_eq self.now text.now }
    {
        self.text.as_slice() == text
    }

    /// The items of its groups. The only error is out of memory.
    fn items(&self) -> Result<Option<Shared<Item>>, Memory>
        ensures { IfOk result (λ items. items ≡ all_of item_of (groups_of self.now)) }
    {
        match &self.items {
            None => Ok(None),
            Some(items) => Ok(Some(items.copy()?)),
        }
    }

    /// The marks of its groups.
    fn vector(&self) -> Option<Vector>
        ensures { result ≡ vector_of (groups_of self.now) }
    {
        self.vector
    }
}

/// The texts that were read last, each at the place that is chosen by some of its bytes.
#[derive(Drop)]
pub(crate) struct Tails {
    places: Vec<Tail>,
}

impl Tails {
    /// Empty texts, as many as that, but no more than are kept. The only error is out of memory.
    pub(crate) fn new(alloc: Global, texts: usize) -> Result<Tails, Memory> {
        let count = texts.min(MOST_TAILS);
        let mut places = Vec::with_capacity(alloc, count)?;
        for _ in 0..count {
            places.push(Tail::empty(alloc))?;
        }
        Ok(Tails { places })
    }

    /// The items of the groups of a text. The only error is out of memory.
    pub(crate) fn items(
        &mut self,
        alloc: Global,
        text: &[u8],
    ) -> Result<Option<Shared<Item>>, Memory>
        ensures { IfOk result (λ items. items ≡ all_of item_of (groups_of text.now)) }
    {
        let place = place_of(text, self.places.len());
        match self.places.get_mut(place) {
            None => Tail::of(alloc, text)?.items(),
            Some(tail) => {
                become_text(alloc, tail, text)?;
                tail.items()
            }
        }
    }

    /// The marks of the groups of a text. The only error is out of memory.
    pub(crate) fn vector(&mut self, alloc: Global, text: &[u8]) -> Result<Option<Vector>, Memory>
        ensures { IfOk result (λ vector. vector ≡ vector_of (groups_of text.now)) }
    {
        let place = place_of(text, self.places.len());
        match self.places.get_mut(place) {
            None => Ok(Tail::of(alloc, text)?.vector()),
            Some(tail) => {
                become_text(alloc, tail, text)?;
                Ok(tail.vector())
            }
        }
    }
}

/// Makes it this text, where it is another one. The only error is out of memory.
fn become_text(alloc: Global, tail: &mut Tail, text: &[u8]) -> Result<(), Memory>
    ensures { OnOk result (tail.new ≡ text.now) }
{
    if !tail.is(text) {
        *tail = Tail::of(alloc, text)?;
    }
    Ok(())
}

/// The place of a text, below the number of places, where there is one. Texts that are equal have the same place.
fn place_of(text: &[u8], places: usize) -> usize {
    let mut sum = text.len();
    for part in text.chunks(text.len() / SAMPLES + 1) {
        if let Some(byte) = part.first() {
            sum = sum.wrapping_mul(31).wrapping_add(usize::from(*byte));
        }
    }
    sum % places.max(1)
}
