//! Reading what a node did, from the words and groups behind the word of its kind.
ghost use Rattle.std.specs.Prelude.{◌≡◌, ℕ, List, IfOk};
ghost use Rattle.ov_base.specs.Groups.{groups_in, words_in};
ghost use Rattle.ov_base.specs.Split.{all_of};
ghost use Rattle.ov_event.specs.ItemWords.{item_of};
ghost use Rattle.ov_journal.specs.Read as spec;

use crate::common::{add_kind, add_stopped};
use crate::list::parse_items;
use crate::word::parse_round;
use ov_base::{Memory, Sequence, Shared, Version};
use ov_event::{Entry, Kind};
use ov_functor::Item;
use ov_topology::{Actor, Place, parse_settler};
use std::alloc::Global;

/// Adds what a node did behind the entries, by the word of its kind; whether it was read. The only error is out of
/// memory.
pub(crate) fn add_node_kind(
    alloc: Global,
    actor: Actor,
    word: &[u8],
    words: &[&[u8]],
    groups: &[&[&[u8]]],
    entries: &mut Sequence<Entry>,
) -> Result<bool, Memory>
    ensures { IfOk result (λ read. (read, entries.new)
        ≡ spec.added entries.old actor (spec.node_kind_of word.now (words_in words.now) (groups_in groups.now))) }
{
    if word == b"stored".as_slice() {
        add_stored(actor, words, parse_items(alloc, groups)?, entries)
    } else if word == b"answered".as_slice() {
        add_answered(actor, words, parse_items(alloc, groups)?, entries)
    } else if word == b"stopped".as_slice() {
        add_stopped(actor, words, groups, entries)
    } else {
        Ok(false)
    }
}

/// Adds that the node stored these items.
#[tactic(auto, unfolding(crate::specs::Read::stored_of))]
pub(crate) fn add_stored(
    actor: Actor,
    words: &[&[u8]],
    items: Option<Shared<Item>>,
    entries: &mut Sequence<Entry>,
) -> Result<bool, Memory>
    ensures { (groups : List (List (List ℕ))) → items ≡ all_of item_of groups → IfOk result (λ read. (read, entries.new)
        ≡ spec.added entries.old actor (spec.stored_of (words_in words.now) groups)) }
{
    match words {
        [entry, letter, version] => {
            let Some(place) = Place::from_words(entry, letter) else {
                return Ok(false);
            };
            let Some(version) = Version::parse(version) else {
                return Ok(false);
            };
            let Some(items) = items else {
                return Ok(false);
            };
            add_kind(
                actor,
                Kind::Stored {
                    place,
                    version,
                    items,
                },
                entries,
            )
        }
        _ => Ok(false),
    }
}

/// Adds that the node answered with these items.
#[tactic(auto, unfolding(crate::specs::Read::answered_of))]
pub(crate) fn add_answered(
    actor: Actor,
    words: &[&[u8]],
    items: Option<Shared<Item>>,
    entries: &mut Sequence<Entry>,
) -> Result<bool, Memory>
    ensures { (groups : List (List (List ℕ))) → items ≡ all_of item_of groups → IfOk result (λ read. (read, entries.new)
        ≡ spec.added entries.old actor (spec.answered_of (words_in words.now) groups)) }
{
    match words {
        [entry, letter, settler, round] => {
            let Some(place) = Place::from_words(entry, letter) else {
                return Ok(false);
            };
            let Some(settler) = parse_settler(settler) else {
                return Ok(false);
            };
            let Some(round) = parse_round(round) else {
                return Ok(false);
            };
            let Some(items) = items else {
                return Ok(false);
            };
            add_kind(
                actor,
                Kind::Answered {
                    place,
                    settler,
                    round,
                    items,
                },
                entries,
            )
        }
        _ => Ok(false),
    }
}
