//! Reading what a settler did, from the words and groups behind the word of its kind.
ghost use Rattle.std.specs.Prelude.{◌≡◌, ℕ, List, IfOk};
ghost use Rattle.ov_base.specs.Groups.{groups_in, words_in};
ghost use Rattle.ov_base.specs.Split.{all_of};
ghost use Rattle.ov_event.specs.ItemWords.{item_of};
ghost use Rattle.ov_journal.specs.Read as spec;

use crate::common::{add_heard, add_kind, add_stopped};
use crate::list::{parse_items, parse_values, parse_vector};
use crate::word::{parse_mark, parse_round, parse_seq, parse_session};
use ov_base::{Memory, Sequence, Shared};
use ov_event::{Entry, Kind};
use ov_functor::{Item, Reply};
use ov_topology::{Actor, Mode, Place, parse_gate, parse_node};
use std::alloc::Global;

/// Adds what a settler did behind the entries, by the word of its kind; whether it was read. The only error is out of
/// memory.
pub(crate) fn add_settler_kind(
    alloc: Global,
    actor: Actor,
    word: &[u8],
    words: &[&[u8]],
    groups: &[&[&[u8]]],
    entries: &mut Sequence<Entry>,
) -> Result<bool, Memory>
    ensures { IfOk result (λ read. (read, entries.new)
        ≡ spec.added entries.old actor (spec.settler_kind_of word.now (words_in words.now) (groups_in groups.now))) }
{
    if word == b"heard".as_slice() {
        add_heard(actor, words, parse_vector(alloc, groups)?, entries)
    } else if word == b"asked".as_slice() {
        match groups {
            [] => add_asked(actor, words, entries),
            [_, ..] => Ok(false),
        }
    } else if word == b"taken".as_slice() {
        add_taken(actor, words, parse_items(alloc, groups)?, entries)
    } else if word == b"settled".as_slice() {
        add_settled(alloc, actor, words, groups, entries)
    } else if word == b"resulted".as_slice() {
        match groups {
            [] => add_resulted(alloc, actor, words, entries),
            [_, ..] => Ok(false),
        }
    } else if word == b"stopped".as_slice() {
        add_stopped(actor, words, groups, entries)
    } else {
        Ok(false)
    }
}

#[tactic(auto, unfolding(crate::specs::Read::asked_of))]
fn add_asked(actor: Actor, words: &[&[u8]], entries: &mut Sequence<Entry>) -> Result<bool, Memory>
    ensures { IfOk result (λ read. (read, entries.new)
        ≡ spec.added entries.old actor (spec.asked_of (words_in words.now))) }
{
    match words {
        [round, mode, from, below] => {
            let Some(round) = parse_round(round) else {
                return Ok(false);
            };
            let Some(mode) = Mode::parse(mode) else {
                return Ok(false);
            };
            let Some(from) = parse_mark(from) else {
                return Ok(false);
            };
            let Some(below) = parse_mark(below) else {
                return Ok(false);
            };
            add_kind(
                actor,
                Kind::Asked {
                    round,
                    mode,
                    from,
                    below,
                },
                entries,
            )
        }
        _ => Ok(false),
    }
}

/// Adds that the settler took these items.
#[tactic(auto, unfolding(crate::specs::Read::taken_of))]
pub(crate) fn add_taken(
    actor: Actor,
    words: &[&[u8]],
    items: Option<Shared<Item>>,
    entries: &mut Sequence<Entry>,
) -> Result<bool, Memory>
    ensures { (groups : List (List (List ℕ))) → items ≡ all_of item_of groups → IfOk result (λ read. (read, entries.new)
        ≡ spec.added entries.old actor (spec.taken_of (words_in words.now) groups)) }
{
    match words {
        [entry, letter, round, node] => {
            let Some(place) = Place::from_words(entry, letter) else {
                return Ok(false);
            };
            let Some(round) = parse_round(round) else {
                return Ok(false);
            };
            let Some((centre, part)) = parse_node(node) else {
                return Ok(false);
            };
            let Some(items) = items else {
                return Ok(false);
            };
            add_kind(
                actor,
                Kind::Taken {
                    place,
                    round,
                    centre,
                    part,
                    items,
                },
                entries,
            )
        }
        _ => Ok(false),
    }
}

#[tactic(auto, unfolding(crate::specs::Read::settled_of))]
fn add_settled(
    alloc: Global,
    actor: Actor,
    words: &[&[u8]],
    groups: &[&[&[u8]]],
    entries: &mut Sequence<Entry>,
) -> Result<bool, Memory>
    ensures { IfOk result (λ read. (read, entries.new)
        ≡ spec.added entries.old actor (spec.settled_of (words_in words.now) (groups_in groups.now))) }
{
    match words {
        [_, ..] => Ok(false),
        [] => match parse_values(alloc, groups)? {
            None => Ok(false),
            Some(values) => add_kind(actor, Kind::Settled { values }, entries),
        },
    }
}

#[tactic(auto, unfolding(crate::specs::Read::resulted_of))]
fn add_resulted(
    alloc: Global,
    actor: Actor,
    words: &[&[u8]],
    entries: &mut Sequence<Entry>,
) -> Result<bool, Memory>
    ensures { IfOk result (λ read. (read, entries.new)
        ≡ spec.added entries.old actor (spec.resulted_of (words_in words.now))) }
{
    match words {
        [entry, letter, session, seq, gate, words @ ..] => {
            let Some(place) = Place::from_words(entry, letter) else {
                return Ok(false);
            };
            let Some(session) = parse_session(session) else {
                return Ok(false);
            };
            let Some(seq) = parse_seq(seq) else {
                return Ok(false);
            };
            let Some(gate) = parse_gate(gate) else {
                return Ok(false);
            };
            match Reply::from_words(alloc, words)? {
                None => Ok(false),
                Some(reply) => add_kind(
                    actor,
                    Kind::Resulted {
                        place,
                        session,
                        seq,
                        gate,
                        reply,
                    },
                    entries,
                ),
            }
        }
        _ => Ok(false),
    }
}
