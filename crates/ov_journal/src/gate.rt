//! Reading what a gateway did, from the words and groups behind the word of its kind.
ghost use Rattle.std.specs.Prelude.{◌≡◌, ℕ, List, IfOk};
ghost use Rattle.ov_base.specs.Groups.{groups_in, words_in};
ghost use Rattle.ov_journal.specs.Read as spec;

use crate::common::{add_heard, add_kind, add_stopped};
use crate::list::parse_vector;
use crate::start::parse_start;
use crate::word::{parse_seq, parse_session, parse_time};
use ov_base::{Memory, Sequence, Version};
use ov_event::{Entry, Kind};
use ov_functor::Reply;
use ov_gossip::Vector;
use ov_topology::{Actor, Place, parse_node};
use std::alloc::Global;

/// Adds what a gateway did behind the entries, by the word of its kind; whether it was read. The only error is out of
/// memory.
pub(crate) fn add_gate_kind(
    alloc: Global,
    actor: Actor,
    word: &[u8],
    words: &[&[u8]],
    groups: &[&[&[u8]]],
    entries: &mut Sequence<Entry>,
) -> Result<bool, Memory>
    ensures { IfOk result (λ read. (read, entries.new)
        ≡ spec.added entries.old actor (spec.gate_kind_of word.now (words_in words.now) (groups_in groups.now))) }
{
    if word == b"began".as_slice() {
        add_began(alloc, actor, words, groups, entries)
    } else if word == b"acked".as_slice() {
        match groups {
            [] => add_acked(actor, words, entries),
            [_, ..] => Ok(false),
        }
    } else if word == b"published".as_slice() {
        add_published(actor, words, parse_vector(alloc, groups)?, entries)
    } else if word == b"heard".as_slice() {
        add_heard(actor, words, parse_vector(alloc, groups)?, entries)
    } else if word == b"replied".as_slice() {
        match groups {
            [] => add_replied(alloc, actor, words, entries),
            [_, ..] => Ok(false),
        }
    } else if word == b"told".as_slice() {
        match groups {
            [] => add_told(actor, words, entries),
            [_, ..] => Ok(false),
        }
    } else if word == b"stopped".as_slice() {
        add_stopped(actor, words, groups, entries)
    } else {
        Ok(false)
    }
}

#[tactic(auto, unfolding(crate::specs::Read::began_of))]
fn add_began(
    alloc: Global,
    actor: Actor,
    words: &[&[u8]],
    groups: &[&[&[u8]]],
    entries: &mut Sequence<Entry>,
) -> Result<bool, Memory>
    ensures { IfOk result (λ read. (read, entries.new)
        ≡ spec.added entries.old actor (spec.began_of (words_in words.now) (groups_in groups.now))) }
{
    match words {
        [session, seq, word, version, words @ ..] => {
            let Some(session) = parse_session(session) else {
                return Ok(false);
            };
            let Some(seq) = parse_seq(seq) else {
                return Ok(false);
            };
            match parse_start(alloc, word, version, words, groups)? {
                None => Ok(false),
                Some(start) => add_kind(
                    actor,
                    Kind::Began {
                        session,
                        seq,
                        start,
                    },
                    entries,
                ),
            }
        }
        _ => Ok(false),
    }
}

#[tactic(auto, unfolding(crate::specs::Read::acked_of))]
fn add_acked(actor: Actor, words: &[&[u8]], entries: &mut Sequence<Entry>) -> Result<bool, Memory>
    ensures { IfOk result (λ read. (read, entries.new)
        ≡ spec.added entries.old actor (spec.acked_of (words_in words.now))) }
{
    match words {
        [entry, letter, version, node] => {
            let Some(place) = Place::from_words(entry, letter) else {
                return Ok(false);
            };
            let Some(version) = Version::parse(version) else {
                return Ok(false);
            };
            let Some((centre, part)) = parse_node(node) else {
                return Ok(false);
            };
            add_kind(
                actor,
                Kind::Acked {
                    place,
                    version,
                    centre,
                    part,
                },
                entries,
            )
        }
        _ => Ok(false),
    }
}

/// Adds that the gateway published these marks.
#[tactic(auto, unfolding(crate::specs::Read::published_of))]
pub(crate) fn add_published(
    actor: Actor,
    words: &[&[u8]],
    vector: Option<Vector>,
    entries: &mut Sequence<Entry>,
) -> Result<bool, Memory>
    ensures { (groups : List (List (List ℕ))) → vector ≡ spec.vector_of groups → IfOk result (λ read. (read, entries.new)
        ≡ spec.added entries.old actor (spec.published_of (words_in words.now) groups)) }
{
    match words {
        [time] => {
            let Some(time) = parse_time(time) else {
                return Ok(false);
            };
            let Some(vector) = vector else {
                return Ok(false);
            };
            add_kind(actor, Kind::Published { time, vector }, entries)
        }
        _ => Ok(false),
    }
}

#[tactic(auto, unfolding(crate::specs::Read::replied_of))]
fn add_replied(
    alloc: Global,
    actor: Actor,
    words: &[&[u8]],
    entries: &mut Sequence<Entry>,
) -> Result<bool, Memory>
    ensures { IfOk result (λ read. (read, entries.new)
        ≡ spec.added entries.old actor (spec.replied_of (words_in words.now))) }
{
    match words {
        [entry, letter, session, seq, words @ ..] => {
            let Some(place) = Place::from_words(entry, letter) else {
                return Ok(false);
            };
            let Some(session) = parse_session(session) else {
                return Ok(false);
            };
            let Some(seq) = parse_seq(seq) else {
                return Ok(false);
            };
            match Reply::from_words(alloc, words)? {
                None => Ok(false),
                Some(reply) => add_kind(
                    actor,
                    Kind::Replied {
                        place,
                        session,
                        seq,
                        reply,
                    },
                    entries,
                ),
            }
        }
        _ => Ok(false),
    }
}

#[tactic(auto, unfolding(crate::specs::Read::told_of))]
fn add_told(actor: Actor, words: &[&[u8]], entries: &mut Sequence<Entry>) -> Result<bool, Memory>
    ensures { IfOk result (λ read. (read, entries.new)
        ≡ spec.added entries.old actor (spec.told_of (words_in words.now))) }
{
    match words {
        [entry, letter, session, seq] => {
            let Some(place) = Place::from_words(entry, letter) else {
                return Ok(false);
            };
            let Some(session) = parse_session(session) else {
                return Ok(false);
            };
            let Some(seq) = parse_seq(seq) else {
                return Ok(false);
            };
            add_kind(
                actor,
                Kind::Told {
                    place,
                    session,
                    seq,
                },
                entries,
            )
        }
        _ => Ok(false),
    }
}
