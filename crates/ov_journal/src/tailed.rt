//! Reading a line whose groups behind the head are those of one text: what many lines have is taken from what was kept.
ghost use Rattle.std.specs.Prelude.{◌≡◌, [], ◌∷◌, ◌++◌, IfOk, IfSome};
ghost use Rattle.ov_base.specs.Groups.{groups_of, words_in, words_of};
ghost use Rattle.ov_journal.specs.Read as spec;
ghost use Rattle.ov_journal.specs.Read.{added_entry, entry_of, entry_of_groups};

use crate::common::add_heard;
use crate::gate::add_published;
use crate::line::{add_by, add_entry};
use crate::node::{add_answered, add_stored};
use crate::settler::add_taken;
use crate::tails::Tails;
use ov_base::{Memory, Sequence, groups_at, parts_at, split_at_byte};
use ov_event::Entry;
use ov_topology::Actor;
use std::alloc::Global;

/// Adds the entry of a line, without its line feed, behind the entries; whether the bytes are the line of one. The only
/// error is out of memory.
pub(crate) fn add_line(
    alloc: Global,
    text: &[u8],
    tails: &mut Tails,
    entries: &mut Sequence<Entry>,
) -> Result<bool, Memory>
    ensures { IfOk result (λ read. (read, entries.new) ≡ added_entry entries.old (entry_of text.now)) }
{
    match cut_line(text) {
        Some((head, tail)) => add_cut(alloc, head, tail, tails, entries),
        None => add_entry(alloc, text, entries),
    }
}

/// What stands before the first ` ; ` and what stands behind it. None where the first `;` is no word between others. Does
/// not allocate.
#[tactic(auto, using(crate::proofs::LineCuts::groups_cut))]
fn cut_line(text: &[u8]) -> Option<(&[u8], &[u8])>
    ensures { IfSome result (λ cut. groups_of text.now ≡ words_of cut.0.now ∷ groups_of cut.1.now) }
{
    let (front, back) = split_at_byte(text, b';')?;
    let head = before_space(front)?;
    let tail = behind_space(back)?;
    Some((head, tail))
}

fn before_space(text: &[u8]) -> Option<&[u8]>
    ensures { IfSome result (λ head. text.now ≡ head.now ++ 32 ∷ []) }
{
    match text {
        [head @ .., b' '] => Some(head),
        _ => None,
    }
}

fn behind_space(text: &[u8]) -> Option<&[u8]>
    ensures { IfSome result (λ tail. text.now ≡ 32 ∷ tail.now) }
{
    match text {
        [b' ', tail @ ..] => Some(tail),
        _ => None,
    }
}

/// Adds the entry of the words of a head and the groups of the text behind it.
fn add_cut(
    alloc: Global,
    head: &[u8],
    tail: &[u8],
    tails: &mut Tails,
    entries: &mut Sequence<Entry>,
) -> Result<bool, Memory>
    ensures { IfOk result (λ read. (read, entries.new)
        ≡ added_entry entries.old (entry_of_groups (words_of head.now ∷ groups_of tail.now))) }
{
    let words = parts_at(alloc, head, b' ')?;
    add_words(alloc, words.as_slice(), tail, tails, entries)
}

#[tactic(auto, unfolding(crate::specs::Read::entry_of_groups))]
fn add_words(
    alloc: Global,
    words: &[&[u8]],
    tail: &[u8],
    tails: &mut Tails,
    entries: &mut Sequence<Entry>,
) -> Result<bool, Memory>
    ensures { IfOk result (λ read. (read, entries.new)
        ≡ added_entry entries.old (entry_of_groups (words_in words.now ∷ groups_of tail.now))) }
{
    match words {
        [actor, word, words @ ..] => match Actor::parse(actor) {
            None => Ok(false),
            Some(actor) => add_tailed(alloc, actor, word, words, tail, tails, entries),
        },
        _ => Ok(false),
    }
}

/// Adds what this actor did.
fn add_tailed(
    alloc: Global,
    actor: Actor,
    word: &[u8],
    words: &[&[u8]],
    tail: &[u8],
    tails: &mut Tails,
    entries: &mut Sequence<Entry>,
) -> Result<bool, Memory>
    ensures { IfOk result (λ read. (read, entries.new)
        ≡ spec.added entries.old actor (spec.kind_of actor word.now (words_in words.now) (groups_of tail.now))) }
{
    match actor {
        Actor::Gate(_) => {
            if word == b"published".as_slice() {
                add_published(actor, words, tails.vector(alloc, tail)?, entries)
            } else if word == b"heard".as_slice() {
                add_heard(actor, words, tails.vector(alloc, tail)?, entries)
            } else {
                add_split(alloc, actor, word, words, tail, entries)
            }
        }
        Actor::Node { .. } => {
            if word == b"stored".as_slice() {
                add_stored(actor, words, tails.items(alloc, tail)?, entries)
            } else if word == b"answered".as_slice() {
                add_answered(actor, words, tails.items(alloc, tail)?, entries)
            } else {
                add_split(alloc, actor, word, words, tail, entries)
            }
        }
        Actor::Settler(_) => {
            if word == b"heard".as_slice() {
                add_heard(actor, words, tails.vector(alloc, tail)?, entries)
            } else if word == b"taken".as_slice() {
                add_taken(actor, words, tails.items(alloc, tail)?, entries)
            } else {
                add_split(alloc, actor, word, words, tail, entries)
            }
        }
    }
}

/// Adds what this actor did, where the groups are not kept.
fn add_split(
    alloc: Global,
    actor: Actor,
    word: &[u8],
    words: &[&[u8]],
    tail: &[u8],
    entries: &mut Sequence<Entry>,
) -> Result<bool, Memory>
    ensures { IfOk result (λ read. (read, entries.new)
        ≡ spec.added entries.old actor (spec.kind_of actor word.now (words_in words.now) (groups_of tail.now))) }
{
    let others = parts_at(alloc, tail, b' ')?;
    let groups = groups_at(alloc, others.as_slice())?;
    add_by(alloc, actor, word, words, groups.as_slice(), entries)
}
