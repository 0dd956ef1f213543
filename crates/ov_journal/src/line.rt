//! The line of an entry.
ghost use Rattle.std.specs.Prelude.{◌≡◌, ◌∷◌, IfOk};
ghost use Rattle.ov_base.specs.Groups.{groups_in, words_in};
ghost use Rattle.ov_base.specs.Word.{Reads};
ghost use Rattle.ov_journal.specs.Line.{HasLine, entry_text};
ghost use Rattle.ov_journal.specs.Read as spec;
ghost use Rattle.ov_journal.specs.Read.{added_entry, entry_of, entry_of_groups};

use crate::gate::add_gate_kind;
use crate::node::add_node_kind;
use crate::settler::add_settler_kind;
use ov_base::{Memory, Sequence, groups_at, parts_at};
use ov_event::Entry;
use ov_topology::Actor;
use std::alloc::Global;

/// The entry of a line, without its line feed (docs/FORMATS.md, Journal). None exactly where the bytes are
/// the line of none; the only error is out of memory.
pub fn parse_entry(alloc: Global, text: &[u8]) -> Result<Option<Entry>, Memory>
    ensures exact { IfOk result (λ entry. entry ≡ entry_of text.now) }
    ensures reads { IfOk result (λ entry. Reads entry_text HasLine text.now entry) }
{
    entry_read(alloc, text)
}

fn entry_read(alloc: Global, text: &[u8]) -> Result<Option<Entry>, Memory>
    ensures { IfOk result (λ entry. entry ≡ entry_of text.now) }
{
    let mut entries = Sequence::with_capacity(alloc, 1)?;
    if add_entry(alloc, text, &mut entries)? {
        Ok(entries.into_vec().pop())
    } else {
        Ok(None)
    }
}

/// Adds the entry of a line, without its line feed, behind the entries; whether the bytes are the line of one. The only
/// error is out of memory.
pub(crate) fn add_entry(
    alloc: Global,
    text: &[u8],
    entries: &mut Sequence<Entry>,
) -> Result<bool, Memory>
    ensures { IfOk result (λ read. (read, entries.new) ≡ added_entry entries.old (entry_of text.now)) }
{
    let words = parts_at(alloc, text, b' ')?;
    let groups = groups_at(alloc, words.as_slice())?;
    add_groups(alloc, groups.as_slice(), entries)
}

/// Adds the entry of the groups of a line: an actor, the word of a kind, and what stands behind them.
#[tactic(auto, unfolding(crate::specs::Read::entry_of_groups))]
fn add_groups(
    alloc: Global,
    groups: &[&[&[u8]]],
    entries: &mut Sequence<Entry>,
) -> Result<bool, Memory>
    ensures { IfOk result (λ read. (read, entries.new)
        ≡ added_entry entries.old (entry_of_groups (groups_in groups.now))) }
{
    match groups {
        [] => Ok(false),
        [first, others @ ..] => add_first(alloc, first, others, entries),
    }
}

#[tactic(auto, unfolding(crate::specs::Read::entry_of_groups))]
fn add_first(
    alloc: Global,
    first: &[&[u8]],
    others: &[&[&[u8]]],
    entries: &mut Sequence<Entry>,
) -> Result<bool, Memory>
    ensures { IfOk result (λ read. (read, entries.new)
        ≡ added_entry entries.old (entry_of_groups (words_in first.now ∷ groups_in others.now))) }
{
    match first {
        [actor, word, words @ ..] => add_actor_entry(alloc, actor, word, words, others, entries),
        _ => Ok(false),
    }
}

fn add_actor_entry(
    alloc: Global,
    actor: &[u8],
    word: &[u8],
    words: &[&[u8]],
    groups: &[&[&[u8]]],
    entries: &mut Sequence<Entry>,
) -> Result<bool, Memory>
    ensures { IfOk result (λ read. (read, entries.new) ≡ added_entry entries.old
        (spec.actor_entry_of actor.now word.now (words_in words.now) (groups_in groups.now))) }
{
    match Actor::parse(actor) {
        None => Ok(false),
        Some(actor) => add_by(alloc, actor, word, words, groups, entries),
    }
}

/// Adds what this actor did.
pub(crate) fn add_by(
    alloc: Global,
    actor: Actor,
    word: &[u8],
    words: &[&[u8]],
    groups: &[&[&[u8]]],
    entries: &mut Sequence<Entry>,
) -> Result<bool, Memory>
    ensures { IfOk result (λ read. (read, entries.new)
        ≡ spec.added entries.old actor (spec.kind_of actor word.now (words_in words.now) (groups_in groups.now))) }
{
    match actor {
        Actor::Gate(_) => add_gate_kind(alloc, actor, word, words, groups, entries),
        Actor::Node { .. } => add_node_kind(alloc, actor, word, words, groups, entries),
        Actor::Settler(_) => add_settler_kind(alloc, actor, word, words, groups, entries),
    }
}
