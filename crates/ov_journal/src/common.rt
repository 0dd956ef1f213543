//! Reading what actors of more than one sort do.
ghost use Rattle.std.specs.Prelude.{◌≡◌, ℕ, List, Some, IfOk};
ghost use Rattle.ov_base.specs.Groups.{groups_in, words_in};
ghost use Rattle.ov_journal.specs.Read as spec;

use ov_base::{Memory, Sequence};
use ov_event::{Entry, Kind};
use ov_gossip::Vector;
use ov_topology::{Actor, Place};

/// Adds what the actor did behind the entries; true. The only error is out of memory.
pub(crate) fn add_kind(
    actor: Actor,
    kind: Kind,
    entries: &mut Sequence<Entry>,
) -> Result<bool, Memory>
    ensures { IfOk result (λ read. (read, entries.new) ≡ spec.added entries.old actor (Some kind)) }
{
    entries.push(Entry { actor, kind })?;
    Ok(true)
}

/// Adds that the actor heard these marks.
#[tactic(auto, unfolding(crate::specs::Read::heard_of))]
pub(crate) fn add_heard(
    actor: Actor,
    words: &[&[u8]],
    vector: Option<Vector>,
    entries: &mut Sequence<Entry>,
) -> Result<bool, Memory>
    ensures { (groups : List (List (List ℕ))) → vector ≡ spec.vector_of groups → IfOk result (λ read. (read, entries.new)
        ≡ spec.added entries.old actor (spec.heard_of (words_in words.now) groups)) }
{
    match words {
        [entry, letter] => {
            let Some(place) = Place::from_words(entry, letter) else {
                return Ok(false);
            };
            let Some(vector) = vector else {
                return Ok(false);
            };
            add_kind(actor, Kind::Heard { place, vector }, entries)
        }
        _ => Ok(false),
    }
}

#[tactic(auto, unfolding(crate::specs::Read::stopped_of))]
pub(crate) fn add_stopped(
    actor: Actor,
    words: &[&[u8]],
    groups: &[&[&[u8]]],
    entries: &mut Sequence<Entry>,
) -> Result<bool, Memory>
    ensures { IfOk result (λ read. (read, entries.new)
        ≡ spec.added entries.old actor (spec.alone (groups_in groups.now) (spec.stopped_of (words_in words.now)))) }
{
    match groups {
        [_, ..] => Ok(false),
        [] => match words {
            [] => add_kind(actor, Kind::Stopped, entries),
            [_, ..] => Ok(false),
        },
    }
}
