//! Which entries have a line.
ghost use Rattle.std.specs.Prelude.{◌≡◌, true, IsTrue, ◌↔◌};
ghost use Rattle.std.specs.List.{AllByRecursion, list_all};
ghost use Rattle.ov_base.specs.Amount.{IsAmount};
ghost use Rattle.ov_base.specs.Key.{IsKey};
ghost use Rattle.ov_base.specs.Value.{IsValue};
ghost use Rattle.ov_base.specs.Version.{IsVersion};
ghost use Rattle.ov_event.specs.ItemWords.{IsItem};
ghost use Rattle.ov_functor.specs.ReplyWords.{IsReply, IsShowing, IsShown};
ghost use Rattle.ov_functor.specs.Transaction.{IsTransaction, is_positive};
ghost use Rattle.ov_functor.specs.Words.{IsPart, IsParts};
ghost use Rattle.ov_topology.specs.Actor.{IsActor, IsNode};
ghost use Rattle.ov_topology.specs.Place.{IsPlace};
ghost use Rattle.ov_journal.specs.Line.{HasLine, IsBy, IsCommand, IsKeys, IsMarks, IsOfGate, IsOfNode, IsOfSettler, IsRound, IsSpelledVector, IsStart, IsValued};

use crate::list::MOST_KEYS;
use crate::word::{LAST_SESSION, MOST_COMMANDS};
use ov_base::{Amount, Key, TIME_LIMIT, Value, Version, repeats};
use ov_event::{Entry, Kind, Start, Valued, has_text};
use ov_functor::{Item, Part, Reply, Shown, Transaction};
use ov_gossip::{Marks, Vector};
use ov_topology::{Actor, Place};

/// The gateways, the centres and the partitions that have a word are below these numbers.
const GATES: u32 = 8;

const CENTRES: u32 = 5;

const PARTITIONS: u32 = 8;

/// The numbers of versions are below this one.
const VERSION_LIMIT: u64 = 1 << 63;

/// The most keys that a reply shows.
const MOST_SHOWN: usize = 8;

/// Whether the entry has a line: its numbers lie in the ranges of the grammar, and an actor of its sort does what it
/// says. Does not allocate.
pub fn has_line(entry: &Entry) -> bool
    ensures { IsTrue result ↔ HasLine entry.now }
{
    has_word(&entry.actor) && is_by(&entry.actor, &entry.kind)
}

fn has_word(actor: &Actor) -> bool
    ensures { IsTrue result ↔ IsActor actor.now }
{
    match actor {
        Actor::Gate(gate) => *gate < GATES,
        Actor::Node { centre, part } => is_node(*centre, *part),
        Actor::Settler(centre) => *centre < CENTRES,
    }
}

fn is_by(actor: &Actor, kind: &Kind) -> bool
    ensures { IsTrue result ↔ IsBy actor.now kind.now }
{
    match actor {
        Actor::Gate(_) => is_of_gate(kind),
        Actor::Node { .. } => is_of_node(kind),
        Actor::Settler(_) => is_of_settler(kind),
    }
}

// ---- kinds

fn is_of_gate(kind: &Kind) -> bool
    ensures { IsTrue result ↔ IsOfGate kind.now }
{
    match kind {
        Kind::Began {
            session,
            seq,
            start,
        } => is_command(*session, *seq) && is_start(start),
        Kind::Acked {
            place,
            version,
            centre,
            part,
        } => is_place(place) && is_version(*version) && is_node(*centre, *part),
        Kind::Published { time, vector } => *time < TIME_LIMIT && is_vector(vector),
        Kind::Heard { place, vector } => is_place(place) && is_vector(vector),
        Kind::Replied {
            place,
            session,
            seq,
            reply,
        } => is_place(place) && is_command(*session, *seq) && is_reply(reply),
        Kind::Told {
            place,
            session,
            seq,
        } => is_place(place) && is_command(*session, *seq),
        Kind::Stopped => true,
        _ => false,
    }
}

fn is_of_node(kind: &Kind) -> bool
    ensures { IsTrue result ↔ IsOfNode kind.now }
{
    match kind {
        Kind::Stored {
            place,
            version,
            items,
        } => is_place(place) && is_version(*version) && are_items(items.as_slice()),
        Kind::Answered {
            place,
            settler,
            round,
            items,
        } => {
            is_place(place) && *settler < CENTRES && is_round(*round) && are_items(items.as_slice())
        }
        Kind::Stopped => true,
        _ => false,
    }
}

fn is_of_settler(kind: &Kind) -> bool
    ensures { IsTrue result ↔ IsOfSettler kind.now }
{
    match kind {
        Kind::Heard { place, vector } => is_place(place) && is_vector(vector),
        Kind::Asked {
            round,
            from,
            below,
            ..
        } => is_round(*round) && is_mark(*from) && is_mark(*below),
        Kind::Taken {
            place,
            round,
            centre,
            part,
            items,
        } => {
            is_place(place)
                && is_round(*round)
                && is_node(*centre, *part)
                && are_items(items.as_slice())
        }
        Kind::Settled { values } => {
            values_fit(values.as_slice());
            true
        }
        Kind::Resulted {
            place,
            session,
            seq,
            gate,
            reply,
        } => { is_place(place) && is_command(*session, *seq) && *gate < GATES && is_reply(reply) }
        Kind::Stopped => true,
        _ => false,
    }
}

// ---- fields

fn is_place(place: &Place) -> bool
    ensures { IsTrue result ↔ IsPlace place.now }
{
    1 <= place.entry && 1 <= place.letter && place.letter <= 9
}

fn is_command(session: u32, seq: u32) -> bool
    ensures { IsTrue result ↔ IsCommand session seq }
{
    u64::from(session) <= LAST_SESSION && 1 <= seq && u64::from(seq) <= MOST_COMMANDS
}

fn is_round(round: u64) -> bool
    ensures { IsTrue result ↔ IsRound round }
{
    1 <= round
}

fn is_node(centre: u32, part: u32) -> bool
    ensures { IsTrue result ↔ IsNode centre part }
{
    centre < CENTRES && part < PARTITIONS
}

fn is_version(version: Version) -> bool
    ensures { IsTrue result ↔ IsVersion version }
{
    is_mark(version.number())
}

fn is_mark(mark: u64) -> bool
    ensures { IsTrue result ↔ IsVersion mark }
{
    mark < VERSION_LIMIT
}

fn is_start(start: &Start) -> bool
    ensures { IsTrue result ↔ IsStart start.now }
{
    match start {
        Start::Draw {
            version,
            transaction,
        } => {
            transaction_fits(transaction);
            is_version(*version)
        }
        Start::Look { floor, keys } => is_mark(*floor) && are_keys(keys.as_slice()),
    }
}

/// Whether the keys are 1 to 8, no two of them equal.
fn are_keys(keys: &[Key]) -> bool
    ensures { IsTrue result ↔ IsKeys keys.now }
{
    keys_fit(keys);
    1 <= keys.len() && keys.len() <= MOST_KEYS && !repeats(keys)
}

fn is_vector(vector: &Vector) -> bool
    ensures { IsTrue result ↔ IsSpelledVector vector.now }
{
    are_marks(vector.listed())
}

fn are_marks(list: &[Marks]) -> bool
    ensures { IsTrue result ↔ AllByRecursion IsMarks list.now }
{
    let mut rest = list;
    while let [first, others @ ..] = rest {
        if !are_versions(first) {
            return false;
        }
        rest = others;
    }
    true
}

fn are_versions(marks: &Marks) -> bool
    ensures { IsTrue result ↔ IsMarks marks.now }
{
    is_mark(marks.low) && is_mark(marks.full) && is_mark(marks.done)
}

fn is_reply(reply: &Reply) -> bool
    ensures { IsTrue result ↔ IsReply reply.now }
{
    match reply {
        Reply::Done { version, gets } => is_showing(version.number(), gets.as_slice()),
        Reply::Aborted { version, gets } => is_showing(version.number(), gets.as_slice()),
        Reply::Snap { watermark, shown } => is_showing(*watermark, shown.as_slice()),
    }
}

fn is_showing(mark: u64, list: &[Shown]) -> bool
    ensures { IsTrue result ↔ IsShowing mark list.now }
{
    showns_fit(list);
    is_mark(mark) && list.len() <= MOST_SHOWN
}

fn are_items(items: &[Item]) -> bool
    ensures { IsTrue result ↔ AllByRecursion IsItem items.now }
{
    let mut rest = items;
    while let [first, others @ ..] = rest {
        if !has_text(first) {
            return false;
        }
        rest = others;
    }
    true
}

// ---- what is in form by its type; these calls do nothing, and stand for the proof alone

fn transaction_fits(transaction: &Transaction)
    ensures { IsParts transaction.now × IsTransaction transaction.now }
{
    parts_fit(transaction.parts());
}

fn parts_fit(parts: &[Part])
    requires { list_all is_positive parts.now ≡ true }
    ensures { AllByRecursion IsPart parts.now }
{
    let mut rest = parts;
    while let [first, others @ ..] = rest {
        part_fits(first);
        rest = others;
    }
}

fn part_fits(part: &Part)
    requires { is_positive part.now ≡ true }
    ensures { IsPart part.now }
{
    match part {
        Part::Put { key, amount } => pair_fits(key, amount),
        Part::Del { key } => key_fits(key),
        Part::Add { key, amount } => pair_fits(key, amount),
        Part::Least { key, amount } => pair_fits(key, amount),
        Part::Greatest { key, amount } => pair_fits(key, amount),
        Part::Move { from, to, amount } => {
            key_fits(from);
            pair_fits(to, amount);
        }
        Part::Get { key } => key_fits(key),
    }
}

fn keys_fit(keys: &[Key])
    ensures { AllByRecursion IsKey keys.now }
{
    let mut rest = keys;
    while let [first, others @ ..] = rest {
        key_fits(first);
        rest = others;
    }
}

fn showns_fit(list: &[Shown])
    ensures { AllByRecursion IsShown list.now }
{
    let mut rest = list;
    while let [first, others @ ..] = rest {
        shown_fits(first);
        rest = others;
    }
}

fn shown_fits(shown: &Shown)
    ensures { IsShown shown.now }
{
    key_fits(&shown.key);
    value_fits(&shown.value);
}

fn values_fit(values: &[Valued])
    ensures { AllByRecursion IsValued values.now }
{
    let mut rest = values;
    while let [first, others @ ..] = rest {
        valued_fits(first);
        rest = others;
    }
}

fn valued_fits(valued: &Valued)
    ensures { IsValued valued.now }
{
    let _number = valued.version.number();
    key_fits(&valued.key);
    value_fits(&valued.value);
}

fn pair_fits(key: &Key, amount: &Amount)
    ensures { IsKey key.now × IsAmount amount.now }
{
    key_fits(key);
    let _number = amount.get();
}

fn value_fits(value: &Value)
    ensures { IsValue value.now }
{
    if let Value::Number(amount) = value {
        let _number = amount.get();
    }
}

fn key_fits(key: &Key)
    ensures { IsKey key.now }
{
    let _bytes = key.bytes();
}
