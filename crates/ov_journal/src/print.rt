//! Writing the line of an entry, piece by piece.
ghost use Rattle.std.specs.Prelude.{◌≡◌, [], ◌∷◌, ◌++◌, IfOk, OnOk};
ghost use Rattle.std.specs.List.{flat_map};
ghost use Rattle.ov_base.specs.Split.{joined};
ghost use Rattle.ov_base.specs.Version.{version_text};
ghost use Rattle.ov_base.specs.Word.{Printed};
ghost use Rattle.ov_functor.specs.Reply.{reply_text};
ghost use Rattle.ov_topology.specs.Actor.{IsGate, IsNode, IsSettler};
ghost use Rattle.ov_journal.specs.Line.{HasLine, IsBy, IsOfGate, IsOfNode, IsOfSettler, commanded, entry_text, placed};
ghost use Rattle.ov_journal.specs.Text.{key_text, kind_text, marks_text, start_text, valued_text, values_text, vector_text};

use ov_base::{Key, Memory, Version, print_mark, print_number};
use ov_event::{Entry, Kind, Start, Valued, print_items};
use ov_functor::{Item, Part, Reply, print_parts};
use ov_gossip::{Marks, Vector};
use ov_topology::{Actor, Mode, Place, print_gate, print_node, print_settler};
use std::alloc::Global;

/// Writes the line of the entry at the end, without its line feed (docs/FORMATS.md, Journal). On an error a
/// prefix of it was written. Condition: the entry has a line.
pub fn print_entry(alloc: Global, entry: &Entry, text: &mut Vec<u8>) -> Result<(), Memory>
    requires { HasLine entry.now }
    ensures { Printed result text.old.items text.new.items (entry_text entry.now) }
{
    let mut line = Vec::new(alloc);
    print_into(entry, &mut line)?;
    text.extend_from_slice(line.as_slice())?;
    Ok(())
}

/// Makes the text the line of the entry, without its line feed.
pub(crate) fn print_into(entry: &Entry, line: &mut Vec<u8>) -> Result<(), Memory>
    requires { HasLine entry.now }
    ensures { OnOk result (line.new.items ≡ entry_text entry.now) }
{
    line.clear();
    entry.actor.print_to(line)?;
    line.push(b' ')?;
    print_kind(&entry.actor, &entry.kind, line)
}

/// Writes what stands behind the word of the actor.
fn print_kind(actor: &Actor, kind: &Kind, text: &mut Vec<u8>) -> Result<(), Memory>
    requires { IsBy actor.now kind.now }
    ensures { OnOk result (text.new.items ≡ text.old.items ++ kind_text kind.now) }
{
    match actor {
        Actor::Gate(_) => print_gate_kind(kind, text),
        Actor::Node { .. } => print_node_kind(kind, text),
        Actor::Settler(_) => print_settler_kind(kind, text),
    }
}

fn print_gate_kind(kind: &Kind, text: &mut Vec<u8>) -> Result<(), Memory>
    requires { IsOfGate kind.now }
    ensures { OnOk result (text.new.items ≡ text.old.items ++ kind_text kind.now) }
{
    match kind {
        Kind::Began {
            session,
            seq,
            start,
        } => print_began(*session, *seq, start, text),
        Kind::Acked {
            place,
            version,
            centre,
            part,
        } => print_acked(place, *version, *centre, *part, text),
        Kind::Published { time, vector } => print_published(*time, vector, text),
        Kind::Heard { place, vector } => print_heard(place, vector, text),
        Kind::Replied {
            place,
            session,
            seq,
            reply,
        } => print_replied(place, *session, *seq, reply, text),
        Kind::Told {
            place,
            session,
            seq,
        } => print_told(place, *session, *seq, text),
        Kind::Stopped => print_stopped(text),
        _ => unreachable!(),
    }
}

fn print_node_kind(kind: &Kind, text: &mut Vec<u8>) -> Result<(), Memory>
    requires { IsOfNode kind.now }
    ensures { OnOk result (text.new.items ≡ text.old.items ++ kind_text kind.now) }
{
    match kind {
        Kind::Stored {
            place,
            version,
            items,
        } => print_stored(place, *version, items.as_slice(), text),
        Kind::Answered {
            place,
            settler,
            round,
            items,
        } => print_answered(place, *settler, *round, items.as_slice(), text),
        Kind::Stopped => print_stopped(text),
        _ => unreachable!(),
    }
}

fn print_settler_kind(kind: &Kind, text: &mut Vec<u8>) -> Result<(), Memory>
    requires { IsOfSettler kind.now }
    ensures { OnOk result (text.new.items ≡ text.old.items ++ kind_text kind.now) }
{
    match kind {
        Kind::Heard { place, vector } => print_heard(place, vector, text),
        Kind::Asked {
            round,
            mode,
            from,
            below,
        } => print_asked(*round, *mode, *from, *below, text),
        Kind::Taken {
            place,
            round,
            centre,
            part,
            items,
        } => print_taken(place, *round, *centre, *part, items.as_slice(), text),
        Kind::Settled { values } => print_settled(values.as_slice(), text),
        Kind::Resulted {
            place,
            session,
            seq,
            gate,
            reply,
        } => print_resulted(place, *session, *seq, *gate, reply, text),
        Kind::Stopped => print_stopped(text),
        _ => unreachable!(),
    }
}

// ---- kinds

fn print_began(session: u32, seq: u32, start: &Start, text: &mut Vec<u8>) -> Result<(), Memory>
    ensures { OnOk result (text.new.items ≡ text.old.items ++ kind_text (Kind.Began session seq start.now)) }
{
    text.extend_from_slice(b"began")?;
    print_command(session, seq, text)?;
    text.push(b' ')?;
    print_start(start, text)
}

fn print_start(start: &Start, text: &mut Vec<u8>) -> Result<(), Memory>
    ensures { OnOk result (text.new.items ≡ text.old.items ++ start_text start.now) }
{
    match start {
        Start::Draw {
            version,
            transaction,
        } => print_draw(*version, transaction.parts(), text),
        Start::Look { floor, keys } => print_look(*floor, keys.as_slice(), text),
    }
}

fn print_draw(version: Version, parts: &[Part], text: &mut Vec<u8>) -> Result<(), Memory>
    ensures { OnOk result (text.new.items ≡ text.old.items ++ start_text (Start.Draw version parts.now)) }
{
    text.extend_from_slice(b"do ")?;
    version.print_to(text)?;
    text.push(b' ')?;
    print_parts(parts, text)
}

fn print_look(floor: u64, keys: &[Key], text: &mut Vec<u8>) -> Result<(), Memory>
    ensures { OnOk result (text.new.items ≡ text.old.items ++ start_text (Start.Look floor keys.now)) }
{
    text.extend_from_slice(b"snap ")?;
    print_mark(floor, text)?;
    print_keys(keys, text)
}

fn print_stored(
    place: &Place,
    version: Version,
    items: &[Item],
    text: &mut Vec<u8>,
) -> Result<(), Memory>
    ensures { OnOk result (text.new.items ≡ text.old.items ++ kind_text (Kind.Stored place.now version items.now)) }
{
    print_placed(b"stored", place, text)?;
    text.push(b' ')?;
    version.print_to(text)?;
    print_items(items, text)
}

fn print_acked(
    place: &Place,
    version: Version,
    centre: u32,
    part: u32,
    text: &mut Vec<u8>,
) -> Result<(), Memory>
    requires { IsNode centre part }
    ensures { OnOk result (text.new.items ≡ text.old.items ++ kind_text (Kind.Acked place.now version centre part)) }
{
    print_placed(b"acked", place, text)?;
    text.push(b' ')?;
    version.print_to(text)?;
    text.push(b' ')?;
    print_node(centre, part, text)
}

fn print_published(time: u64, vector: &Vector, text: &mut Vec<u8>) -> Result<(), Memory>
    ensures { OnOk result (text.new.items ≡ text.old.items ++ kind_text (Kind.Published time vector.now)) }
{
    text.extend_from_slice(b"published ")?;
    print_number(time, text)?;
    print_vector(vector.listed(), text)
}

fn print_heard(place: &Place, vector: &Vector, text: &mut Vec<u8>) -> Result<(), Memory>
    ensures { OnOk result (text.new.items ≡ text.old.items ++ kind_text (Kind.Heard place.now vector.now)) }
{
    print_placed(b"heard", place, text)?;
    print_vector(vector.listed(), text)
}

fn print_asked(
    round: u64,
    mode: Mode,
    from: u64,
    below: u64,
    text: &mut Vec<u8>,
) -> Result<(), Memory>
    ensures { OnOk result (text.new.items ≡ text.old.items ++ kind_text (Kind.Asked round mode from below)) }
{
    text.extend_from_slice(b"asked ")?;
    print_number(round, text)?;
    text.push(b' ')?;
    mode.print_to(text)?;
    print_window(from, below, text)
}

fn print_answered(
    place: &Place,
    settler: u32,
    round: u64,
    items: &[Item],
    text: &mut Vec<u8>,
) -> Result<(), Memory>
    requires { IsSettler settler }
    ensures { OnOk result (text.new.items ≡ text.old.items ++ kind_text (Kind.Answered place.now settler round items.now)) }
{
    print_placed(b"answered", place, text)?;
    text.push(b' ')?;
    print_settler(settler, text)?;
    text.push(b' ')?;
    print_number(round, text)?;
    print_items(items, text)
}

fn print_taken(
    place: &Place,
    round: u64,
    centre: u32,
    part: u32,
    items: &[Item],
    text: &mut Vec<u8>,
) -> Result<(), Memory>
    requires { IsNode centre part }
    ensures { OnOk result (text.new.items ≡ text.old.items ++ kind_text (Kind.Taken place.now round centre part items.now)) }
{
    print_placed(b"taken", place, text)?;
    text.push(b' ')?;
    print_number(round, text)?;
    text.push(b' ')?;
    print_node(centre, part, text)?;
    print_items(items, text)
}

fn print_settled(values: &[Valued], text: &mut Vec<u8>) -> Result<(), Memory>
    ensures { OnOk result (text.new.items ≡ text.old.items ++ kind_text (Kind.Settled values.now)) }
{
    text.extend_from_slice(b"settled")?;
    print_values(values, text)
}

fn print_resulted(
    place: &Place,
    session: u32,
    seq: u32,
    gate: u32,
    reply: &Reply,
    text: &mut Vec<u8>,
) -> Result<(), Memory>
    requires { IsGate gate }
    ensures { OnOk result (text.new.items ≡ text.old.items ++ kind_text (Kind.Resulted place.now session seq gate reply.now)) }
{
    print_placed(b"resulted", place, text)?;
    print_command(session, seq, text)?;
    text.push(b' ')?;
    print_gate(gate, text)?;
    print_reply(reply, text)
}

fn print_replied(
    place: &Place,
    session: u32,
    seq: u32,
    reply: &Reply,
    text: &mut Vec<u8>,
) -> Result<(), Memory>
    ensures { OnOk result (text.new.items ≡ text.old.items ++ kind_text (Kind.Replied place.now session seq reply.now)) }
{
    print_placed(b"replied", place, text)?;
    print_command(session, seq, text)?;
    print_reply(reply, text)
}

fn print_told(place: &Place, session: u32, seq: u32, text: &mut Vec<u8>) -> Result<(), Memory>
    ensures { OnOk result (text.new.items ≡ text.old.items ++ kind_text (Kind.Told place.now session seq)) }
{
    print_placed(b"told", place, text)?;
    print_command(session, seq, text)
}

fn print_stopped(text: &mut Vec<u8>) -> Result<(), Memory>
    ensures { OnOk result (text.new.items ≡ text.old.items ++ kind_text Kind.Stopped) }
{
    text.extend_from_slice(b"stopped")?;
    Ok(())
}

// ---- pieces

/// Writes the word of a kind and a place.
fn print_placed(word: &[u8], place: &Place, text: &mut Vec<u8>) -> Result<(), Memory>
    ensures { OnOk result (text.new.items ≡ text.old.items ++ joined 32 (word.now ∷ placed place.now [])) }
{
    text.extend_from_slice(word)?;
    text.push(b' ')?;
    print_number(place.entry, text)?;
    text.push(b' ')?;
    print_number(u64::from(place.letter), text)
}

/// Writes the numbers of a session and of one of its commands, each behind a space.
fn print_command(session: u32, seq: u32, text: &mut Vec<u8>) -> Result<(), Memory>
    ensures { OnOk result (text.new.items ≡ text.old.items ++ 32 ∷ joined 32 (commanded session seq [])) }
{
    text.push(b' ')?;
    print_number(u64::from(session), text)?;
    text.push(b' ')?;
    print_number(u64::from(seq), text)
}

/// Writes the two ends of a window, each behind a space.
fn print_window(from: u64, below: u64, text: &mut Vec<u8>) -> Result<(), Memory>
    ensures { OnOk result (text.new.items ≡ text.old.items ++ 32 ∷ joined 32 (version_text from ∷ version_text below ∷ [])) }
{
    text.push(b' ')?;
    print_mark(from, text)?;
    text.push(b' ')?;
    print_mark(below, text)
}

/// Writes the reply behind a space.
fn print_reply(reply: &Reply, text: &mut Vec<u8>) -> Result<(), Memory>
    ensures { OnOk result (text.new.items ≡ text.old.items ++ 32 ∷ reply_text reply.now) }
{
    text.push(b' ')?;
    reply.print_to(text)
}

fn print_vector(vector: &[Marks], text: &mut Vec<u8>) -> Result<(), Memory>
    ensures { OnOk result (text.new.items ≡ text.old.items ++ vector_text vector.now) }
{
    for marks in vector {
        print_marks(marks, text)?;
    }
    Ok(())
}

fn print_marks(marks: &Marks, text: &mut Vec<u8>) -> Result<(), Memory>
    ensures { OnOk result (text.new.items ≡ text.old.items ++ marks_text marks.now) }
{
    text.extend_from_slice(b" ; ")?;
    print_mark(marks.low, text)?;
    text.push(b' ')?;
    print_mark(marks.full, text)?;
    text.push(b' ')?;
    print_mark(marks.done, text)
}

fn print_values(values: &[Valued], text: &mut Vec<u8>) -> Result<(), Memory>
    ensures { OnOk result (text.new.items ≡ text.old.items ++ values_text values.now) }
{
    for valued in values {
        print_valued(valued, text)?;
    }
    Ok(())
}

fn print_valued(valued: &Valued, text: &mut Vec<u8>) -> Result<(), Memory>
    ensures { OnOk result (text.new.items ≡ text.old.items ++ valued_text valued.now) }
{
    text.extend_from_slice(b" ; ")?;
    valued.version.print_to(text)?;
    text.push(b' ')?;
    text.extend_from_slice(valued.key.bytes())?;
    text.push(b' ')?;
    valued.value.print_to(text)
}

fn print_keys(keys: &[Key], text: &mut Vec<u8>) -> Result<(), Memory>
    ensures { OnOk result (text.new.items ≡ text.old.items ++ flat_map key_text keys.now) }
{
    for key in keys {
        print_key(key, text)?;
    }
    Ok(())
}

fn print_key(key: &Key, text: &mut Vec<u8>) -> Result<(), Memory>
    ensures { OnOk result (text.new.items ≡ text.old.items ++ key_text key.now) }
{
    text.push(b' ')?;
    text.extend_from_slice(key.bytes())?;
    Ok(())
}
