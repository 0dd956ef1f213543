//! The lines of a script.
ghost use Rattle.std.specs.Prelude.{◌≡◌, ◌≤◌, IfOk, IsTrue, ◌↔◌, true};
ghost use Rattle.std.specs.List.{All, list_all};
ghost use Rattle.ov_base.specs.Word.{Reads};
ghost use Rattle.ov_base.specs.Split.{all_of};
ghost use Rattle.ov_base.specs.Key.{IsKey, key_of};
ghost use Rattle.ov_base.specs.Amount.{IsAmount};
ghost use Rattle.ov_functor.specs.Transaction.{is_positive};
ghost use Rattle.ov_functor.specs.Words.{IsPart};
ghost use Rattle.ov_session.specs.Name.{IsName};
ghost use Rattle.ov_session.specs.Standing.{most_commands};
ghost use Rattle.ov_script.specs.Line as spec;
ghost use Rattle.ov_script.specs.Line.{CanAdd, HasSome, IsLine, line_of, line_text};

use ov_base::{Amount, Key, Memory, Sequence, parse_number, parts_at, split_at_byte};
use ov_functor::{Part, parse_parts};
use ov_session::{MOST_COMMANDS, SessionName};
use ov_topology::parse_gate;
use std::alloc::Global;

/// The greatest number of a gateway.
const LAST_GATE: u32 = 7;

/// A line of a script (docs/FORMATS.md, Script).
#[derive(Debug, Drop)]
pub enum ScriptLine {
    /// Declares the next session, at this gateway.
    Session {
        name: SessionName,
        gate: u32,
    },
    /// The session's next command, a transaction of these parts.
    Do {
        session: SessionName,
        parts: Sequence<Part>,
    },
    /// The session's next command, a snapshot of these keys.
    Snap {
        session: SessionName,
        keys: Sequence<Key>,
    },
    /// The session's next command is not begun before this command of the other session is known as replied.
    After {
        session: SessionName,
        other: SessionName,
        seq: u32,
    },
}

impl ScriptLine {
    /// Whether the line may be added to a script: no list is empty, each move is of at least 1, the gateway
    /// is at most 7, and the number of a command from 1 to 4000.
    pub fn can_add(&self) -> bool
        ensures { IsTrue result ↔ CanAdd self.now }
    {
        match self {
            ScriptLine::Session { gate, .. } => *gate <= LAST_GATE,
            ScriptLine::Do { parts, .. } => can_do(parts.as_slice()),
            ScriptLine::Snap { keys, .. } => !keys.is_empty(),
            ScriptLine::After { seq, .. } => is_number(*seq),
        }
    }

    /// The line that the bytes spell, without its line feed. None exactly where they spell none; the only
    /// error is out of memory.
    pub fn parse(alloc: Global, text: &[u8]) -> Result<Option<ScriptLine>, Memory>
        ensures exact { IfOk result (λ line. line ≡ line_of text.now) }
        ensures reads { IfOk result (λ line. Reads line_text IsLine text.now line) }
    {
        line_read(alloc, text)
    }
}

// ---- the lines that may be added

/// Whether there are parts, and each move is of at least 1.
fn can_do(parts: &[Part]) -> bool
    ensures { IsTrue result ↔ HasSome parts.now × (list_all is_positive parts.now ≡ true) }
{
    !parts.is_empty() && are_positive(parts)
}

fn are_positive(parts: &[Part]) -> bool
    ensures { result ≡ list_all is_positive parts.now }
{
    parts.iter().all(|part| is_positive(part))
}

fn is_positive(part: &Part) -> bool
    ensures { result ≡ is_positive part.now }
{
    match part {
        Part::Move { amount, .. } => amount.get() >= 1,
        _ => true,
    }
}

/// Whether a command may have the number.
fn is_number(seq: u32) -> bool
    ensures { IsTrue result ↔ (1 ≤ seq) × (seq ≤ most_commands) }
{
    1 <= seq && seq <= MOST_COMMANDS
}

// ---- reading a line

#[tactic(auto, unfolding(crate::specs::Line::line_of))]
fn line_read(alloc: Global, text: &[u8]) -> Result<Option<ScriptLine>, Memory>
    ensures { IfOk result (λ line. line ≡ line_of text.now) }
{
    match split_at_byte(text, b' ') {
        None => Ok(None),
        Some((first, rest)) => parse_first(alloc, first, rest),
    }
}

fn parse_first(alloc: Global, first: &[u8], rest: &[u8]) -> Result<Option<ScriptLine>, Memory>
    ensures { IfOk result (λ line. line ≡ spec.first_of first.now rest.now) }
{
    if first == b"session".as_slice() {
        Ok(parse_session(rest))
    } else {
        parse_named(alloc, first, rest)
    }
}

fn parse_named(alloc: Global, first: &[u8], rest: &[u8]) -> Result<Option<ScriptLine>, Memory>
    ensures { IfOk result (λ line. line ≡ spec.named_of first.now rest.now) }
{
    match SessionName::from_bytes(first) {
        None => Ok(None),
        Some(session) => match split_at_byte(rest, b' ') {
            None => Ok(None),
            Some((kind, rest)) => parse_kind(alloc, session, kind, rest),
        },
    }
}

fn parse_kind(
    alloc: Global,
    session: SessionName,
    kind: &[u8],
    rest: &[u8],
) -> Result<Option<ScriptLine>, Memory>
    ensures { IfOk result (λ line. line ≡ spec.kind_of session kind.now rest.now) }
{
    if kind == b"do".as_slice() {
        parse_do(alloc, session, rest)
    } else if kind == b"snap".as_slice() {
        parse_snap(alloc, session, rest)
    } else if kind == b"after".as_slice() {
        Ok(parse_after(session, rest))
    } else {
        Ok(None)
    }
}

fn parse_session(rest: &[u8]) -> Option<ScriptLine>
    ensures { result ≡ spec.session_of rest.now }
{
    let (name, gate) = split_at_byte(rest, b' ')?;
    let name = SessionName::from_bytes(name)?;
    let gate = parse_gate(gate)?;
    Some(ScriptLine::Session { name, gate })
}

fn parse_do(alloc: Global, session: SessionName, rest: &[u8]) -> Result<Option<ScriptLine>, Memory>
    ensures { IfOk result (λ line. line ≡ spec.do_of session rest.now) }
{
    match parse_parts(alloc, rest)? {
        None => Ok(None),
        Some(parts) => Ok(Some(ScriptLine::Do {
            session,
            parts: Sequence::from_vec(parts),
        })),
    }
}

fn parse_snap(
    alloc: Global,
    session: SessionName,
    rest: &[u8],
) -> Result<Option<ScriptLine>, Memory>
    ensures { IfOk result (λ line. line ≡ spec.snap_of session rest.now) }
{
    match parse_keys(alloc, rest)? {
        None => Ok(None),
        Some(keys) => Ok(Some(ScriptLine::Snap { session, keys })),
    }
}

fn parse_keys(alloc: Global, text: &[u8]) -> Result<Option<Sequence<Key>>, Memory>
    ensures { IfOk result (λ keys. keys ≡ spec.keys_of text.now) }
{
    let words = parts_at(alloc, text, b' ')?;
    keys_from(alloc, words.as_slice())
}

fn keys_from(alloc: Global, words: &[&[u8]]) -> Result<Option<Sequence<Key>>, Memory>
    ensures { IfOk result (λ keys. keys ≡ all_of (λ w. key_of w.now) words.now) }
{
    let mut keys = Sequence::new(alloc);
    for word in words {
        match Key::from_bytes(word) {
            None => return Ok(None),
            Some(key) => keys.push(key)?,
        }
    }
    Ok(Some(keys))
}

fn parse_after(session: SessionName, rest: &[u8]) -> Option<ScriptLine>
    ensures { result ≡ spec.after_of session rest.now }
{
    let (other, seq) = split_at_byte(rest, b' ')?;
    let other = SessionName::from_bytes(other)?;
    let seq = parse_seq(seq)?;
    Some(ScriptLine::After {
        session,
        other,
        seq,
    })
}

fn parse_seq(text: &[u8]) -> Option<u32>
    ensures { result ≡ spec.seq_of text.now }
{
    let seq = parse_number(text)?;
    if 1 <= seq && seq <= u64::from(MOST_COMMANDS) {
        Some(seq as u32)
    } else {
        None
    }
}

// ---- what is added can be read back

/// A line that may be added is in form: its names, keys and amounts are so by their types. The call does
/// nothing; it stands only for the proof that what a script prints is read back.
pub(crate) fn fits(line: &ScriptLine)
    ensures { CanAdd line.now → IsLine line.now }
{
    match line {
        ScriptLine::Session { name, .. } => name_fits(name),
        ScriptLine::Do { session, parts } => {
            name_fits(session);
            parts_fit(parts.as_slice());
        }
        ScriptLine::Snap { session, keys } => {
            name_fits(session);
            keys_fit(keys.as_slice());
        }
        ScriptLine::After { session, other, .. } => {
            name_fits(session);
            name_fits(other);
        }
    }
}

fn parts_fit(parts: &[Part])
    ensures { All (λ part. is_positive part ≡ true → IsPart part) parts.now }
{
    for part in parts {
        part_fits(part);
    }
}

fn part_fits(part: &Part)
    ensures { is_positive part.now ≡ true → IsPart part.now }
{
    match part {
        Part::Put { key, amount } => pair_fits(key, amount),
        Part::Del { key } => key_fits(key),
        Part::Add { key, amount } => pair_fits(key, amount),
        Part::Least { key, amount } => pair_fits(key, amount),
        Part::Greatest { key, amount } => pair_fits(key, amount),
        Part::Move { from, to, amount } => {
            key_fits(from);
            pair_fits(to, amount);
        }
        Part::Get { key } => key_fits(key),
    }
}

fn keys_fit(keys: &[Key])
    ensures { All IsKey keys.now }
{
    for key in keys {
        key_fits(key);
    }
}

fn pair_fits(key: &Key, amount: &Amount)
    ensures { IsKey key.now × IsAmount amount.now }
{
    let _bytes = key.bytes();
    let _number = amount.get();
}

fn key_fits(key: &Key)
    ensures { IsKey key.now }
{
    let _bytes = key.bytes();
}

fn name_fits(name: &SessionName)
    ensures { IsName name.now }
{
    let _bytes = name.bytes();
}
