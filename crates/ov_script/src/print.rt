//! The lines of a script as text, from borrowed parts.
ghost use Rattle.std.specs.Prelude.{◌++◌, ◌∷◌};
ghost use Rattle.std.specs.Fmt.{decimal};
ghost use Rattle.std.specs.List.{flat_map};
ghost use Rattle.ov_base.specs.Word.{Printed};
ghost use Rattle.ov_topology.specs.Actor.{IsGate};
ghost use Rattle.ov_script.specs.Line.{keys_text, line_text};

use crate::line::ScriptLine;
use ov_base::{Key, Memory, print_number};
use ov_functor::{Part, print_parts};
use ov_session::SessionName;
use ov_topology::print_gate;

/// Writes the line of a session at the end, without its line feed. On an error a prefix of it was written.
pub(crate) fn print_session(name: &SessionName, gate: u32, text: &mut Vec<u8>) -> Result<(), Memory>
    requires { IsGate gate }
    ensures { Printed result text.old.items text.new.items (line_text (ScriptLine.Session name.now gate)) }
{
    text.extend_from_slice(b"session ")?;
    text.extend_from_slice(name.bytes())?;
    text.push(b' ')?;
    print_gate(gate, text)
}

/// Writes the line of a transaction at the end, without its line feed. On an error a prefix of it was written.
pub(crate) fn print_do(
    session: &SessionName,
    parts: &[Part],
    text: &mut Vec<u8>,
) -> Result<(), Memory>
    ensures { Printed result text.old.items text.new.items (line_text (ScriptLine.Do session.now parts.now)) }
{
    print_kind(session, b" do ", text)?;
    print_parts(parts, text)
}

/// Writes the line of a snapshot at the end, without its line feed. On an error a prefix of it was written.
pub(crate) fn print_snap(
    session: &SessionName,
    keys: &[Key],
    text: &mut Vec<u8>,
) -> Result<(), Memory>
    ensures { Printed result text.old.items text.new.items (line_text (ScriptLine.Snap session.now keys.now)) }
{
    print_kind(session, b" snap ", text)?;
    print_keys(keys, text)
}

/// Writes the line of a wait at the end, without its line feed. On an error a prefix of it was written.
pub(crate) fn print_after(
    session: &SessionName,
    other: &SessionName,
    seq: u32,
    text: &mut Vec<u8>,
) -> Result<(), Memory>
    ensures { Printed result text.old.items text.new.items (line_text (ScriptLine.After session.now other.now seq)) }
{
    print_kind(session, b" after ", text)?;
    print_awaited(other, seq, text)
}

/// Writes the name of the session, and the word of the line's kind with its spaces.
fn print_kind(session: &SessionName, kind: &[u8], text: &mut Vec<u8>) -> Result<(), Memory>
    ensures { Printed result text.old.items text.new.items (session.now ++ kind.now) }
{
    text.extend_from_slice(session.bytes())?;
    text.extend_from_slice(kind)?;
    Ok(())
}

/// Writes the name of a session and the number of a command.
fn print_awaited(session: &SessionName, seq: u32, text: &mut Vec<u8>) -> Result<(), Memory>
    ensures { Printed result text.old.items text.new.items (session.now ++ 32 ∷ decimal seq) }
{
    text.extend_from_slice(session.bytes())?;
    print_seq(seq, text)
}

/// Writes the number behind a space.
fn print_seq(seq: u32, text: &mut Vec<u8>) -> Result<(), Memory>
    ensures { Printed result text.old.items text.new.items (32 ∷ decimal seq) }
{
    text.push(b' ')?;
    print_number(u64::from(seq), text)
}

/// Writes the keys with a space between them; no key writes nothing.
fn print_keys(keys: &[Key], text: &mut Vec<u8>) -> Result<(), Memory>
    ensures { Printed result text.old.items text.new.items (keys_text keys.now) }
{
    match keys {
        [] => Ok(()),
        [first, others @ ..] => {
            text.extend_from_slice(first.bytes())?;
            print_further(others, text)
        }
    }
}

fn print_further(keys: &[Key], text: &mut Vec<u8>) -> Result<(), Memory>
    ensures { Printed result text.old.items text.new.items (flat_map (λ key. 32 ∷ key) keys.now) }
{
    for key in keys {
        print_separated(key, text)?;
    }
    Ok(())
}

/// Writes the key behind a space.
fn print_separated(key: &Key, text: &mut Vec<u8>) -> Result<(), Memory>
    ensures { Printed result text.old.items text.new.items (32 ∷ key.now) }
{
    text.push(b' ')?;
    text.extend_from_slice(key.bytes())?;
    Ok(())
}
