//! The middle commands.
ghost use Rattle.std.specs.Prelude.{◌≡◌, ◌≤◌, [], ◌∷◌, IfOk, OnOk};
ghost use Rattle.ov_functor.specs.declared.part.Part.TheVariants as parts;
ghost use Rattle.ov_script.specs.declared.line.ScriptLine.TheVariants as lines;
ghost use Rattle.ov_make.specs.Made as spec;
ghost use Rattle.ov_make.specs.Made.{key_name, middle_by, middle_lines};
ghost use Rattle.ov_make.specs.Progress.{IsOpen, with_lines};

use crate::choices::{amount_of, chosen_amount, first_key, next_number, second_key};
use crate::line::add_line;
use crate::names::{SESSIONS, session_name};
use ov_base::{Amount, Memory, Sequence};
use ov_functor::Part;
use ov_script::{Script, ScriptLine};
use ov_session::SessionName;
use std::alloc::Global;

/// How many sessions take turns: all but the first.
const MOVERS: u32 = SESSIONS - 1;

/// An amount that no key ever has, so that a move of it aborts.
const TOO_MUCH: u64 = 100_000_000_000_000_000;

/// Adds so many middle commands, whose numbers begin behind this one.
pub(crate) fn add_middle(
    alloc: Global,
    script: &mut Script,
    number: u64,
    count: u32,
) -> Result<(), Memory>
    requires { IsOpen script.old count }
    ensures { OnOk result (script.new ≡ with_lines script.old (middle_lines number count)) }
{
    let mut chosen = number;
    for done in 0..count {
        chosen = next_number(chosen);
        add_line(script, middle_line(alloc, done + 1, chosen)?)?;
    }
    Ok(())
}

/// The middle command at a place, from 1, by its number: of each ten the tenth aborts, and the fifth is a snapshot.
fn middle_line(alloc: Global, place: u32, number: u64) -> Result<ScriptLine, Memory>
    requires { 1 ≤ place }
    ensures { IfOk result (λ line. line ≡ middle_by place number) }
{
    let session = session_name(1 + (place - 1) % MOVERS);
    match place % 10 {
        0 => move_line(alloc, session, number, amount_of(TOO_MUCH)),
        5 => snap_line(alloc, session, number),
        _ => move_line(alloc, session, number, chosen_amount(number)),
    }
}

/// A session moves the amount between the keys that a number chooses.
fn move_line(
    alloc: Global,
    session: SessionName,
    number: u64,
    amount: Amount,
) -> Result<ScriptLine, Memory>
    ensures { IfOk result (λ line. line ≡ lines.Do session (parts.Move (key_name (spec.first_key number)) (key_name (spec.second_key number)) amount ∷ [])) }
{
    let mut parts = Sequence::with_capacity(alloc, 1)?;
    parts.push(Part::Move {
        from: first_key(number),
        to: second_key(number),
        amount,
    })?;
    Ok(ScriptLine::Do { session, parts })
}

/// A session takes a snapshot of the keys that a number chooses.
fn snap_line(alloc: Global, session: SessionName, number: u64) -> Result<ScriptLine, Memory>
    ensures { IfOk result (λ line. line ≡ lines.Snap session (key_name (spec.first_key number) ∷ key_name (spec.second_key number) ∷ [])) }
{
    let mut keys = Sequence::with_capacity(alloc, 2)?;
    keys.push(first_key(number))?;
    keys.push(second_key(number))?;
    Ok(ScriptLine::Snap { session, keys })
}
