//! Sessions, and what they wait for.
ghost use Rattle.std.specs.Prelude.{◌≡◌, ◌<◌, ◌≤◌, [], OnOk};
ghost use Rattle.ov_script.specs.Sessions.{commands_in};
ghost use Rattle.ov_script.specs.declared.line.ScriptLine.TheVariants as lines;
ghost use Rattle.ov_make.specs.Made as spec;
ghost use Rattle.ov_make.specs.Made.{sessions, first_waits, session_lines, last_wait, last_waits};
ghost use Rattle.ov_make.specs.Progress.{IsOpen, holding, with_lines};

use crate::line::add_line;
use crate::names::{SESSIONS, session_name};
use ov_base::Memory;
use ov_script::{Script, ScriptLine};

/// How many gateways there are.
pub(crate) const GATEWAYS: u32 = 3;

/// Adds all sessions, in turn at each gateway.
pub(crate) fn add_sessions(script: &mut Script) -> Result<(), Memory>
    requires { script.old ≡ holding [] }
    ensures { OnOk result (script.new ≡ holding session_lines) }
{
    for session in 0..SESSIONS {
        let line = ScriptLine::Session {
            name: session_name(session),
            gate: session % GATEWAYS,
        };
        add_line(script, line)?;
    }
    Ok(())
}

/// Adds that each session but the first waits for the first command of that one.
pub(crate) fn add_first_waits(script: &mut Script) -> Result<(), Memory>
    requires all { IsOpen script.old 0 }
    requires some { 1 ≤ commands_in (spec.session_name 0) script.old.lines }
    ensures { OnOk result (script.new ≡ with_lines script.old first_waits) }
{
    for session in 1..SESSIONS {
        add_line(script, wait(session, 0, 1))?;
    }
    Ok(())
}

/// Adds that the first session waits for the last command of each other one.
pub(crate) fn add_last_waits(script: &mut Script) -> Result<(), Memory>
    requires { IsOpen script.old 0 }
    ensures { OnOk result (script.new ≡ with_lines script.old (last_waits script.old.lines)) }
{
    for session in 1..SESSIONS {
        add_last_wait(script, session)?;
    }
    Ok(())
}

/// Adds that the first session waits for the last command of this one, if it has any.
fn add_last_wait(script: &mut Script, session: u32) -> Result<(), Memory>
    requires all { IsOpen script.old 0 }
    requires there { session < sessions }
    ensures { OnOk result (script.new ≡ with_lines script.old (last_wait script.old.lines session)) }
{
    let commands = commands_of(script, session);
    if commands >= 1 {
        add_line(script, wait(0, session, commands))
    } else {
        Ok(())
    }
}

/// How many commands the session has.
fn commands_of(script: &Script, session: u32) -> u32
    requires all { IsOpen script.now 0 }
    requires there { session < sessions }
    ensures { result ≡ commands_in (spec.session_name session) script.now.lines }
{
    script.roster().sessions.as_slice()[session as usize]
        .planned
        .len() as u32
}

/// The line that a session waits for a command of another one.
fn wait(session: u32, other: u32, seq: u32) -> ScriptLine
    requires session { session < sessions }
    requires other { other < sessions }
    ensures { result ≡ lines.After (spec.session_name session) (spec.session_name other) seq }
{
    ScriptLine::After {
        session: session_name(session),
        other: session_name(other),
        seq,
    }
}
