//! How a script keeps its lines.
ghost use Rattle.std.specs.Prelude.{◌≡◌, ◌<◌};
ghost use Rattle.std.specs.List.{flat_map, AllByRecursion};
ghost use Rattle.ov_base.specs.Word.{Printed};
ghost use Rattle.ov_script.specs.Line.{IsLine, line_text};
ghost use Rattle.ov_script.specs.Written.{IsShown, command_line, kept_text, line_at};

use crate::print::{print_after, print_do, print_session, print_snap};
use ov_base::Memory;
use ov_functor::Command;
use ov_session::{Roster, SessionName};

/// A line, but for what the roster says: sessions and commands by their numbers.
#[derive(Clone, Copy, Debug)]
pub enum Written {
    /// The declaration of this session.
    Session(u32),
    /// This command of this session.
    Command { session: u32, seq: u32 },
    /// That the session's next command waits for this command of the other session.
    After { session: u32, other: u32, seq: u32 },
}

/// Writes lines at the end, each with its line feed. On an error a prefix of them was written.
pub(crate) fn print_lines(
    roster: &Roster,
    written: &[Written],
    text: &mut Vec<u8>,
) -> Result<(), Memory>
    requires { AllByRecursion (IsShown roster.now) written.now }
    ensures { Printed result text.old.items text.new.items (flat_map (kept_text roster.now) written.now) }
{
    for line in written {
        print_ended(roster, line, text)?;
    }
    Ok(())
}

fn print_ended(roster: &Roster, written: &Written, text: &mut Vec<u8>) -> Result<(), Memory>
    requires { IsShown roster.now written.now }
    ensures { Printed result text.old.items text.new.items (kept_text roster.now written.now) }
{
    print_line(roster, written, text)?;
    text.push(b'\n')?;
    Ok(())
}

/// Writes a line, without its line feed.
fn print_line(roster: &Roster, written: &Written, text: &mut Vec<u8>) -> Result<(), Memory>
    requires { IsShown roster.now written.now }
    ensures { Printed result text.old.items text.new.items (line_text (line_at roster.now written.now)) }
{
    match written {
        Written::Session(session) => {
            let plan = &roster.sessions.as_slice()[*session as usize];
            print_session(&plan.name, plan.gate, text)
        }
        Written::Command { session, seq } => {
            let plan = &roster.sessions.as_slice()[*session as usize];
            let planned = &plan.planned.as_slice()[*seq as usize - 1];
            print_command(&plan.name, &planned.command, text)
        }
        Written::After {
            session,
            other,
            seq,
        } => {
            let sessions = roster.sessions.as_slice();
            let name = &sessions[*session as usize].name;
            print_after(name, &sessions[*other as usize].name, *seq, text)
        }
    }
}

fn print_command(session: &SessionName, command: &Command, text: &mut Vec<u8>) -> Result<(), Memory>
    ensures { Printed result text.old.items text.new.items (line_text (command_line session.now command.now)) }
{
    match command {
        Command::Transact(transaction) => print_do(session, transaction.parts(), text),
        Command::Snap(keys) => print_snap(session, keys.as_slice(), text),
    }
}
