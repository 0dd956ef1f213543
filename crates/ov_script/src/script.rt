//! Scripts: the lines, and what they say.
ghost use Rattle.std.specs.Prelude.{◌≡◌, ◌<◌, ◌++◌, ◌∷◌, [], length, OnOk, OnErr, IfOk, IfErr, None, Ok};
ghost use Rattle.ov_base.specs.Word.{Printed};
ghost use Rattle.ov_session.specs.Standing.{IsRoster, most_commands};
ghost use Rattle.ov_script.specs.Line.{CanAdd, IsLine};
ghost use Rattle.ov_script.specs.Sessions.{names_of, place_in, commands_in, roster_of, order_of};
ghost use Rattle.ov_script.specs.Faults as spec;
ghost use Rattle.ov_script.specs.Faults.{fault_of};
ghost use Rattle.ov_script.specs.Script.{Content, Gives, IsScript, IsFaultOf, script_of, script_text};
ghost use Rattle.ov_script.specs.Written.{Adds, Inserts, MayStand, IsDeclared, name_in, line_in};
ghost use Rattle.ov_script.specs.declared.line.ScriptLine.TheVariants as lines;

use crate::fault::{AddError, ScriptError, ScriptFault};
use crate::growth::{
    copied, find, keys_fault, or_memory, push_after, push_command, push_name, session_room,
    txn_fault,
};
use crate::line::{ScriptLine, fits};
use crate::order::CommandAt;
use crate::read::read_text;
use crate::written::{Written, print_lines};
use indexmap::IndexSet;
use ov_base::{Key, Memory, Plain, Sequence, push_within};
use ov_functor::{Command, Part, Transaction};
use ov_session::{After, MOST_COMMANDS, MOST_SESSIONS, Roster, SessionName, SessionPlan};
use std::alloc::Global;
use std::marker::Model;

/// A script: client sessions and what each is to do, as a list of lines of which none has a fault behind
/// those before it; at most 64 sessions and 4,000 commands (docs/STORE.md, Scripts; docs/FORMATS.md,
/// Script). Contracts see the number of gateways and the lines.
#[derive(Debug, Drop)]
pub struct Script {
    gateways: u32,
    /// The names of the sessions, by which a session is found.
    names: IndexSet<SessionName>,
    roster: Roster,
    /// What the next command of each session waits for.
    waiting: Vec<Sequence<After>>,
    order: Vec<CommandAt>,
    /// What the roster does not say of each line.
    written: Vec<Written>,
}

impl Model for Script {
    ghost use Rattle.ov_script.specs.Script.{Content};

    ghost Value = { Content };

    ghost use Rattle.ov_script.specs.Written.{lines_at, IsKept};

    ghost view = { λ s. record { gateways = s.gateways; lines = lines_at s.roster s.written.items } };

    ghost invariant = { λ s. IsKept s.gateways s.names.keys s.roster s.waiting.items s.order.items s.written.items };
}

impl Script {
    /// The script without a line, where there are so many gateways. Does not allocate.
    pub fn empty(alloc: Global, gateways: u32) -> Script
        ensures { result ≡ record { gateways = gateways; lines = [] } }
    {
        Script {
            gateways,
            names: IndexSet::new(alloc),
            roster: Roster {
                sessions: Sequence::new(alloc),
            },
            waiting: Vec::new(alloc),
            order: Vec::new(alloc),
            written: Vec::new(alloc),
        }
    }

    /// Adds a line at the end, or names its first fault behind the lines that are there, never `Form`. On an
    /// error the script is as before. Condition: the line is as [`ScriptLine::can_add`] says.
    pub fn add(&mut self, line: ScriptLine) -> Result<(), AddError>
        requires { CanAdd line }
        ensures added { OnOk result ((fault_of self.old.gateways self.old.lines line ≡ None) × (self.new ≡ record { gateways = self.old.gateways; lines = self.old.lines ++ line ∷ [] })) }
        ensures fault { IfErr result (λ e. IsFaultOf e (fault_of self.old.gateways self.old.lines line)) }
        ensures same { OnErr result (self.new ≡ self.old) }
    {
        fits(&line);
        self.add_in_form(line)
    }

    /// The script of a text, where there are so many gateways, or its first line with a fault and the first
    /// fault of that line.
    pub fn read(alloc: Global, bytes: &[u8], gateways: u32) -> Result<Script, ScriptError>
        ensures exact { Gives gateways result (script_of gateways bytes.now) }
        ensures spelled { IfOk result (λ s. bytes.now ≡ script_text s.lines) }
    {
        read_text(alloc, bytes, gateways)
    }

    /// The sessions and their commands, which a gateway can follow.
    pub fn roster(&self) -> &Roster
        ensures value { result.now ≡ roster_of self.now.lines }
        ensures form { IsScript self.now }
        ensures fits { IsRoster result.now }
    {
        &self.roster
    }

    /// The commands in the order of their lines.
    pub fn order(&self) -> &[CommandAt]
        ensures { result.now ≡ order_of self.now.lines }
    {
        self.order.as_slice()
    }

    /// The number of the session of this name. None exactly where there is none. Does not allocate.
    pub fn session(&self, name: &SessionName) -> Option<u32>
        ensures { result ≡ place_in name.now (names_of self.now.lines) }
    {
        match find(&self.names, name) {
            None => None,
            Some(at) => Some(at as u32),
        }
    }

    /// How many gateways there are.
    pub fn gateways(&self) -> u32
        ensures { result ≡ self.now.gateways }
    {
        self.gateways
    }

    /// Writes the text at the end: the one that was read, or that of the lines that were added. It is read
    /// back as the same script. On an error a prefix of it was written.
    pub fn print_to(&self, text: &mut Vec<u8>) -> Result<(), Memory>
        ensures text { Printed result text.old.items text.new.items (script_text self.now.lines) }
        ensures again { script_of self.now.gateways (script_text self.now.lines) ≡ Ok self.now.lines }
    {
        print_lines(&self.roster, self.written.as_slice(), text)
    }

    /// A copy, which equals its source. The only error is out of memory.
    pub fn copy(&self) -> Result<Script, Memory>
        ensures { IfOk result (λ s. s ≡ self.now) }
    {
        let alloc = *self.written.allocator();
        Ok(Script {
            gateways: self.gateways,
            names: self.names.clone()?,
            roster: self.roster.copy()?,
            waiting: copied(alloc, self.waiting.as_slice())?,
            order: Vec::from_slice(alloc, self.order.as_slice())?,
            written: Vec::from_slice(alloc, self.written.as_slice())?,
        })
    }

    /// Adds a line that is in form.
    pub(crate) fn add_in_form(&mut self, line: ScriptLine) -> Result<(), AddError>
        requires { IsLine line }
        ensures { Adds result self.old self.new line }
    {
        match line {
            ScriptLine::Session { name, gate } => self.add_session(name, gate),
            ScriptLine::Do { session, parts } => self.add_do(session, parts),
            ScriptLine::Snap { session, keys } => self.add_snap(session, keys),
            ScriptLine::After {
                session,
                other,
                seq,
            } => self.add_after(session, other, seq),
        }
    }

    fn add_session(&mut self, name: SessionName, gate: u32) -> Result<(), AddError>
        requires { IsLine (lines.Session name gate) }
        ensures { Adds result self.old self.new (lines.Session name gate) }
    {
        match self.session_fault(&name, gate) {
            Some(fault) => Err(AddError::Fault(fault)),
            None => or_memory(self.insert_session(name, gate)),
        }
    }

    fn add_do(&mut self, session: SessionName, parts: Sequence<Part>) -> Result<(), AddError>
        requires { IsLine (lines.Do session parts) }
        ensures { Adds result self.old self.new (lines.Do session parts) }
    {
        match self.session(&session) {
            None => Err(AddError::Fault(ScriptFault::NoSession)),
            Some(at) => match Transaction::new(parts.into_vec()) {
                Ok(transaction) => self.add_command(at, Command::Transact(transaction)),
                Err(error) => Err(AddError::Fault(txn_fault(error))),
            },
        }
    }

    fn add_snap(&mut self, session: SessionName, keys: Sequence<Key>) -> Result<(), AddError>
        requires { IsLine (lines.Snap session keys) }
        ensures { Adds result self.old self.new (lines.Snap session keys) }
    {
        match self.session(&session) {
            None => Err(AddError::Fault(ScriptFault::NoSession)),
            Some(at) => match keys_fault(keys.as_slice()) {
                Some(fault) => Err(AddError::Fault(fault)),
                None => self.add_command(at, Command::Snap(keys)),
            },
        }
    }

    fn add_after(
        &mut self,
        session: SessionName,
        other: SessionName,
        seq: u32,
    ) -> Result<(), AddError>
        requires { IsLine (lines.After session other seq) }
        ensures { Adds result self.old self.new (lines.After session other seq) }
    {
        match self.session(&session) {
            None => Err(AddError::Fault(ScriptFault::NoSession)),
            Some(at) => match self.session(&other) {
                None => Err(AddError::Fault(ScriptFault::NoSession)),
                Some(waited) => self.add_wait(at, waited, seq),
            },
        }
    }

    /// Adds a command of a session, where the script is not full.
    fn add_command(&mut self, at: u32, command: Command) -> Result<(), AddError>
        requires session { IsDeclared self.old.lines at }
        requires form { IsLine (line_in self.old.lines at command) }
        requires full { fault_of self.old.gateways self.old.lines (line_in self.old.lines at command) ≡ spec.commands_fault self.old.lines }
        ensures { Adds result self.old self.new (line_in self.old.lines at command) }
    {
        if self.order.len() >= MOST_COMMANDS as usize {
            Err(AddError::Fault(ScriptFault::Commands))
        } else {
            or_memory(self.insert_command(at, command))
        }
    }

    /// Adds that a session's next command waits, where the other session has the command.
    fn add_wait(&mut self, at: u32, other: u32, seq: u32) -> Result<(), AddError>
        requires session { IsDeclared self.old.lines at }
        requires other { IsDeclared self.old.lines other }
        requires form { IsLine (lines.After (name_in self.old.lines at) (name_in self.old.lines other) seq) }
        ensures { Adds result self.old self.new (lines.After (name_in self.old.lines at) (name_in self.old.lines other) seq) }
    {
        if seq as usize > self.commands_of(other) {
            Err(AddError::Fault(ScriptFault::NoCommand))
        } else {
            or_memory(self.insert_after(at, other, seq))
        }
    }

    /// How many commands the session has.
    fn commands_of(&self, at: u32) -> usize
        requires { IsDeclared self.now.lines at }
        ensures { result ≡ commands_in (name_in self.now.lines at) self.now.lines }
    {
        self.roster.sessions.as_slice()[at as usize].planned.len()
    }

    /// Why a session of this name is not added.
    fn session_fault(&self, name: &SessionName, gate: u32) -> Option<ScriptFault>
        ensures { result ≡ spec.session_fault self.now.gateways self.now.lines name.now gate }
    {
        if find(&self.names, name).is_some() {
            Some(ScriptFault::SessionTwice)
        } else if gate >= self.gateways {
            Some(ScriptFault::NoGate)
        } else if self.waiting.len() >= MOST_SESSIONS {
            Some(ScriptFault::Sessions)
        } else {
            None
        }
    }

    /// Takes in a session. On an error the script is as before.
    fn insert_session(&mut self, name: SessionName, gate: u32) -> Result<(), Memory>
        requires { MayStand self.old (lines.Session name gate) }
        ensures { Inserts result self.old self.new (lines.Session name gate) }
    {
        session_room(&mut self.names, &mut self.waiting, &mut self.written)?;
        let session = self.roster.sessions.len() as u32;
        let planned = self.roster.sessions.empty();
        let waits = self.roster.sessions.empty();
        self.roster.sessions.push(SessionPlan {
            name,
            gate,
            planned,
        })?;
        push_name(&mut self.names, name);
        push_within(&mut self.waiting, waits);
        push_within(&mut self.written, Written::Session(session));
        Ok(())
    }

    /// Takes in a command. On an error the script is as before.
    fn insert_command(&mut self, at: u32, command: Command) -> Result<(), Memory>
        requires session { IsDeclared self.old.lines at }
        requires stands { MayStand self.old (line_in self.old.lines at command) }
        requires short { length (order_of self.old.lines) < most_commands }
        ensures { Inserts result self.old self.new (line_in self.old.lines at command) }
    {
        self.order.reserve(1)?;
        self.written.reserve(1)?;
        let seq = push_command(&mut self.roster, &mut self.waiting, at as usize, command)?;
        push_within(&mut self.order, CommandAt { session: at, seq });
        push_within(&mut self.written, Written::Command { session: at, seq });
        Ok(())
    }

    /// Takes in that a session's next command waits. On an error the script is as before.
    fn insert_after(&mut self, at: u32, other: u32, seq: u32) -> Result<(), Memory>
        requires session { IsDeclared self.old.lines at }
        requires other { IsDeclared self.old.lines other }
        requires stands { MayStand self.old (lines.After (name_in self.old.lines at) (name_in self.old.lines other) seq) }
        ensures { Inserts result self.old self.new (lines.After (name_in self.old.lines at) (name_in self.old.lines other) seq) }
    {
        self.written.reserve(1)?;
        push_after(
            &mut self.waiting,
            at as usize,
            After {
                session: other,
                seq,
            },
        )?;
        push_within(
            &mut self.written,
            Written::After {
                session: at,
                other,
                seq,
            },
        );
        Ok(())
    }
}
