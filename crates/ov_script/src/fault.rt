//! What may be wrong with scripts and schedules.
ghost use Rattle.std.specs.Prelude.{◌≡◌, ◌++◌, codes, decimal};
ghost use Rattle.ov_base.specs.Word.{Printed};
ghost use Rattle.ov_script.specs.FaultLines.{script_words, schedule_words, fault_line, script_fault_text, schedule_fault_text};

use ov_base::{Memory, print_number};
use thiserror::Error;

/// What is wrong with a line of a script. A line's faults are tested in the order of its kind
/// (docs/FORMATS.md, Script).
#[derive(Clone, Copy, Debug, PartialEq, Eq)]
pub enum ScriptFault {
    /// The line is of no form, or lacks its line feed.
    Form,
    /// The session is declared already.
    SessionTwice,
    /// The topology has no such gateway.
    NoGate,
    /// It is the 65th session.
    Sessions,
    /// No session of this name is declared on an earlier line.
    NoSession,
    /// There are more than 8 parts.
    TooManyParts,
    /// There are more than 8 keys.
    TooManyKeys,
    /// A key is written twice or got twice, or stands twice in a snapshot.
    SameKey,
    /// It is the 4,001st command.
    Commands,
    /// The other session has fewer commands on earlier lines.
    NoCommand,
}

/// Why there is no script.
#[derive(Debug, Drop, Error)]
pub enum ScriptError {
    /// Memory ran out.
    #[error("out of memory")]
    Memory,
    /// The first line with a fault, from 1, and its first fault.
    #[error("line {line}: {fault:?}")]
    Line { line: u64, fault: ScriptFault },
}

/// Why a line is not added.
#[derive(Debug, Drop, Error)]
pub enum AddError {
    /// Memory ran out.
    #[error("out of memory")]
    Memory,
    /// The line's first fault.
    #[error("{0:?}")]
    Fault(ScriptFault),
}

/// What is wrong with a line of a schedule.
#[derive(Clone, Copy, Debug, PartialEq, Eq)]
pub enum ScheduleFault {
    /// The line is of no form, or lacks its line feed.
    Form,
    /// It is line 100,001.
    Lines,
}

/// Why there is no schedule.
#[derive(Debug, Drop, Error)]
pub enum ScheduleError {
    /// Memory ran out.
    #[error("out of memory")]
    Memory,
    /// The first line with a fault, from 1, and its first fault.
    #[error("line {line}: {fault:?}")]
    Line { line: u64, fault: ScheduleFault },
}

impl ScriptFault {
    /// The words of the fault in a fault line.
    pub fn words(self) -> &'static str
        ensures { result.now ≡ script_words self }
    {
        match self {
            ScriptFault::Form => "form",
            ScriptFault::SessionTwice => "session twice",
            ScriptFault::NoGate => "no gateway",
            ScriptFault::Sessions => "too many sessions",
            ScriptFault::NoSession => "no session",
            ScriptFault::TooManyParts => "too many parts",
            ScriptFault::TooManyKeys => "too many keys",
            ScriptFault::SameKey => "same key",
            ScriptFault::Commands => "too many commands",
            ScriptFault::NoCommand => "no such command",
        }
    }
}

impl ScheduleFault {
    /// The words of the fault in a fault line.
    pub fn words(self) -> &'static str
        ensures { result.now ≡ schedule_words self }
    {
        match self {
            ScheduleFault::Form => "form",
            ScheduleFault::Lines => "too many lines",
        }
    }
}

impl ScriptError {
    /// Writes the fault line without its line feed (docs/FORMATS.md, Fault lines); `Memory` has the
    /// empty line. On an error a prefix of it was written.
    pub fn print_to(&self, text: &mut Vec<u8>) -> Result<(), Memory>
        ensures { Printed result text.old.items text.new.items (script_fault_text self.now) }
    {
        match self {
            ScriptError::Memory => Ok(()),
            ScriptError::Line { line, fault } => {
                print_fault("script", *line, fault.words(), text)
            }
        }
    }
}

impl ScheduleError {
    /// Writes the fault line without its line feed (docs/FORMATS.md, Fault lines); `Memory` has the
    /// empty line. On an error a prefix of it was written.
    pub fn print_to(&self, text: &mut Vec<u8>) -> Result<(), Memory>
        ensures { Printed result text.old.items text.new.items (schedule_fault_text self.now) }
    {
        match self {
            ScheduleError::Memory => Ok(()),
            ScheduleError::Line { line, fault } => {
                print_fault("schedule", *line, fault.words(), text)
            }
        }
    }
}

fn print_fault(name: &str, line: u64, words: &str, text: &mut Vec<u8>) -> Result<(), Memory>
    ensures { Printed result text.old.items text.new.items (fault_line name.now line words.now) }
{
    text.extend_from_slice(name.as_bytes())?;
    text.extend_from_slice(b": line ")?;
    print_numbered(line, words, text)
}

/// Writes a number and words behind it.
fn print_numbered(number: u64, words: &str, text: &mut Vec<u8>) -> Result<(), Memory>
    ensures { Printed result text.old.items text.new.items (decimal number ++ codes ": " ++ words.now) }
{
    print_number(number, text)?;
    text.extend_from_slice(b": ")?;
    text.extend_from_slice(words.as_bytes())?;
    Ok(())
}
