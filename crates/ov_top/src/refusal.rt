//! Why a call ends before it follows anything.
ghost use Rattle.std.specs.Prelude.{◌≡◌};
ghost use Rattle.ov_base.specs.Word.{Printed};
ghost use Rattle.ov_top.specs.Form.{form_line, form_status};

use ov_base::Memory;
use ov_journal::JournalError;
use ov_script::{ScheduleError, ScriptError};
use ov_topology::TopologyError;

/// Which of the file words of a command.
#[derive(Clone, Copy, Debug, PartialEq, Eq)]
pub(crate) enum FileWord {
    /// The first, the topology.
    Topology,
    /// The second, the script.
    Script,
    /// The third of `step`, the schedule.
    Schedule,
    /// The third of `audit`, the journal.
    Journal,
}

/// What is wrong with the bytes of a file.
#[derive(Debug, Drop)]
pub(crate) enum FormFault {
    /// The topology is refused.
    Topology(TopologyError),
    /// The script is refused.
    Script(ScriptError),
    /// The schedule is refused.
    Schedule(ScheduleError),
    /// The journal is refused: a line of it is off the grammar.
    Journal(JournalError),
}

/// Why a call ends before it follows anything, one variant a cause.
#[derive(Debug, Drop)]
pub(crate) enum Refusal {
    /// Out of memory.
    Memory,
    /// The read of this file failed, and the shelf has counted it.
    Failed(FileWord),
    /// This file is longer than the limit.
    TooLong(FileWord),
    /// The bytes of a file are off their form.
    Form(FormFault),
}

impl FormFault {
    /// The status of the file that is refused.
    pub(crate) fn status(&self) -> u8
        ensures { result ≡ form_status self.now }
    {
        match self {
            FormFault::Topology(_) => 3,
            FormFault::Script(_) => 4,
            FormFault::Schedule(_) => 5,
            FormFault::Journal(_) => 6,
        }
    }

    /// Writes the fault line without its line feed. On an error a prefix of it was written.
    pub(crate) fn print_to(&self, text: &mut Vec<u8>) -> Result<(), Memory>
        ensures { Printed result text.old.items text.new.items (form_line self.now) }
    {
        match self {
            FormFault::Topology(error) => error.print_to(text),
            FormFault::Script(error) => error.print_to(text),
            FormFault::Schedule(error) => error.print_to(text),
            FormFault::Journal(error) => error.print_to(text),
        }
    }
}
