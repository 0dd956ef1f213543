//! What the words ask for: what is to be done, and the words that name the files for it.
ghost use Rattle.std.specs.Prelude.{◌≡◌};
ghost use Rattle.ov_top.specs.Names.{name_at, names_seen};

use crate::refusal::FileWord;
use crate::words::FileName;

/// What is to be done with the files.
#[derive(Clone, Copy, Debug)]
pub(crate) enum Task {
    /// To follow the schedule, and to write the history in place of the report where `journal`.
    Follow { journal: bool },
    /// To judge the journal.
    Judge,
}

/// What is to be done, and the words that name the files for it.
#[derive(Clone, Copy, Debug)]
pub(crate) struct FileNames<'a> {
    pub(crate) task: Task,
    /// The topology.
    pub(crate) topology: &'a str,
    /// The script.
    pub(crate) script: &'a str,
    /// The third file: the schedule, or the journal.
    pub(crate) third: &'a str,
}

impl<'a> FileNames<'a> {
    /// That this is to be done with these files.
    pub(crate) fn new(
        task: Task,
        topology: &'a FileName,
        script: &'a FileName,
        third: &'a FileName,
    ) -> FileNames<'a>
        ensures { names_seen result ≡ record { task = task; topology = topology.now; script = script.now; third = third.now } }
    {
        FileNames {
            task,
            topology: topology.as_str(),
            script: script.as_str(),
            third: third.as_str(),
        }
    }
}

/// The word that names this file.
pub(crate) fn name_of<'a>(names: &FileNames<'a>, word: FileWord) -> &'a str
    ensures { result.now ≡ name_at (names_seen names.now) word }
{
    match word {
        FileWord::Topology => names.topology,
        FileWord::Script => names.script,
        FileWord::Schedule | FileWord::Journal => names.third,
    }
}
