//! The files: reading each of them, and what is accepted of its bytes.
ghost use Rattle.std.specs.Prelude.{◌≡◌, ◌≤◌, length, IfOk, IfErr};
ghost use Rattle.ov_io.specs.Causes.{NoneFell, SameCounts, NoneRoseTwice, SameTold, Agrees};
ghost use Rattle.ov_top.specs.Ending.{limit};
ghost use Rattle.ov_top.specs.Form.{accept_topology, accept_script, accept_schedule, accept_journal, accept_third};
ghost use Rattle.ov_top.specs.Names.{names_seen, name_at, third_word};
ghost use Rattle.ov_top.specs.Reading.{AcceptsBy, IsFailure, Reads, RefusesFile, by_topology, by_script, by_schedule, by_journal, refusal_by};
ghost use Rattle.ov_top.specs.declared.refusal.FileWord.TheVariants as word;

use crate::names::{FileNames, Task, name_of};
use crate::prepare::Third;
use crate::refusal::{FileWord, FormFault, Refusal};
use ov_base::Sequence;
use ov_event::Entry;
use ov_io::{Shelf, ShelfError};
use ov_journal::{JournalError, read_journal_from};
use ov_script::{Schedule, ScheduleError, Script, ScriptError};
use ov_topology::{Topology, TopologyError};
use std::alloc::Global;

/// The most bytes of a file that is no journal, 4 MiB.
const LIMIT: u64 = 4_194_304;

/// The most bytes of a journal, 64 MiB.
const JOURNAL_LIMIT: u64 = 67_108_864;

/// Reads the topology and accepts it, or says why not.
pub(crate) fn read_topology<F: Shelf>(
    alloc: Global,
    names: &FileNames<'_>,
    shelf: &mut F,
) -> Result<Topology, Refusal>
    ensures reads { Reads (F.told shelf.old) (F.faults shelf.old) (F.faults shelf.new) (names_seen names.now) word.Topology accept_topology result }
    ensures later { NoneFell (F.faults shelf.old) (F.faults shelf.new) }
    ensures quiet { ¬ IsFailure result → SameCounts (F.faults shelf.old) (F.faults shelf.new) }
    ensures once { NoneRoseTwice (F.faults shelf.old) (F.faults shelf.new) }
    ensures same { SameTold (F.told shelf.old) (F.told shelf.new) }
{
    let bytes = read_file(alloc, names, FileWord::Topology, shelf)?;
    topology_of(alloc, bytes.as_slice())
}

/// Reads the script and accepts it, where there are so many gateways, or says why not.
pub(crate) fn read_script<F: Shelf>(
    alloc: Global,
    names: &FileNames<'_>,
    gateways: u32,
    shelf: &mut F,
) -> Result<Script, Refusal>
    ensures reads { Reads (F.told shelf.old) (F.faults shelf.old) (F.faults shelf.new) (names_seen names.now) word.Script (accept_script gateways) result }
    ensures later { NoneFell (F.faults shelf.old) (F.faults shelf.new) }
    ensures quiet { ¬ IsFailure result → SameCounts (F.faults shelf.old) (F.faults shelf.new) }
    ensures once { NoneRoseTwice (F.faults shelf.old) (F.faults shelf.new) }
    ensures same { SameTold (F.told shelf.old) (F.told shelf.new) }
{
    let bytes = read_file(alloc, names, FileWord::Script, shelf)?;
    script_of(alloc, bytes.as_slice(), gateways)
}

/// Reads the third file, the schedule or the journal, and accepts it, or says why not.
pub(crate) fn read_third<F: Shelf>(
    alloc: Global,
    names: &FileNames<'_>,
    shelf: &mut F,
) -> Result<Third, Refusal>
    ensures reads { Reads (F.told shelf.old) (F.faults shelf.old) (F.faults shelf.new) (names_seen names.now) (third_word names.now.task) (accept_third names.now.task) result }
    ensures later { NoneFell (F.faults shelf.old) (F.faults shelf.new) }
    ensures quiet { ¬ IsFailure result → SameCounts (F.faults shelf.old) (F.faults shelf.new) }
    ensures once { NoneRoseTwice (F.faults shelf.old) (F.faults shelf.new) }
    ensures same { SameTold (F.told shelf.old) (F.told shelf.new) }
{
    let word = match names.task {
        Task::Follow { .. } => FileWord::Schedule,
        Task::Judge => FileWord::Journal,
    };
    let bytes = read_file(alloc, names, word, shelf)?;
    third_of(alloc, names.task, bytes)
}

/// Reads one file, within its limit.
fn read_file<F: Shelf>(
    alloc: Global,
    names: &FileNames<'_>,
    word: FileWord,
    shelf: &mut F,
) -> Result<Vec<u8>, Refusal>
    ensures bytes { IfOk result (λ v. Agrees (F.told shelf.old (name_at (names_seen names.now) word)) v.items) }
    ensures short { IfOk result (λ v. length v.items ≤ limit word) }
    ensures refused { IfErr result (λ r. RefusesFile (F.told shelf.old (name_at (names_seen names.now) word)) (F.faults shelf.old (name_at (names_seen names.now) word)) (F.faults shelf.new (name_at (names_seen names.now) word)) word r) }
    ensures later { NoneFell (F.faults shelf.old) (F.faults shelf.new) }
    ensures quiet { ¬ IsFailure result → SameCounts (F.faults shelf.old) (F.faults shelf.new) }
    ensures once { NoneRoseTwice (F.faults shelf.old) (F.faults shelf.new) }
    ensures same { SameTold (F.told shelf.old) (F.told shelf.new) }
{
    match shelf.read(alloc, name_of(names, word), limit_of(word)) {
        Ok(bytes) => Ok(bytes),
        Err(error) => Err(refusal_of(error, word)),
    }
}

/// The most bytes of this file.
fn limit_of(word: FileWord) -> u64
    ensures { result ≡ limit word }
{
    match word {
        FileWord::Topology | FileWord::Script | FileWord::Schedule => LIMIT,
        FileWord::Journal => JOURNAL_LIMIT,
    }
}

fn refusal_of(error: ShelfError, word: FileWord) -> Refusal
    ensures { result ≡ refusal_by error word }
{
    match error {
        ShelfError::Memory => Refusal::Memory,
        ShelfError::Failed => Refusal::Failed(word),
        ShelfError::TooLong => Refusal::TooLong(word),
    }
}

/// The topology of the bytes, or why they are refused.
fn topology_of(alloc: Global, bytes: &[u8]) -> Result<Topology, Refusal>
    ensures { AcceptsBy result (accept_topology bytes.now) }
{
    match Topology::read(alloc, bytes) {
        Ok(topology) => Ok(topology),
        Err(error) => Err(topology_refusal(error)),
    }
}

fn topology_refusal(error: TopologyError) -> Refusal
    ensures { result ≡ by_topology error }
{
    match error {
        TopologyError::Memory => Refusal::Memory,
        fault => Refusal::Form(FormFault::Topology(fault)),
    }
}

/// The script of the bytes, where there are so many gateways, or why they are refused.
fn script_of(alloc: Global, bytes: &[u8], gateways: u32) -> Result<Script, Refusal>
    ensures { AcceptsBy result (accept_script gateways bytes.now) }
{
    match Script::read(alloc, bytes, gateways) {
        Ok(script) => Ok(script),
        Err(error) => Err(script_refusal(error)),
    }
}

fn script_refusal(error: ScriptError) -> Refusal
    ensures { result ≡ by_script error }
{
    match error {
        ScriptError::Memory => Refusal::Memory,
        fault => Refusal::Form(FormFault::Script(fault)),
    }
}

/// The third text of the bytes, or why they are refused.
fn third_of(alloc: Global, task: Task, bytes: Vec<u8>) -> Result<Third, Refusal>
    ensures { AcceptsBy result (accept_third task bytes.items) }
{
    match task {
        Task::Follow { .. } => Ok(Third::Schedule(schedule_of(alloc, bytes.as_slice())?)),
        Task::Judge => Ok(Third::Journal(journal_of(alloc, bytes)?)),
    }
}

/// The schedule of the bytes, or why they are refused.
fn schedule_of(alloc: Global, bytes: &[u8]) -> Result<Schedule, Refusal>
    ensures { AcceptsBy result (accept_schedule bytes.now) }
{
    match Schedule::read(alloc, bytes) {
        Ok(schedule) => Ok(schedule),
        Err(error) => Err(schedule_refusal(error)),
    }
}

fn schedule_refusal(error: ScheduleError) -> Refusal
    ensures { result ≡ by_schedule error }
{
    match error {
        ScheduleError::Memory => Refusal::Memory,
        fault => Refusal::Form(FormFault::Schedule(fault)),
    }
}

/// The entries of the journal of the bytes, or why they are refused. The bytes are given back while they are read.
fn journal_of(alloc: Global, bytes: Vec<u8>) -> Result<Sequence<Entry>, Refusal>
    ensures { AcceptsBy result (accept_journal bytes.items) }
{
    match read_journal_from(alloc, bytes) {
        Ok(entries) => Ok(Sequence::from_vec(entries)),
        Err(error) => Err(journal_refusal(error)),
    }
}

fn journal_refusal(error: JournalError) -> Refusal
    ensures { result ≡ by_journal error }
{
    match error {
        JournalError::Memory => Refusal::Memory,
        fault => Refusal::Form(FormFault::Journal(fault)),
    }
}
