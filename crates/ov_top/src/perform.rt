//! Doing what was asked for with the texts that are accepted.
ghost use Rattle.std.specs.Prelude.{◌≡◌, ◌≢◌};
ghost use Rattle.ov_io.specs.Causes.{Rose};
ghost use Rattle.ov_script.specs.Script.{IsScript};
ghost use Rattle.ov_topology.specs.Shape.{IsShape};
ghost use Rattle.ov_top.specs.Causes.{EndsAs};
ghost use Rattle.ov_top.specs.Ending.{done, nothing, writes_journal};
ghost use Rattle.ov_top.specs.Headline.{IsRight, IsShort};
ghost use Rattle.ov_top.specs.Names.{IsJudge};
ghost use Rattle.ov_top.specs.Performing.{EndsJudged, Performs};
ghost use Rattle.ov_top.specs.Reading.{Fits};

use crate::names::Task;
use crate::prepare::{Accepted, Third};
use crate::run::run;
use crate::write::{put_history, put_verdict};
use ov_base::Sequence;
use ov_event::Entry;
use ov_io::Sink;
use ov_journal::audit;
use ov_script::{Schedule, Script};
use ov_topology::Topology;
use ov_world::Story;
use std::alloc::Global;

/// Follows the schedule, or judges the journal, and writes what came of it. Conditions: the story is empty; the texts are in form, and the third is of
/// the kind that the task takes.
pub(crate) fn perform<K: Sink>(
    alloc: Global,
    task: Task,
    accepted: Accepted,
    out: &mut K,
    story: &mut Story,
) -> u8
    requires empty { story.old ≡ nothing }
    requires shape { IsShape accepted.topology }
    requires form { IsScript accepted.script }
    requires fits { Fits task accepted.third }
    ensures performs { Performs task accepted result story.new (K.written out.old) (K.written out.new) }
    ensures right { (IsJudge task → result ≡ 0) → IsRight story.new }
    ensures short { IsShort story.new }
    ensures write { result ≡ 8 → Rose (K.faults out.old) (K.faults out.new) }
    ensures sink { result ≢ 8 → K.faults out.new ≡ K.faults out.old }
{
    let Accepted {
        topology,
        script,
        third,
    } = accepted;
    match third {
        Third::Schedule(schedule) => {
            let journal = writes_journal(task);
            follow(alloc, journal, topology, script, &schedule, out, story)
        }
        Third::Journal(entries) => judge(alloc, topology, script, entries, out, story),
    }
}

/// Whether the history is to be written in place of the report.
fn writes_journal(task: Task) -> bool
    ensures { result ≡ writes_journal task }
{
    match task {
        Task::Follow { journal } => journal,
        Task::Judge => false,
    }
}

/// Follows the schedule, calms the world, and writes the report, or the history where `journal`.
fn follow<K: Sink>(
    alloc: Global,
    journal: bool,
    topology: Topology,
    script: Script,
    schedule: &Schedule,
    out: &mut K,
    story: &mut Story,
) -> u8
    requires empty { story.old ≡ nothing }
    requires form { IsScript script }
    ensures came { EndsAs (done journal topology script schedule.now) result story.new (K.written out.old) (K.written out.new) }
    ensures right { IsRight story.new }
    ensures short { IsShort story.new }
    ensures write { result ≡ 8 → Rose (K.faults out.old) (K.faults out.new) }
    ensures sink { result ≢ 8 → K.faults out.new ≡ K.faults out.old }
{
    match run(alloc, topology, script, schedule, story) {
        Err(_) => 9,
        Ok(()) => put_history(alloc, journal, story, out),
    }
}

/// Judges the entries, and writes the verdict.
fn judge<K: Sink>(
    alloc: Global,
    topology: Topology,
    script: Script,
    entries: Sequence<Entry>,
    out: &mut K,
    story: &mut Story,
) -> u8
    requires empty { story.old ≡ nothing }
    requires shape { IsShape topology }
    ensures came { EndsJudged topology script entries result story.new (K.written out.old) (K.written out.new) }
    ensures right { result ≡ 0 → IsRight story.new }
    ensures short { IsShort story.new }
    ensures write { result ≡ 8 → Rose (K.faults out.old) (K.faults out.new) }
    ensures sink { result ≢ 8 → K.faults out.new ≡ K.faults out.old }
{
    match audit(alloc, &topology, &script, entries.as_slice()) {
        Err(_) => 9,
        Ok(verdict) => {
            let count = entries.as_slice().len() as u64;
            story.topology = Some(topology);
            story.script = Some(script);
            story.entries = entries;
            put_verdict(alloc, count, verdict, out)
        }
    }
}
