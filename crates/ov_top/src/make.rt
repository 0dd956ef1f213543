//! Running a made script.
ghost use Rattle.std.specs.Prelude.{◌≡◌, ◌≢◌, ◌≤◌, [], IfOk};
ghost use Rattle.ov_io.specs.Causes.{Rose};
ghost use Rattle.ov_top.specs.Causes.{EndsAs};
ghost use Rattle.ov_top.specs.Ending.{made, nothing, summed};
ghost use Rattle.ov_top.specs.Headline.{IsRight, IsShort};

use crate::run::run;
use crate::write::put_summary;
use ov_base::Memory;
use ov_io::Sink;
use ov_make::make_script;
use ov_script::{Schedule, Script};
use ov_topology::Topology;
use ov_world::Story;
use std::alloc::Global;

/// Makes the script of the number with so many commands, runs it, and writes the summary. Conditions: the story is empty; there are from 2 to 4,000
/// commands.
pub(crate) fn make<K: Sink>(
    alloc: Global,
    number: u64,
    commands: u32,
    out: &mut K,
    story: &mut Story,
) -> u8
    requires empty { story.old ≡ nothing }
    requires some { 2 ≤ commands }
    requires few { commands ≤ 4000 }
    ensures came { EndsAs (made number commands) result story.new (K.written out.old) (K.written out.new) }
    ensures right { IsRight story.new }
    ensures short { IsShort story.new }
    ensures write { result ≡ 8 → Rose (K.faults out.old) (K.faults out.new) }
    ensures sink { result ≢ 8 → K.faults out.new ≡ K.faults out.old }
{
    match make_script(alloc, number, commands) {
        Err(_) => 9,
        Ok((topology, script)) => sum_up(alloc, topology, script, out, story),
    }
}

/// Runs the script over the empty schedule, and writes the summary.
fn sum_up<K: Sink>(
    alloc: Global,
    topology: Topology,
    script: Script,
    out: &mut K,
    story: &mut Story,
) -> u8
    requires empty { story.old ≡ nothing }
    ensures came { EndsAs (summed topology script) result story.new (K.written out.old) (K.written out.new) }
    ensures right { IsRight story.new }
    ensures short { IsShort story.new }
    ensures write { result ≡ 8 → Rose (K.faults out.old) (K.faults out.new) }
    ensures sink { result ≢ 8 → K.faults out.new ≡ K.faults out.old }
{
    let Ok(schedule) = empty_schedule(alloc) else {
        return 9;
    };
    match run(alloc, topology, script, &schedule, story) {
        Err(_) => 9,
        Ok(()) => put_summary(alloc, story, out),
    }
}

/// The schedule without a line. The only error is out of memory.
fn empty_schedule(alloc: Global) -> Result<Schedule, Memory>
    ensures { IfOk result (λ schedule. schedule ≡ []) }
{
    match Schedule::read(alloc, b"") {
        Ok(schedule) => Ok(schedule),
        Err(_) => Err(Memory),
    }
}
