//! The reading half: it reads and accepts the files in the order of work, or refuses, and writes nothing.
ghost use Rattle.std.specs.Prelude.{◌≡◌, IfOk};
ghost use Rattle.ov_io.specs.Causes.{NoneRoseTwice, SameCounts};
ghost use Rattle.ov_topology.specs.Shape.{IsShape};
ghost use Rattle.ov_script.specs.Script.{IsScript};
ghost use Rattle.ov_top.specs.Ending.{nothing};
ghost use Rattle.ov_top.specs.Headline.{IsRight, IsShort};
ghost use Rattle.ov_top.specs.Names.{names_seen};
ghost use Rattle.ov_top.specs.Reading.{Fits, IsFailure, Prepares};

use crate::file::{read_script, read_third, read_topology};
use crate::names::FileNames;
use crate::refusal::Refusal;
use ov_base::Sequence;
use ov_event::Entry;
use ov_io::Shelf;
use ov_script::{Schedule, Script};
use ov_topology::Topology;
use ov_world::Story;
use std::alloc::Global;

/// The third text of a command.
#[derive(Drop)]
pub(crate) enum Third {
    /// That of `step`.
    Schedule(Schedule),
    /// That of `audit`: its entries, the oldest first.
    Journal(Sequence<Entry>),
}

/// The three texts of a command, which are accepted.
#[derive(Drop)]
pub(crate) struct Accepted {
    pub(crate) topology: Topology,
    pub(crate) script: Script,
    pub(crate) third: Third,
}

/// Reads and accepts the three files, in the order of work. Where one is refused, those before it are in the story; else the story is as before.
/// Condition: the story is empty.
pub(crate) fn prepare<F: Shelf>(
    alloc: Global,
    names: &FileNames<'_>,
    shelf: &mut F,
    story: &mut Story,
) -> Result<Accepted, Refusal>
    requires { story.old ≡ nothing }
    ensures prepared { Prepares (F.told shelf.old) (F.faults shelf.old) (F.faults shelf.new) (names_seen names.now) result story.new }
    ensures shape { IfOk result (λ texts. IsShape texts.topology) }
    ensures form { IfOk result (λ texts. IsScript texts.script) }
    ensures fits { IfOk result (λ texts. Fits names.now.task texts.third) }
    ensures right { IsRight story.new }
    ensures short { IsShort story.new }
    ensures quiet { ¬ IsFailure result → SameCounts (F.faults shelf.old) (F.faults shelf.new) }
    ensures once { NoneRoseTwice (F.faults shelf.old) (F.faults shelf.new) }
{
    let topology = read_topology(alloc, names, shelf)?;
    let script = match read_script(alloc, names, topology.gateways(), shelf) {
        Ok(script) => script,
        Err(refusal) => {
            story.topology = Some(topology);
            return Err(refusal);
        }
    };
    match read_third(alloc, names, shelf) {
        Ok(third) => Ok(Accepted {
            topology,
            script,
            third,
        }),
        Err(refusal) => {
            story.topology = Some(topology);
            story.script = Some(script);
            Err(refusal)
        }
    }
}
