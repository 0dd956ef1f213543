//! Following the lines of a schedule.
ghost use Rattle.std.specs.Prelude.{◌≡◌, ◌<◌, ◌↔◌, length, IfOk, IsTrue, OnErr};
ghost use Rattle.ov_follow.specs.Lines as lines;
ghost use Rattle.ov_history.specs.Gives.{gives};
ghost use Rattle.ov_world.specs.Acts.{act_in, line_in};
ghost use Rattle.ov_world.specs.Holds.{Holds};
ghost use Rattle.ov_world.specs.World.{setting_of, grown};

use super::World;
use crate::act::Act;
use crate::delivered::{keep_letter, kept_letter};
use crate::line::{Line, line_of};
use ov_base::{Memory, push_within};
use ov_script::Step;
use ov_topology::Actor;

impl World {
    /// Follows a step of a schedule (docs/STORE.md, What a schedule's line does). True exactly where the step gives an entry, which the history
    /// then gains; else, and on an error, the world is as it was. The only error is out of memory.
    pub fn follow(&mut self, step: &Step) -> Result<bool, Memory>
        ensures follow { IfOk result (λ grew. self.new ≡ record self.old { history = lines.follow (setting_of self.old) self.old.history step.now }) }
        ensures grew { IfOk result (λ grew. IsTrue grew ↔ (length self.old.history < length self.new.history)) }
        ensures err { OnErr result (self.new ≡ self.old) }
        ensures holds { Holds (setting_of self.new) self.new.history }
    {
        self.assure();
        let Some(line) = line_of(&self.script, step) else {
            return Ok(false);
        };
        self.follow_line(&line)
    }

    /// Has an actor do what it is asked to do. True exactly where it gives an entry, which the history then gains; else, and on an error,
    /// the world is as it was. The only error is out of memory.
    pub fn follow_line(&mut self, line: &Line) -> Result<bool, Memory>
        ensures follow { IfOk result (λ grew. self.new ≡ record self.old { history = lines.followed (setting_of self.old) self.old.history (line_in line.now) }) }
        ensures grew { IfOk result (λ grew. IsTrue grew ↔ (length self.old.history < length self.new.history)) }
        ensures err { OnErr result (self.new ≡ self.old) }
        ensures holds { Holds (setting_of self.new) self.new.history }
    {
        self.assure();
        let grew = self.perform(line.actor, line.act)?;
        self.assure();
        Ok(grew)
    }

    /// Has an actor do what it is asked to do. True exactly where it gives an entry, which the history then gains; else, and on an error,
    /// the world is as it was.
    pub(super) fn perform(&mut self, actor: Actor, act: Act) -> Result<bool, Memory>
        ensures gives { IfOk result (λ grew. self.new ≡ grown (gives (setting_of self.old) self.old.history actor (act_in act)) self.old) }
        ensures grew { IfOk result (λ grew. IsTrue grew ↔ (length self.old.history < length self.new.history)) }
        ensures err { OnErr result (self.new ≡ self.old) }
    {
        let Some(number) = self.topology.number_of(actor) else {
            return Ok(false);
        };
        let alloc = *self.entries.allocator();
        self.entries.reserve(1)?;
        let entries = self.entries.as_slice();
        keep_letter(alloc, &self.topology, entries, act, &mut self.last)?;
        let letter = kept_letter(&self.last, act);
        let core = &mut self.cores[number as usize];
        match core.act(alloc, self.script.roster(), act, letter)? {
            None => Ok(false),
            Some(entry) => {
                push_within(&mut self.entries, entry);
                Ok(true)
            }
        }
    }
}
