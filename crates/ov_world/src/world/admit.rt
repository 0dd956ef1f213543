//! Admitting entries that may follow.
ghost use Rattle.std.specs.Prelude.{◌≡◌, ◌↔◌, Some, None, IfOk, IsTrue, OnErr, if◌then◌else◌};
ghost use Rattle.ov_history.specs.May.{May};
ghost use Rattle.ov_history.specs.Gives.{act_of};
ghost use Rattle.ov_world.specs.Acts.{act_in};
ghost use Rattle.ov_world.specs.Holds.{Holds};
ghost use Rattle.ov_world.specs.World.{setting_of, grown};

use super::World;
use crate::act::{Act, act_of};
use crate::delivered::{keep_letter, kept_letter};
use ov_base::Memory;
use ov_event::Entry;

impl World {
    /// Admits an entry where it may follow (docs/STORE.md, When an entry may follow). True exactly then, and the history gains it; else,
    /// and on an error, the world is as it was. The only error is out of memory.
    pub fn admit(&mut self, entry: &Entry) -> Result<bool, Memory>
        ensures may { IfOk result (λ admitted. IsTrue admitted ↔ May (setting_of self.old) self.old.history entry.now) }
        ensures admit { IfOk result (λ admitted. self.new ≡ grown (if admitted then Some entry.now else None) self.old) }
        ensures err { OnErr result (self.new ≡ self.old) }
        ensures holds { Holds (setting_of self.new) self.new.history }
    {
        self.assure();
        let act = act_of(&entry.kind);
        if !self.may_follow(act, entry)? {
            return Ok(false);
        }
        let admitted = self.perform(entry.actor, act)?;
        self.assure();
        Ok(admitted)
    }

    /// Whether an entry may follow. Condition: the act is the one for which entries of its kind are given. Nothing changes that contracts
    /// see. The only error is out of memory.
    fn may_follow(&mut self, act: Act, entry: &Entry) -> Result<bool, Memory>
        requires { act_in act ≡ act_of entry.now.kind }
        ensures may { IfOk result (λ may. IsTrue may ↔ May (setting_of self.old) self.old.history entry.now) }
        ensures same { self.new ≡ self.old }
    {
        let Some(number) = self.topology.number_of(entry.actor) else {
            return Ok(false);
        };
        let alloc = *self.entries.allocator();
        let entries = self.entries.as_slice();
        keep_letter(alloc, &self.topology, entries, act, &mut self.last)?;
        let letter = kept_letter(&self.last, act);
        let core = &self.cores[number as usize];
        let may = core.admits(self.script.roster(), letter, entry)?;
        Ok(may)
    }
}
